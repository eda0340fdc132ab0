// Examples for the words of the format.

#![tactic(auto)]

#[cfg(test)]
mod tests {
    use device::{Layer, Refusal};
    use layout::{
        Mark, Piece, entry_words, group_words, log_width, pack, read_entry, read_row, row_words,
        split, unpack,
    };
    use std::test::Fail;

    const BAD_WORDS: [(usize, u64); 14] = [
        // marks
        (0, 0),
        (0, 9),
        (0, 16),
        (0, 24),
        (0, u64::MAX),
        // a row past the last, an offset past the largest file
        (1, 16),
        (2, 2_097_149),
        (2, u64::MAX),
        // counts
        (3, 0),
        (3, 513),
        (3, u64::MAX),
        // nonzero bytes past the count: a smaller count, the byte right after the last, the very last
        (3, 3),
        (4, 0x1_6574_6f76),
        (67, 1 << 56),
    ];

    #[test]
    fn each_way_an_entry_is_wrong(rt: HostRuntime) -> Result<(), Fail> {
        let piece = Piece {
            offset: 40,
            bytes: b"vote",
        };
        let good = entry_words(3, &[piece], 0).ok_or("no words")?;
        assert!(rt; good[4] == 0x6574_6f76);
        let entry = read_entry(&good, 5)?;
        assert!(rt; entry.mark == Mark::First(1) && entry.row == 3 && entry.offset == 40);
        assert!(rt; entry.bytes.count == 4);
        let bad_entry = Layer::Log.declines(Refusal::BadEntry, 5);
        for (i, v) in BAD_WORDS {
            let mut words = good;
            if i < 68 {
                words[i] = v;
            }
            assert_eq!(rt; read_entry(&words, 5).err(), Some(bad_entry));
        }
        assert!(rt; read_entry(&good[0..67], 5).is_err());
        assert!(rt; read_entry(&good, 5).is_ok());
        Ok(())
    }

    // Bytes that differ from their neighbours.
    fn sample() -> [u8; 513] {
        std::array::from_fn(|i| ((i * 7 + 3) % 251) as u8)
    }

    // Whether the words have these bytes, low byte first, and then zeros.
    fn holds(words: &[u64], bytes: &[u8]) -> bool {
        let mut held = words.iter().flat_map(|word| word.to_le_bytes());
        bytes.iter().all(|byte| held.next() == Some(*byte)) && held.all(|byte| byte == 0)
    }

    // Whether `back` is `bytes` and then zeros.
    fn begins(back: &[u8], bytes: &[u8]) -> bool {
        back.strip_prefix(bytes)
            .is_some_and(|rest| rest.iter().all(|byte| *byte == 0))
    }

    #[test]
    fn packing_at_the_edges_of_words(rt: HostRuntime) {
        let bytes = sample();
        for n in [1usize, 7, 8, 9, 511, 512] {
            if n <= 512 {
                let mut words = [u64::MAX; 64];
                assert!(rt; pack(&bytes[0..n], &mut words).is_ok());
                assert!(rt; holds(&words, &bytes[0..n]));
                let mut back = [255u8; 512];
                assert!(rt; unpack(&words, &mut back).is_ok());
                assert!(rt; begins(&back, &bytes[0..n]));
            }
        }
        let mut words = [7; 64];
        assert!(rt; pack(&bytes, &mut words).is_err());
        assert!(rt; words[0] == 7 && words[63] == 7);
    }

    #[test]
    fn a_write_of_600_bytes_in_two_entries(rt: HostRuntime) -> Result<(), Fail> {
        let bytes = vec![in rt.alloc(); 65u8; 600]?;
        let pieces = split(rt.alloc(), 2_097_152, 1000, bytes.as_slice())?;
        assert!(rt; pieces.len() == 2);
        let words = group_words(rt.alloc(), 2, pieces.as_slice())?.ok_or("unfit")?;
        assert!(rt; words.len() == 136);
        assert!(rt; words[0] == 2 && words[1] == 2 && words[2] == 1000 && words[3] == 512);
        assert!(rt; words[68] == 17 && words[69] == 2 && words[70] == 1512 && words[71] == 88);
        Ok(())
    }

    #[test]
    fn rows_hold_paths_of_1_to_32_bytes(rt: HostRuntime) -> Result<(), Fail> {
        let row = row_words(b"votes/friday")?;
        assert!(rt; row[0] == 12 && row[1] == 0x72662f7365746f76 && row[4] == 0);
        let name = read_row(&row, 9)?;
        assert!(rt; name.count == 12 && name.bytes[11] == b'y' && name.bytes[12] == 0);
        assert!(rt; row_words(b"").is_err());
        assert!(rt; row_words(b"a\0b").is_err());
        assert!(rt; row_words(&[65; 32]).is_ok() && row_words(&[65; 33]).is_err());
        let bad_row = Layer::Log.declines(Refusal::BadRow, 9);
        let mut fill = row;
        fill[4] = 1;
        assert_eq!(rt; read_row(&fill, 9).err(), Some(bad_row));
        let mut longer = row;
        longer[0] = 33;
        assert_eq!(rt; read_row(&longer, 9).err(), Some(bad_row));
        Ok(())
    }

    #[test]
    fn widths_of_9_to_1024_entries(rt: HostRuntime) -> Result<(), Fail> {
        assert!(rt; log_width(9)? == 701);
        assert!(rt; log_width(1024)? == 69_721);
        for n in [0usize, 8, 1025, usize::MAX] {
            assert!(rt; log_width(n).is_err());
        }
        Ok(())
    }
}
