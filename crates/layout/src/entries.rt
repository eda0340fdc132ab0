// Entries of the log: a mark, a row of names, a file offset, a byte count and 64 payload words.
ghost use Rattle.std.specs.Prelude.{◌≡◌, ◌≤◌, ◌&&◌, length, IfSome, Some, nat_lt, true};
ghost use Rattle.layout.specs.Entries.{piece_fits, piece_entry, words_if_fit, entry_words, entry_of, entry_words_of, group_of, read_entry, EntryRead};
ghost use Rattle.layout.specs.Marks.{is_mark, mark_word};
ghost use Rattle.layout.specs.Packing.{Bytes};

use crate::fronts::Front;
use crate::marks::Mark;
use crate::packing::pack;
use crate::places::{ENTRY_WORDS, ROWS};
use device::{Fault, Layer, Refusal, run_fits};

pub const MOST_GROUP: usize = 8;

pub const PIECE: usize = 512;

pub const MOST_FILE: u64 = 2_097_152;

// A run of bytes and where it goes in its file.
#[derive(Clone, Copy)]
pub struct Piece<'a> {
    pub offset: u64,
    pub bytes: &'a [u8],
}

// An entry that was read from its words.
#[derive(Clone, Copy)]
pub struct Entry {
    pub mark: Mark,
    pub row: u64,
    pub offset: u64,
    pub bytes: Front<512>,
}

// Whether there is such a row, and 1 to 512 bytes end within the largest file.
fn place_fits(row: u64, offset: u64, count: u64) -> bool
    ensures { result ≡ (nat_lt row 16 && piece_fits offset count) }
{
    row < ROWS as u64
        && (1..=PIECE as u64).contains(&count)
        && run_fits(offset as usize, count as usize, MOST_FILE as usize)
}

fn words_of(mark: Mark, row: u64, offset: u64, bytes: &[u8]) -> [u64; 68]
    requires { length bytes.now ≤ 512 }
    ensures words { result ≡ entry_words (record { mark = mark_word mark; row = row; offset = offset; bytes = bytes.now }) }
    ensures small { Bytes bytes.now }
{
    let mut words = [0; 68];
    words[0] = mark.into();
    words[1] = row;
    words[2] = offset;
    words[3] = bytes.len() as u64;
    pack(bytes, &mut words[4..]).unwrap();
    words
}

// The words of one piece, as an entry with a mark. A row and its pieces stay two parameters: a struct of both would be made for each call alone.
pub(crate) fn piece_words(row: u64, mark: Mark, piece: &Piece<'_>) -> Option<[u64; 68]>
    requires { is_mark (mark_word mark) ≡ true }
    ensures words { result ≡ words_if_fit (piece_entry row mark piece.now) }
    ensures reads_back { IfSome result (λ ws. read_entry ws ≡ Some (piece_entry row mark piece.now)) }
{
    if !place_fits(row, piece.offset, piece.bytes.len() as u64) {
        return None;
    }
    Some(words_of(mark, row, piece.offset, piece.bytes))
}

// The words of the entry d places after the first one of a group, its mark included.
pub fn entry_words(row: u64, pieces: &[Piece<'_>], d: usize) -> Option<[u64; 68]>
    ensures words { result ≡ entry_words_of (group_of row pieces.now) d }
    ensures reads_back { IfSome result (λ ws. read_entry ws ≡ Some (entry_of (group_of row pieces.now) d)) }
{
    let k = pieces.len();
    if k > MOST_GROUP || d >= k {
        return None;
    }
    piece_words(row, Mark::of(k, d), &pieces[d])
}

// The entry that 68 words hold. `position` is the place that a refusal names.
pub fn read_entry(words: &[u64], position: u64) -> Result<Entry, Fault>
    ensures { EntryRead words.now position result }
{
    let bad = Layer::Log.declines(Refusal::BadEntry, position);
    if words.len() != ENTRY_WORDS {
        return Err(bad);
    }
    let Ok(mark) = Mark::try_from(words[0]) else {
        return Err(bad);
    };
    let row = words[1];
    let offset = words[2];
    if !place_fits(row, offset, words[3]) {
        return Err(bad);
    }
    let bytes: Front<512> = Front::unpacked(&words[4..], words[3] as usize);
    let again = words_of(mark, row, offset, bytes.as_slice());
    if words != again.as_slice() {
        return Err(bad);
    }
    Ok(Entry {
        mark,
        row,
        offset,
        bytes,
    })
}
