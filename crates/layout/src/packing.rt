// Bytes into 64-bit words, eight to a word and the low byte first, and back.
ghost use Rattle.std.specs.Prelude.{◌≡◌, ◌*◌, ◌≤◌, length, if◌then◌else◌, nat_le, is_ok, codes, Some};
ghost use Rattle.layout.specs.Packing.{low_first, packed_word, byte_in, packed, unpacked};

use std::error::Error;
use std::fmt;

// There are more bytes than the words have room for.
#[derive(Clone, Copy, PartialEq, Eq, Debug)]
pub struct TooManyBytes;

impl fmt::Display for TooManyBytes {
    ghost output = { λ _. Some (codes "more bytes than the words hold") };

    fn fmt<W: fmt::Write>(&self, f: &mut fmt::Formatter<W>) -> fmt::Result {
        f.write_str("more bytes than the words hold")
    }
}

impl Error for TooManyBytes {}

// Eight bytes or fewer as one number.
fn low_first_word(bytes: &[u8]) -> u64
    requires { length bytes.now ≤ 8 }
    ensures { result ≡ low_first bytes.now }
{
    let mut eight = [0; 8];
    eight[..bytes.len()].copy_from_slice(bytes);
    u64::from_le_bytes(eight)
}

// Word j of the packed bytes.
fn word_of(bytes: &[u8], j: usize) -> u64
    ensures { result ≡ packed_word bytes.now j }
{
    let from = j.saturating_mul(8);
    if from >= bytes.len() {
        return 0; // past the bytes, as most words of a short piece are
    }
    let rest = &bytes[from..];
    match rest.first_chunk::<8>() {
        Some(eight) => u64::from_le_bytes(*eight),
        None => low_first_word(rest),
    }
}

// Byte i of packed words; a byte past the last one counts as 0.
fn byte_of(words: &[u64], i: usize) -> u8
    ensures { result ≡ byte_in words.now i }
{
    let word = words.get(i / 8).copied().unwrap_or(0);
    word.to_le_bytes()[i % 8]
}

// Declines more bytes than so many words hold.
fn ask_for_room(bytes: usize, words: usize) -> Result<(), TooManyBytes>
    ensures { is_ok result ≡ nat_le bytes (8 * words) }
{
    if bytes.div_ceil(8) > words {
        return Err(TooManyBytes);
    }
    Ok(())
}

// Packs the bytes into the words and fills up with zeros. Nothing is written where they do not fit.
pub fn pack(bytes: &[u8], words: &mut [u64]) -> Result<(), TooManyBytes>
    ensures fits { is_ok result ≡ nat_le (length bytes.now) (8 * length words.old) }
    ensures after { words.new ≡ (if is_ok result then packed (length words.old) bytes.now else words.old) }
{
    ask_for_room(bytes.len(), words.len())?;
    // A `zip` with the chunks of the bytes was tried and does not prove: what is written through it is lost to the proof.
    for (j, word) in words.iter_mut().enumerate() {
        *word = word_of(bytes, j);
    }
    Ok(())
}

// Takes the first bytes out of packed words. Nothing is written where the words hold fewer.
pub fn unpack(words: &[u64], bytes: &mut [u8]) -> Result<(), TooManyBytes>
    ensures fits { is_ok result ≡ nat_le (length bytes.old) (8 * length words.now) }
    ensures after { bytes.new ≡ (if is_ok result then unpacked (length bytes.old) words.now else bytes.old) }
{
    ask_for_room(bytes.len(), words.len())?;
    for (i, byte) in bytes.iter_mut().enumerate() {
        *byte = byte_of(words, i);
    }
    Ok(())
}
