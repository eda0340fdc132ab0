// A write cut into pieces of at most 512 bytes, one piece to an entry.
ghost use Rattle.std.specs.Prelude.{◌≡◌};
ghost use Rattle.std.specs.Option.{option_map};
ghost use Rattle.device.specs.Numbers.{answer};
ghost use Rattle.layout.specs.Entries.{plain};
ghost use Rattle.layout.specs.Writes.{write_for, piece_for, Split};

use crate::entries::{PIECE, Piece};
use device::{Failure, Fault, Layer, Refusal, run_fits};
use std::alloc::Global;

pub const MOST_WRITE: usize = 4096;

// How many entries a write takes in a file of at most `limit` bytes.
pub fn entries_for(limit: u64, offset: u64, length: usize) -> Result<usize, Fault>
    ensures { answer result ≡ write_for limit offset length }
{
    if length > MOST_WRITE {
        return Err(Layer::Machine.declines(Refusal::WriteTooLong, length as u64));
    }
    if length == 0 {
        return Ok(0);
    }
    if !run_fits(offset as usize, length, limit as usize) {
        return Err(Layer::Machine.declines(Refusal::PastLimit, limit));
    }
    Ok(length.div_ceil(PIECE))
}

// Piece d of a write; none past the last one, or where its offset is no 64-bit number.
pub fn piece_of<'a>(offset: u64, bytes: &'a [u8], d: usize) -> Option<Piece<'a>>
    ensures { option_map plain result ≡ piece_for offset bytes.now d }
{
    if d >= bytes.len().div_ceil(PIECE) {
        return None;
    }
    let from = PIECE * d;
    let to = bytes.len().min(from + PIECE);
    let offset = offset.checked_add(from as u64)?;
    Some(Piece {
        offset,
        bytes: &bytes[from..to],
    })
}

// The pieces of a write to a file of at most `limit` bytes. The library cuts them; a call of `piece_of` for each would count them by hand.
pub fn split<'a>(
    heap: Global,
    limit: u64,
    offset: u64,
    bytes: &'a [u8],
) -> Result<Vec<Piece<'a>>, Failure>
    ensures { Split limit offset bytes.now result }
{
    entries_for(limit, offset, bytes.len())?;
    let mut pieces = Vec::new(heap);
    for (d, bytes) in bytes.chunks(PIECE).enumerate() {
        let offset = offset + (PIECE * d) as u64;
        pieces.push(Piece { offset, bytes })?;
    }
    Ok(pieces)
}
