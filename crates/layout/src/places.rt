// Where things stand in the words of a log: 8 header words, 16 rows of names, the tail, the entries.
ghost use Rattle.std.specs.Prelude.{◌≡◌};
ghost use Rattle.device.specs.Numbers.{answer};
ghost use Rattle.layout.specs.Places.{width_for, header_for, row_for, entry_for};

use crate::counts::EntryCount;
use device::Fault;

pub const HEADER_WORDS: usize = 8;

pub const ROWS: usize = 16;

pub const ROW_WORDS: usize = 5;

pub const TAIL: usize = 88;

pub const FIRST_ENTRY: usize = 89;

pub const ENTRY_WORDS: usize = 68;

// How many words a log of n entries takes.
pub fn log_width(n: usize) -> Result<usize, Fault>
    ensures { answer result ≡ width_for n }
{
    Ok(EntryCount::try_from(n)?.width())
}

// Words 0 to 7 of a log of n entries; none where no log has so many.
pub fn header(n: usize) -> Option<[u64; 8]>
    ensures { result ≡ header_for n }
{
    Some(EntryCount::try_from(n).ok()?.header())
}

// The first word of a row of names.
pub fn row_start(row: usize) -> Option<usize>
    ensures { result ≡ row_for row }
{
    if row < ROWS {
        Some(HEADER_WORDS + ROW_WORDS * row)
    } else {
        None
    }
}

// The first word of the entry d places after a position, round the circle of n; none where no log has n entries.
pub fn entry_start(n: usize, position: usize, d: usize) -> Option<usize>
    ensures { result ≡ entry_for n position d }
{
    EntryCount::try_from(n).ok()?.entry_start(position, d)
}
