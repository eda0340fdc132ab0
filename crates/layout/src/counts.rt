// How many entries a log has, and what follows from that.
ghost use Rattle.std.specs.Prelude.{◌≡◌, ◌≤◌};

use crate::places::{ENTRY_WORDS, FIRST_ENTRY};
use device::{Fault, Layer, Refusal};

pub const LEAST_ENTRIES: usize = 9;

pub const MOST_ENTRIES: usize = 1024;

// A number of entries that a log may have.
#[derive(Clone, Copy, PartialEq, Eq, Debug)]
pub struct EntryCount {
    pub n: usize,
    ghost least: { 9 ≤ n },
    ghost most: { n ≤ 1024 },
}

impl TryFrom<usize> for EntryCount {
    type Error = Fault;

    ghost use Rattle.layout.specs.Counts.{Counted};

    ghost try_from_gives = { Counted };

    fn try_from(n: usize) -> Result<Self, Fault> {
        if !(LEAST_ENTRIES..=MOST_ENTRIES).contains(&n) {
            let width = n.saturating_mul(ENTRY_WORDS).saturating_add(FIRST_ENTRY);
            return Err(Layer::Log.declines(Refusal::BadFormat, width as u64));
        }
        Ok(EntryCount { n })
    }
}

impl EntryCount {
    ghost use Rattle.layout.specs.Places.{width_of, header_words, entry_for};

    // How many words the log takes.
    pub fn width(self) -> usize
        ensures { result ≡ width_of self.n }
    {
        FIRST_ENTRY + ENTRY_WORDS * self.n
    }

    // The words 0 to 7 of the log.
    pub fn header(self) -> [u64; 8]
        ensures { result ≡ header_words self.n }
    {
        [1, 8, 80, 88, 1, 89, 68 * self.n as u64, 0]
    }

    // The first word of the entry d places after a position, round the circle. The two are asked for together and never kept, so they are two
    // numbers.
    pub fn entry_start(self, position: usize, d: usize) -> Option<usize>
        ensures { result ≡ entry_for self.n position d }
    {
        if position >= self.n || d > self.n {
            return None;
        }
        Some(FIRST_ENTRY + ENTRY_WORDS * ((position + d) % self.n))
    }
}
