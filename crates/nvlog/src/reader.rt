// The writes that the words of a log hold, read from the words alone.
ghost use Rattle.std.specs.Prelude.{◌≡◌, ◌<◌, ◌≤◌, take, IfOk, Some};
ghost use Rattle.layout.specs.Places.{header_for, tail_of};

use device::{Failure, Fault, Layer, Refusal};
use layout::{ENTRY_WORDS, Entry, EntryCount, Mark, TAIL, read_entry};
use std::alloc::Global;

// A write as it was found: the pieces of its group joined.
#[derive(Drop)]
pub struct Found {
    pub row: u64,
    pub offset: u64,
    pub entries: usize,
    pub bytes: Vec<u8>,
}

// The words of a log, and the number of entries that its header says.
#[derive(Clone, Copy)]
struct Reader<'a> {
    words: &'a [u64],
    entries: EntryCount,
}

// The writes from the tail on, oldest first.
pub fn read_writes(heap: Global, words: &[u64]) -> Result<Vec<Found>, Failure> {
    let entries = entries_in(words)?;
    let reader = Reader { words, entries };
    let mut position = reader.tail()?;
    let mut writes = Vec::new(heap);
    for _ in 0..entries.n {
        if reader.is_free(position) {
            break;
        }
        let found = reader.write_at(heap, position)?;
        position = reader.around(position, found.entries);
        writes.push(found)?;
    }
    Ok(writes)
}

// How many entries the log has, as its header says.
fn entries_in(words: &[u64]) -> Result<EntryCount, Fault>
    ensures { IfOk result (λ c. header_for c.n ≡ Some (take 8 words.now)) }
{
    let bad = Layer::Log.declines(Refusal::BadHeader, 0);
    let Some(first) = words.first_chunk::<8>() else {
        return Err(bad);
    };
    match EntryCount::try_from(first[6] as usize / ENTRY_WORDS) {
        Ok(entries) if entries.header() == *first => Ok(entries),
        _ => Err(bad),
    }
}

impl<'a> Reader<'a> {
    // The position of the oldest entry.
    fn tail(&self) -> Result<usize, Fault>
        ensures { IfOk result (λ p. (p ≡ tail_of self.now.words.now) × (p < self.now.entries.n)) }
    {
        match self.words.get(TAIL) {
            Some(tail) if *tail < self.entries.n as u64 => Ok(*tail as usize),
            _ => Err(Layer::Log.declines(Refusal::BadTail, TAIL as u64)),
        }
    }

    // Whether no entry waits at a position: its mark is 0, or there is no such word.
    fn is_free(&self, position: usize) -> bool {
        self.entries
            .entry_start(position, 0)
            .and_then(|start| self.words.get(start))
            .is_none_or(|mark| *mark == 0)
    }

    // The write whose first entry stands at a position.
    fn write_at(&self, heap: Global, position: usize) -> Result<Found, Failure> {
        let first = self.entry_at(position, 0)?;
        let Mark::First(entries) = first.mark else {
            return Err(self.bad_entry(position, 0).into());
        };
        let entries = usize::from(entries);
        let mut bytes = Vec::new(heap);
        bytes.extend_from_slice(first.bytes.as_slice())?;
        // An entry is reached by its distance from the first, round the circle.
        for d in 1..entries {
            let entry = self.entry_at(position, d)?;
            if !goes_on(&first, d, bytes.len(), &entry) {
                return Err(self.bad_entry(position, d).into());
            }
            bytes.extend_from_slice(entry.bytes.as_slice())?;
        }
        Ok(Found {
            row: first.row,
            offset: first.offset,
            entries,
            bytes,
        })
    }

    // The entry d places after a position.
    fn entry_at(&self, position: usize, d: usize) -> Result<Entry, Fault> {
        let bad = self.bad_entry(position, d);
        let start = self.entries.entry_start(position, d).ok_or(bad)?;
        let words = self.words.get(start..start + ENTRY_WORDS).ok_or(bad)?;
        read_entry(words, bad.place)
    }

    fn bad_entry(&self, position: usize, d: usize) -> Fault {
        Layer::Log.declines(Refusal::BadEntry, self.around(position, d) as u64)
    }

    // The position d places further round the circle.
    fn around(&self, position: usize, d: usize) -> usize {
        position.saturating_add(d) % self.entries.n
    }
}

// Whether an entry is the one d places after the first of its group, with `length` bytes before it.
fn goes_on(first: &Entry, d: usize, length: usize, entry: &Entry) -> bool {
    let Mark::Next(place) = entry.mark else {
        return false;
    };
    usize::from(place) == d
        && entry.row == first.row
        && entry.offset.checked_sub(first.offset) == Some(length as u64)
}
