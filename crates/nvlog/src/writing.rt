// What is done to a log kept in words: it is made, rows get names, writes are laid out.
ghost use Rattle.std.specs.Prelude.{◌≡◌, ◌+◌, ◌*◌, ◌/◌, ◌<◌, ◌≤◌, true, false, length, take, drop};
ghost use Rattle.device.specs.Words.{width};
ghost use Rattle.memory.specs.Meanings.{battery_of};
ghost use Rattle.layout.specs.Entries.{group_of};
ghost use Rattle.layout.specs.Groups.{group_fits};
ghost use Rattle.layout.specs.Places.{row_at};
ghost use Rattle.nvlog.specs.Rows.{taken_row, RowIs, FirstRow, Named, NamesRead};
ghost use Rattle.nvlog.specs.States.{state_of};
ghost use Rattle.nvlog.specs.Writes.{GroupPut, LaidOut, Written, Made, Copied};

use crate::word_log::{Circle, Laid, WordLog};
use device::{Failure, Fault, Layer, Module, Refusal};
use layout::{
    ENTRY_WORDS, EntryCount, HEADER_WORDS, MOST_FILE, Piece, ROW_WORDS, ROWS, TAIL, group_words,
    row_start, row_words, split,
};
use memory::Battery;
use std::alloc::Global;
use write_log::{clear_all, load_run, put_run};

impl Circle {
    // Makes an empty log of n entries in all the words of a module.
    pub fn format(memory: &mut Battery<'_>, n: usize) -> Result<Circle, Fault>
        ensures { Made (battery_of memory.old) n (battery_of memory.new) result }
    {
        let entries = EntryCount::try_from(n)?;
        let width = memory.width();
        if width != entries.width() {
            return Err(Layer::Log.declines(Refusal::BadFormat, width as u64));
        }
        clear_all(memory)?;
        put_run(memory, 0, &entries.header())?;
        Ok(Circle {
            entries,
            head: 0,
            taken: 0,
            writes: 0,
        })
    }

    // How many more entries the log takes: one always stays free.
    pub fn free(&self) -> usize
        ensures { result + self.now.taken + 1 ≡ self.now.entries.n }
    {
        self.entries.n - 1 - self.taken
    }
}

impl<'a> WordLog<'a> {
    // The row of a path: its own, or the lowest free one, which it takes.
    pub fn name(&mut self, path: &[u8]) -> Result<usize, Fault>
        ensures { Named (state_of self.old) path.now result (state_of self.new) }
    {
        let row = row_words(path)?;
        let names = read_names(&mut self.memory)?;
        if let Some(own) = find_row(&names, &row) {
            return Ok(own);
        }
        let Some(free) = free_row(&names) else {
            return Err(Layer::Shelf.declines(Refusal::ShelfFull, ROWS as u64));
        };
        put_run(&mut self.memory, HEADER_WORDS + ROW_WORDS * free, &row)?;
        Ok(free)
    }

    // Lays a write out from the head on; none where it has no bytes.
    pub fn write(
        &mut self,
        heap: Global,
        row: u64,
        offset: u64,
        bytes: &[u8],
    ) -> Result<Option<Laid>, Failure>
        ensures { Written (state_of self.old) row offset bytes.now result (state_of self.new) }
    {
        let names = read_names(&mut self.memory)?;
        if !is_named(&names, row) {
            return Err(Layer::Log.declines(Refusal::BadRow, row).into());
        }
        let pieces = split(heap, MOST_FILE, offset, bytes)?;
        if pieces.is_empty() {
            return Ok(None);
        }
        let free = self.circle.free();
        if pieces.len() > free {
            return Err(Layer::Log.declines(Refusal::LogFull, free as u64).into());
        }
        let laid = self.lay_out(heap, row, pieces.as_slice())?;
        Ok(Some(laid))
    }

    // Lays a group out from the head on, and moves the head behind it.
    fn lay_out(&mut self, heap: Global, row: u64, pieces: &[Piece<'_>]) -> Result<Laid, Failure>
        requires fit { group_fits (group_of row pieces.now) ≡ true }
        requires room { length pieces.now + self.old.circle.taken < self.old.circle.entries.n }
        ensures { LaidOut (state_of self.old) (group_of row pieces.now) result (state_of self.new) }
    {
        let position = self.circle.head;
        let entries = pieces.len();
        let Some(group) = group_words(heap, row, pieces)? else {
            unreachable();
        };
        put_group(
            &mut self.memory,
            self.circle.entries,
            position,
            group.as_slice(),
        )?;
        self.circle.head = (position + entries) % self.circle.entries.n;
        self.circle.taken += entries;
        self.circle.writes += 1;
        Ok(Laid { position, entries })
    }

    // A copy of `count` words from `from` on, as far as there are words.
    pub fn copy(&mut self, heap: Global, from: usize, count: usize) -> Result<Vec<u64>, Failure>
        ensures { Copied (state_of self.old) from count result (state_of self.new) }
    {
        let width = self.memory.width();
        let start = from.min(width);
        let mut words = Vec::from_elem(heap, 0, count.min(width - start))?;
        load_run(&mut self.memory, start, words.as_mut_slice())?;
        Ok(words)
    }
}

// The header and the rows of names: all that stands before the tail.
fn read_names(memory: &mut Battery<'_>) -> Result<[u64; TAIL], Fault>
    ensures { 88 ≤ width (battery_of memory.old) → NamesRead (battery_of memory.old) result (battery_of memory.new) }
{
    let mut names = [0; TAIL];
    load_run(memory, 0, &mut names)?;
    Ok(names)
}

// Puts the entries of a group from a position on, round the circle.
fn put_group<M: Module>(
    memory: &mut M,
    entries: EntryCount,
    position: usize,
    group: &[u64],
) -> Result<(), Fault>
    requires few { length group.now ≤ 68 * 8 }
    requires on { position < entries.n }
    ensures { GroupPut (M.Module.meaning memory.old) entries.n position (length group.now / 68) group.now (M.Module.meaning memory.new) result }
{
    for (d, entry) in group.chunks(ENTRY_WORDS).enumerate() {
        let start = entries.entry_start(position, d).unwrap();
        put_run(memory, start, entry)?;
    }
    Ok(())
}

// The lowest row that holds these words.
fn find_row(words: &[u64], row: &[u64]) -> Option<usize>
    ensures { FirstRow (RowIs words.now row.now) result }
{
    (0..ROWS).find(|r| row_in(words, *r) == row)
}

// The lowest row with no name.
fn free_row(words: &[u64]) -> Option<usize>
    ensures { FirstRow (λ q. taken_row words.now q ≡ false) result }
{
    (0..ROWS).find(|r| !is_named(words, *r as u64))
}

// The words of a row, as far as there are words.
fn row_in(words: &[u64], r: usize) -> &[u64]
    ensures { result.now ≡ take 5 (drop (row_at r) words.now) }
{
    let start = r
        .saturating_mul(ROW_WORDS)
        .saturating_add(HEADER_WORDS)
        .min(words.len());
    let end = words.len().min(start + ROW_WORDS);
    &words[start..end]
}

// Whether a row has a name.
fn is_named(words: &[u64], row: u64) -> bool
    ensures { result ≡ taken_row words.now row }
{
    row_start(row as usize)
        .and_then(|start| words.get(start))
        .is_some_and(|length| *length != 0)
}
