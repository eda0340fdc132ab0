// A log kept in the words of a module.
ghost use Rattle.std.specs.Prelude.{◌≡◌, ◌<◌, ◌≤◌, length};
ghost use Rattle.layout.specs.Places.{width_of};

use layout::EntryCount;
use memory::Battery;

// What is kept outside of the words: the number of entries, the head, and how many entries and writes wait.
#[derive(Drop)]
pub struct Circle {
    pub entries: EntryCount,
    pub head: usize,
    pub taken: usize,
    pub writes: usize,
    ghost on: { head < entries.n },
    ghost room: { taken < entries.n },
    ghost few: { writes ≤ taken },
}

// The words, as many as the entries need, and the circle of entries in them.
#[derive(Drop)]
pub struct WordLog<'a> {
    pub memory: Battery<'a>,
    pub circle: Circle,
    ghost fit: { length memory.words.now ≡ width_of circle.entries.n },
}

// Where a write was laid out.
#[derive(Clone, Copy)]
pub struct Laid {
    pub position: usize,
    pub entries: usize,
}
