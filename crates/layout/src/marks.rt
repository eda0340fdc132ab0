// What the mark of an entry says.
ghost use Rattle.std.specs.Prelude.{◌≡◌, ◌<◌, ◌≤◌, true, codes, Some};

use std::error::Error;
use std::fmt;

// Which of its group's entries an entry is.
#[derive(Clone, Copy, PartialEq, Eq, Debug)]
pub enum Mark {
    // The first of so many.
    First(u8),
    // The one so many places after the first.
    Next(u8),
}

// A word that is no mark.
#[derive(Clone, Copy, PartialEq, Eq, Debug)]
pub struct NoMark;

impl fmt::Display for NoMark {
    ghost output = { λ _. Some (codes "no mark of an entry") };

    fn fmt<W: fmt::Write>(&self, f: &mut fmt::Formatter<W>) -> fmt::Result {
        f.write_str("no mark of an entry")
    }
}

impl Error for NoMark {}

impl Mark {
    ghost use Rattle.layout.specs.Marks.{is_mark, mark_of, mark_word};

    // The mark of the entry d places after the first one of a group of k.
    pub(crate) fn of(k: usize, d: usize) -> Mark
        requires group { k ≤ 8 }
        requires place { d ≤ 8 }
        ensures word { mark_word result ≡ mark_of k d }
        ensures fit { d < k → is_mark (mark_word result) ≡ true }
    {
        if d == 0 {
            Mark::First(k as u8)
        } else {
            Mark::Next(d as u8)
        }
    }
}

impl From<Mark> for u64 {
    ghost use Rattle.layout.specs.Marks.{mark_word};

    ghost from_gives = { λ mark word. word ≡ mark_word mark };

    fn from(mark: Mark) -> u64 {
        match mark {
            Mark::First(k) => u64::from(k),
            Mark::Next(d) => 16 + u64::from(d),
        }
    }
}

impl TryFrom<u64> for Mark {
    type Error = NoMark;

    ghost use Rattle.layout.specs.Marks.{MarkRead};

    ghost try_from_gives = { MarkRead };

    fn try_from(word: u64) -> Result<Self, NoMark> {
        match word {
            1..=8 => Ok(Mark::First(word as u8)),
            17..=23 => Ok(Mark::Next((word - 16) as u8)),
            _ => Err(NoMark),
        }
    }
}
