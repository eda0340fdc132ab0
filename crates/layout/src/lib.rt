// The words of the log's format.
#![tactic(auto)]

ghost use Rattle.layout.specs.Examples.{Holds, examples};

mod counts;
mod entries;
mod fronts;
mod groups;
mod marks;
mod packing;
mod places;
mod rows;
mod writes;

pub use counts::EntryCount;
pub use device::path_fits;
pub use entries::{Entry, MOST_FILE, MOST_GROUP, Piece, entry_words, read_entry};
pub use fronts::Front;
pub use groups::group_words;
pub use marks::{Mark, NoMark};
pub use packing::{TooManyBytes, pack, unpack};
pub use places::{
    ENTRY_WORDS, FIRST_ENTRY, HEADER_WORDS, ROW_WORDS, ROWS, TAIL, entry_start, header, log_width,
    row_start,
};
pub use rows::{Name, read_row, row_words};
pub use writes::{entries_for, piece_of, split};

// The worked examples of the format hold.
pub fn worked_examples()
    ensures { Holds examples }
{}
