// A shelf in an image of bytes that it owns: 16 records, one for each file. All is sure on return, and it is never dark.
#![tactic(auto)]

mod images;
mod records;
mod shelf;

pub use shelf::{Flat, Listed, Unfit};
