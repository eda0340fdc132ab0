// Two modules over lent words: one that never loses its power, and one that loses it when told to.
#![tactic(auto)]

mod battery;
mod bounds;
mod power;
mod staged;

pub use battery::Battery;
pub use staged::Staged;
