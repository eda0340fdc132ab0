// What the log does to the words of a module, whichever module it is.
#![tactic(auto)]

mod runs;

pub use runs::{clear_all, load_run, put_run};
