// What all parts of the log have in common: why a call is declined, by whom and where; and what a module and a shelf are.
#![tactic(auto)]

ghost use Rattle.std.specs.Prelude.{◌≡◌, Some};
ghost use Rattle.device.specs.declared.Failure.TheVariants.{Declined, NoMemory};
ghost use Rattle.device.specs.Numbers.{number_of, layer_of, told, refusal as told_as};
ghost use Rattle.device.specs.Phrases.{phrase_of, shown_fault, shown_failure};

mod modules;
mod ranges;
mod shelves;

pub use modules::Module;
pub use ranges::{check_run, path_fits, run_fits};
pub use shelves::{Shelf, writes_keep_these_laws};
use std::alloc::{AllocError, AllocFailed};
use std::error::Error;
use std::fmt;

// Why a call is declined.
#[derive(Clone, Copy, PartialEq, Eq, Debug)]
pub enum Refusal {
    MachineDown = 1,
    PowerFailedInCall = 2,
    UnknownMode = 3,
    BadPath = 4,
    DescriptorsTaken = 5,
    NoSuchFile = 6,
    ShelfFull = 7,
    BadDescriptor = 8,
    WrongMode = 9,
    WriteTooLong = 10,
    PastLimit = 11,
    LogFull = 12,
    ScratchTooShort = 13,
    BadFormat = 14,
    BadHeader = 15,
    BadTail = 16,
    BadRow = 17,
    BadEntry = 18,
    UnfitImage = 19,
    OutOfRange = 20,
    UnsettledWord = 21,
    PowerFailed = 22,
}

// The number that a refusal is told by.
impl From<Refusal> for u8 {
    ghost from_gives = { λ why n. n ≡ number_of why };

    fn from(why: Refusal) -> u8 {
        why as u8
    }
}

impl Refusal {
    // What the refusal means, in words.
    pub fn phrase(self) -> &'static str
        ensures { result.now ≡ phrase_of self }
    {
        match self {
            Refusal::MachineDown => "the machine is down",
            Refusal::PowerFailedInCall => "power failed in this call",
            Refusal::UnknownMode => "unknown mode",
            Refusal::BadPath => "a path has 1 to 32 bytes, none of them zero",
            Refusal::DescriptorsTaken => "all descriptors are taken",
            Refusal::NoSuchFile => "no such file",
            Refusal::ShelfFull => "no room for a new path",
            Refusal::BadDescriptor => "no such descriptor",
            Refusal::WrongMode => "the descriptor's mode does not allow this",
            Refusal::WriteTooLong => "a write has at most 4096 bytes",
            Refusal::PastLimit => "past the file limit",
            Refusal::LogFull => "more entries are needed than are free",
            Refusal::ScratchTooShort => "the scratch is too short",
            Refusal::BadFormat => "the number of entries or the module's width does not fit",
            Refusal::BadHeader => "wrong word in the header",
            Refusal::BadTail => "the tail is no position",
            Refusal::BadRow => "bad row of names",
            Refusal::BadEntry => "bad entry",
            Refusal::UnfitImage => "unfit image of a shelf",
            Refusal::OutOfRange => "out of range",
            Refusal::UnsettledWord => "the word is not settled",
            Refusal::PowerFailed => "power failed",
        }
    }
}

impl fmt::Display for Refusal {
    ghost output = { λ why. Some (phrase_of why) };

    fn fmt<W: fmt::Write>(&self, f: &mut fmt::Formatter<W>) -> fmt::Result {
        f.write_str(self.phrase())
    }
}

// Who declines it.
#[derive(Clone, Copy, PartialEq, Eq, Debug)]
pub enum Layer {
    Machine = 0,
    Log = 1,
    Module = 2,
    Shelf = 3,
}

impl Layer {
    // What this layer says when it declines a call.
    pub fn declines(self, refusal: Refusal, place: u64) -> Fault
        ensures { told result ≡ told_as (number_of refusal) (layer_of self) place }
    {
        Fault {
            refusal,
            layer: self,
            place,
        }
    }
}

// The number that a layer is told by.
impl From<Layer> for u8 {
    ghost from_gives = { λ layer n. n ≡ layer_of layer };

    fn from(layer: Layer) -> u8 {
        layer as u8
    }
}

// A declined call: why, by whom, and at which place (a word, a row, a descriptor, a length, as the refusal has it).
#[derive(Clone, Copy, PartialEq, Eq, Debug)]
pub struct Fault {
    pub refusal: Refusal,
    pub layer: Layer,
    pub place: u64,
}

impl fmt::Display for Fault {
    ghost output = { λ e. Some (shown_fault e) };

    fn fmt<W: fmt::Write>(&self, f: &mut fmt::Formatter<W>) -> fmt::Result {
        write!(
            f,
            "refusal {}, layer {}, place {}: {}",
            u8::from(self.refusal),
            u8::from(self.layer),
            self.place,
            self.refusal
        )
    }
}

// Why work that needs memory was not done: it was declined, or there was no memory for it.
#[derive(Clone, Copy, Debug)]
pub enum Failure {
    Declined(Fault),
    NoMemory,
}

impl fmt::Display for Failure {
    ghost output = { λ e. Some (shown_failure e) };

    fn fmt<W: fmt::Write>(&self, f: &mut fmt::Formatter<W>) -> fmt::Result {
        match self {
            Failure::Declined(fault) => write!(f, "{fault}"),
            Failure::NoMemory => f.write_str("no memory"),
        }
    }
}

impl Error for Fault {}

impl Error for Failure {}

impl From<Fault> for Failure {
    ghost from_gives = { λ e r. r ≡ Declined e };

    fn from(e: Fault) -> Failure {
        Failure::Declined(e)
    }
}

impl From<AllocError> for Failure {
    ghost from_gives = { λ _ r. r ≡ NoMemory };

    fn from(_e: AllocError) -> Failure {
        Failure::NoMemory // nothing was allocated
    }
}

// The same for the other type of such an error: `?` meets both.
impl<T: Drop> From<AllocFailed<T>> for Failure {
    ghost from_gives = { λ _ r. r ≡ NoMemory };

    fn from(_e: AllocFailed<T>) -> Failure {
        Failure::NoMemory // a value found no place
    }
}

#[cfg(test)]
mod tests {
    use super::*;
    use std::test::Fail;

    #[test]
    fn a_fault_in_words(rt: HostRuntime) -> Result<(), Fail> {
        let fault = Fault {
            refusal: Refusal::LogFull,
            layer: Layer::Log,
            place: 3,
        };
        let text = fault.to_string(rt.alloc())?;
        assert!(rt;
            text.as_str() == "refusal 12, layer 1, place 3: more entries are needed than are free"
        );
        Ok(())
    }
}
