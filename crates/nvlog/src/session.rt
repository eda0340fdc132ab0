// Answers to commands.
ghost use Rattle.std.specs.Prelude.{◌<◌, ◌≤◌, IfOk, OnSome};
ghost use Rattle.nvlog.specs.Lines.{left};

use crate::command::{Command, Step, parse};
use crate::lines::Lines;
use crate::reader::{Found, read_writes};
use crate::word_log::{Circle, WordLog};
use device::{Failure, Fault, Module};
use layout::EntryCount;
use memory::Battery;
use std::alloc::Global;
use std::io::Write;
use std::{fmt, io};

// What was laid out in a log.
#[derive(Clone, Copy, Default)]
struct Total {
    writes: usize,
    taken: usize,
    free: usize,
}

impl fmt::Display for Total {
    fn fmt<W: fmt::Write>(&self, f: &mut fmt::Formatter<W>) -> fmt::Result {
        write!(
            f,
            "{} writes, {} entries, {} free",
            self.writes, self.taken, self.free
        )
    }
}

// Why a step was not done: the log did not do it, or its answer could not be written.
#[derive(Drop)]
enum Trouble {
    Log(Failure),
    Output(io::Error),
}

impl From<Fault> for Trouble {
    fn from(e: Fault) -> Trouble {
        Trouble::Log(e.into())
    }
}

impl From<Failure> for Trouble {
    fn from(e: Failure) -> Trouble {
        Trouble::Log(e)
    }
}

impl From<io::Error> for Trouble {
    fn from(e: io::Error) -> Trouble {
        Trouble::Output(e)
    }
}

// Where answers go, and where memory comes from.
#[derive(Drop)]
pub struct Session<'a, W: Write> {
    pub out: &'a mut W,
    pub heap: Global,
}

impl<'a, W: Write> Session<'a, W> {
    // Answers each line of the input, and then says what was laid out in the last log.
    pub fn answer_all(&mut self, mut lines: Lines<'_>) -> anyhow::Result<()> {
        let mut total = Total::default();
        let mut next = self.until_log(&mut lines, |session, _| Ok(session.say(b"no log yet")?))?;
        while let Some(entries) = next {
            let mut words = Vec::from_elem(self.heap, 0, entries.width())?;
            let mut memory = Battery::new(words.as_mut_slice());
            let Ok(circle) = Circle::format(&mut memory, entries.n) else {
                unreachable();
            };
            let mut log = WordLog { memory, circle };
            writeln!(self.out, "log {}: {} words", entries.n, entries.width())?;
            next = self.until_log(&mut lines, |session, step| session.obey(&mut log, step))?;
            total = Total {
                writes: log.circle.writes,
                taken: log.circle.taken,
                free: log.circle.free(),
            };
        }
        writeln!(self.out, "total: {total}")?;
        Ok(())
    }

    // Answers the lines up to one that begins a log, and says how many entries that log has. `act` does what a line asks for; a line that
    // cannot be read, or a log that is declined, is answered here and leaves the log that is there.
    fn until_log<F: FnMut(&mut Self, Step<'_>) -> anyhow::Result<()>>(
        &mut self,
        lines: &mut Lines<'_>,
        mut act: F,
    ) -> anyhow::Result<Option<EntryCount>>
        requires { F.IsAlwaysCallable act }
        ensures rest { left lines.new ≤ left lines.old }
        ensures taken { IfOk result (λ next. OnSome next (left lines.new < left lines.old)) }
    {
        // A `for` over `lines.by_ref()` was tried and its proof did not close: what is left of the lines after it is lost to the proof.
        while let Some(line) = lines.next() {
            match parse(line) {
                None => self.unreadable(line)?,
                Some(Command::Use(step)) => act(self, step)?,
                Some(Command::Log { entries }) => match EntryCount::try_from(entries) {
                    Ok(entries) => return Ok(Some(entries)),
                    Err(e) => self.decline(e)?,
                },
            }
        }
        Ok(None)
    }

    // Does a step. A refusal is an answer; want of memory, and output that fails, end the program.
    fn obey(&mut self, log: &mut WordLog<'_>, step: Step<'_>) -> anyhow::Result<()> {
        match self.take(log, step) {
            Err(Trouble::Log(Failure::Declined(fault))) => Ok(self.decline(fault)?),
            Err(Trouble::Log(e)) => Err(e.into()),
            Err(Trouble::Output(e)) => Err(e.into()),
            Ok(()) => Ok(()),
        }
    }

    // One match, and no closure in the place of each step: which steps there are is for the reader of lines to say, and plainer so.
    fn take(&mut self, log: &mut WordLog<'_>, step: Step<'_>) -> Result<(), Trouble> {
        match step {
            Step::Name { path } => self.name(log, path),
            Step::Write { row, offset, text } => self.write(log, row, offset, text),
            Step::Words { from, count } => self.show_words(log, from, count),
            Step::Back => self.show_writes(log),
        }
    }

    fn name(&mut self, log: &mut WordLog<'_>, path: &[u8]) -> Result<(), Trouble> {
        let row = log.name(path)?;
        write!(self.out, "row {row}: ")?;
        Ok(self.say(path)?)
    }

    fn write(
        &mut self,
        log: &mut WordLog<'_>,
        row: u64,
        offset: u64,
        text: &[u8],
    ) -> Result<(), Trouble> {
        match log.write(self.heap, row, offset, text)? {
            Some(laid) => writeln!(
                self.out,
                "write: position {}, entries {}",
                laid.position, laid.entries
            )?,
            None => self.say(b"write: nothing")?,
        }
        Ok(())
    }

    fn show_words(
        &mut self,
        log: &mut WordLog<'_>,
        from: usize,
        count: usize,
    ) -> Result<(), Trouble> {
        let words = log.copy(self.heap, from, count)?;
        for (i, word) in words.iter().enumerate() {
            writeln!(self.out, "word {}: {word}", from.saturating_add(i))?;
        }
        Ok(())
    }

    fn show_writes(&mut self, log: &mut WordLog<'_>) -> Result<(), Trouble> {
        for found in self.found_writes(log)?.iter() {
            write!(
                self.out,
                "row {}, offset {}, {} bytes: ",
                found.row,
                found.offset,
                found.bytes.len()
            )?;
            self.say(found.bytes.as_slice())?;
        }
        Ok(())
    }

    // The writes that stand in the words of a log.
    fn found_writes(&self, log: &mut WordLog<'_>) -> Result<Vec<Found>, Failure> {
        let width = log.memory.width();
        let words = log.copy(self.heap, 0, width)?;
        read_writes(self.heap, words.as_slice())
    }

    fn unreadable(&mut self, line: &[u8]) -> io::Result<()> {
        self.out.write_all(b"unreadable: ")?;
        self.say(line)
    }

    // Three numbers, which an answer of the program is made of: a fault is shown with words besides.
    fn decline(&mut self, e: Fault) -> io::Result<()> {
        writeln!(
            self.out,
            "declined {} {} {}",
            u8::from(e.refusal),
            u8::from(e.layer),
            e.place
        )
    }

    fn say(&mut self, text: &[u8]) -> io::Result<()> {
        self.out.write_all(text)?;
        self.out.write_all(b"\n")
    }
}
