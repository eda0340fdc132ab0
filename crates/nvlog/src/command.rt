// One line of input as a command.
#[derive(Clone, Copy, PartialEq, Eq, Debug)]
pub enum Command<'a> {
    // Begin a log.
    Log { entries: usize },
    // Do something with the log that is there.
    Use(Step<'a>),
}

#[derive(Clone, Copy, PartialEq, Eq, Debug)]
pub enum Step<'a> {
    Name {
        path: &'a [u8],
    },
    Write {
        row: u64,
        offset: u64,
        text: &'a [u8],
    },
    Words {
        from: usize,
        count: usize,
    },
    Back,
}

// The command that a line holds: fields separated by one space, and a text that is the rest of the line.
pub fn parse(line: &[u8]) -> Option<Command<'_>> {
    if line == b"back".as_slice() {
        return Some(Command::Use(Step::Back));
    }
    let (verb, rest) = field(line)?;
    match verb {
        b"log" => Some(Command::Log {
            entries: entries_of(rest)?,
        }),
        b"name" => Some(Command::Use(Step::Name { path: rest })),
        b"write" => Some(Command::Use(write_step(rest)?)),
        b"words" => Some(Command::Use(words_step(rest)?)),
        _ => None,
    }
}

// A number of entries: at most 2 to the 32nd.
fn entries_of(digits: &[u8]) -> Option<usize> {
    let entries = number(digits)?;
    (entries <= 1 << 32).then_some(entries as usize)
}

fn write_step(rest: &[u8]) -> Option<Step<'_>> {
    let (row, rest) = field(rest)?;
    let (offset, text) = field(rest)?;
    Some(Step::Write {
        row: number(row)?,
        offset: number(offset)?,
        text,
    })
}

fn words_step<'a>(rest: &[u8]) -> Option<Step<'a>> {
    let (from, count) = field(rest)?;
    Some(Step::Words {
        from: number(from)? as usize,
        count: number(count)? as usize,
    })
}

// What stands before the first space, and what stands after it.
fn field(line: &[u8]) -> Option<(&[u8], &[u8])> {
    let at = line.iter().position(|b| *b == b' ')?;
    Some((&line[..at], &line[at + 1..]))
}

// A number of decimal digits that fits 64 bits.
fn number(digits: &[u8]) -> Option<u64> {
    if !digits.iter().all(u8::is_ascii_digit) {
        return None; // a sign, say
    }
    std::str::from_utf8(digits).ok()?.parse().ok()
}
