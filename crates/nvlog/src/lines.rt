// The lines of the input.
ghost use Rattle.std.specs.Prelude.{◌<◌, ◌≤◌, OnSome};
ghost use Rattle.std.specs.Iterator.{at_most};

// What is left of the input. Its lines come without their newlines; a newline at the very end begins no other line.
#[derive(Clone, Copy)]
pub struct Lines<'a> {
    rest: &'a [u8],
}

impl<'a> Lines<'a> {
    pub fn new(input: &'a [u8]) -> Self {
        Lines { rest: input }
    }
}

impl<'a> Iterator for Lines<'a> {
    ghost use Rattle.nvlog.specs.Lines.{left};

    type Item = &'a [u8];

    ghost next_gives = { λ lines line after. (left after ≤ left lines) × OnSome line (left after < left lines) };

    ghost remaining = { λ lines. at_most (left lines) };

    fn next(&mut self) -> Option<&'a [u8]> {
        if self.rest.is_empty() {
            return None;
        }
        let rest = self.rest;
        let end = rest.iter().position(|b| *b == b'\n').unwrap_or(rest.len());
        self.rest = rest.get(end + 1..).unwrap_or(&[]);
        Some(&rest[..end])
    }
}
