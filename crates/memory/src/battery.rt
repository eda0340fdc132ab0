// A module that never loses its power.
ghost use Rattle.std.specs.Prelude.{◌≡◌};
ghost use Rattle.device.specs.Words.{resting};
ghost use Rattle.memory.specs.Soundness.{resting_sound};
ghost use Rattle.memory.specs.Meanings.{battery_of};

use crate::bounds::check_word;
use device::{Fault, Module, check_run};

// Every store is sure when it returns.
#[derive(Drop)]
pub struct Battery<'a> {
    words: &'a mut [u64],
}

impl<'a> Battery<'a> {
    pub fn new(words: &'a mut [u64]) -> Self
        ensures { battery_of result ≡ resting words.old }
    {
        Battery { words }
    }
}

impl<'a> Module for Battery<'a> {
    ghost meaning = { battery_of };

    ghost sound = { λ b. resting_sound b.words.now };

    fn width(&self) -> usize {
        self.words.len()
    }

    fn load(&mut self, i: usize) -> Result<u64, Fault> {
        check_word(i, self.width())?;
        Ok(self.words[i])
    }

    fn store(&mut self, i: usize, v: u64) -> Result<(), Fault> {
        check_word(i, self.width())?;
        self.words[i] = v;
        Ok(())
    }

    fn settle(&mut self, i: usize, c: usize) -> Result<(), Fault> {
        check_run(i, c, self.width())
    }

    fn restart(&mut self) {}
}
