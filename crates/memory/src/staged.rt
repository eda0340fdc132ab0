// A module whose stores are sure only once settled, and whose power fails when told to.
ghost use Rattle.std.specs.Prelude.{◌≡◌, ◌+◌, ◌≤◌, true, not, if◌then◌else◌, length, drop};
ghost use Rattle.std.proofs.Math.Seq.{paste};
ghost use Rattle.device.specs.ModuleCalls.{Loaded, Stored, Settled, Restarted};
ghost use Rattle.memory.specs.Soundness.{staged_sound};
ghost use Rattle.memory.specs.Meanings.{plan_of, staged, staged_of};
ghost use Rattle.memory.specs.Plans.{bit_set, found_words, lasts, drawn, failed, renewed};

use crate::bounds::check_word;
use crate::power::Power;
use device::{Fault, Layer, Module, Refusal, check_run};

// As wide as the shorter of its slices. Two slices side by side, and no slice of pairs, since a module stands over lent words, in fixed
// memory.
#[derive(Drop)]
pub struct Staged<'a> {
    current: &'a mut [u64],
    sure: &'a mut [u64],
    pattern: u64,
    power: Power,
}

impl<'a> Staged<'a> {
    // Bit i mod 64 of the pattern says whether the current value of word i is found, or the sure one. Each of the first four lives allows
    // its count of stores and settles; the next one fails, undone.
    pub fn new(current: &'a mut [u64], sure: &'a mut [u64], pattern: u64, counts: [u64; 4]) -> Self
        ensures planned { plan_of result ≡ record { on = true; left = counts; pattern = pattern } }
        ensures means { staged_of result ≡ staged (record { on = true; left = counts; pattern = pattern }) current.old sure.old }
    {
        Staged {
            current,
            sure,
            pattern,
            power: Power::new(counts),
        }
    }
}

impl<'a> Module for Staged<'a> {
    ghost meaning = { staged_of };

    ghost sound = { λ s. staged_sound (plan_of s) s.current.now s.sure.now };

    fn width(&self) -> usize {
        self.current.len().min(self.sure.len())
    }

    fn load(&mut self, i: usize) -> Result<u64, Fault>
        ensures loaded { Loaded (staged_of self.old) i (staged_of self.new) result }
        ensures fails { failed result ≡ not (plan_of self.old).on }
        ensures planned { plan_of self.new ≡ plan_of self.old }
    {
        self.power.check(i)?;
        check_word(i, self.width())?;
        Ok(self.current[i])
    }

    fn store(&mut self, i: usize, v: u64) -> Result<(), Fault>
        ensures stored { Stored (staged_of self.old) i v (staged_of self.new) result }
        ensures fails { failed result ≡ not (lasts (plan_of self.old)) }
        ensures planned { plan_of self.new ≡ drawn (plan_of self.old) }
        ensures unsure { (staged_of self.new).sure ≡ (staged_of self.old).sure }
    {
        self.power.draw(i)?;
        check_word(i, self.width())?;
        if self.current[i] != self.sure[i] {
            return Err(Layer::Module.declines(Refusal::UnsettledWord, i as u64));
        }
        self.current[i] = v;
        Ok(())
    }

    fn settle(&mut self, i: usize, c: usize) -> Result<(), Fault>
        ensures settled { Settled (staged_of self.old) i c (staged_of self.new) result }
        ensures fails { failed result ≡ not (lasts (plan_of self.old)) }
        ensures planned { plan_of self.new ≡ drawn (plan_of self.old) }
    {
        self.power.draw(i)?;
        check_run(i, c, self.width())?;
        let current = &mut *self.current;
        let sure = &mut *self.sure;
        copy_run(current, sure, i, c);
        Ok(())
    }

    fn restart(&mut self)
        ensures restarted { Restarted (staged_of self.old) (staged_of self.new) }
        ensures planned { plan_of self.new ≡ renewed (plan_of self.old) }
    {
        let w = self.width();
        let current = &mut *self.current;
        let sure = &mut *self.sure;
        find_words(self.pattern, &mut current[..w], &sure[..w]);
        copy_run(current, sure, 0, w);
        self.power.renew();
    }
}

// What is found of word i: its current value where the pattern has a 1, else its sure one.
fn found(pattern: u64, i: usize, current: u64, sure: u64) -> u64
    ensures { result ≡ (if bit_set pattern i then current else sure) }
{
    if (pattern >> (i % 64)) % 2 == 1 {
        current
    } else {
        sure
    }
}

// Copies the run of `count` words from word i on. It is no line of `settle`: from one lent field to another, Rattle covers no such line.
fn copy_run(from: &[u64], to: &mut [u64], i: usize, count: usize)
    requires from_long { i + count ≤ length from.now }
    requires to_long { i + count ≤ length to.old }
    ensures { to.new ≡ paste to.old i (drop i from.now) count }
{
    to[i..i + count].copy_from_slice(&from[i..i + count]);
}

// Makes what is found of each word its current value. A `zip` with the sure words was tried and does not prove: what is written through it
// is lost to the proof.
fn find_words(pattern: u64, current: &mut [u64], sure: &[u64])
    requires { length current.old ≤ length sure.now }
    ensures { current.new ≡ found_words pattern current.old sure.now }
{
    for (i, word) in current.iter_mut().enumerate() {
        *word = found(pattern, i, *word, sure[i]);
    }
}
