// When the power of a staged module fails.
ghost use Rattle.std.specs.Prelude.{◌≡◌, ℕ, true, IfErr};
ghost use Rattle.std.specs.Result.{is_ok};
ghost use Rattle.device.specs.Numbers.{Says};
ghost use Rattle.memory.specs.Meanings.{plan};
ghost use Rattle.memory.specs.Plans.{lasts, drawn, renewed};

use device::{Fault, Layer, Refusal};

// Whether it is on, which life this is, and how many more stores and settles each of the first four lives allows.
#[derive(Clone, Copy)]
pub struct Power {
    on: bool,
    life: usize,
    counts: [u64; 4],
}

impl Power {
    pub fn new(counts: [u64; 4]) -> Self
        ensures { (p : ℕ) → plan result p ≡ record { on = true; left = counts; pattern = p } }
    {
        Power {
            on: true,
            life: 0,
            counts,
        }
    }

    // Declines a call at word i where power is off.
    pub fn check(&self, i: usize) -> Result<(), Fault>
        ensures lit { is_ok result ≡ self.now.on }
        ensures declined { IfErr result (λ e. Says e 22 2 i) }
    {
        if !self.on {
            return Err(Layer::Module.declines(Refusal::PowerFailed, i as u64));
        }
        Ok(())
    }

    // Takes one store or settle, at word i, from this life's count. Where none is left, power fails.
    pub fn draw(&mut self, i: usize) -> Result<(), Fault>
        ensures lasts { (p : ℕ) → is_ok result ≡ lasts (plan self.old p) }
        ensures after { (p : ℕ) → plan self.new p ≡ drawn (plan self.old p) }
        ensures declined { IfErr result (λ e. Says e 22 2 i) }
    {
        self.check(i)?;
        // By its index: taken by `get`, a count took a caller's loop up to four times the time.
        if self.life >= self.counts.len() {
            return Ok(()); // no life past the counts is cut
        }
        let Some(fewer) = self.counts[self.life].checked_sub(1) else {
            self.on = false;
            return self.check(i); // it fails now
        };
        // A write through `get_mut` was tried and does not prove: it is lost to the proof.
        self.counts[self.life] = fewer;
        Ok(())
    }

    // Begins the next life.
    pub fn renew(&mut self)
        ensures { (p : ℕ) → plan self.new p ≡ renewed (plan self.old p) }
    {
        self.life = self.life.saturating_add(1);
        self.on = true;
    }
}
