// What a module is: a memory of 64-bit words that may lose its power.
ghost use Rattle.std.specs.Prelude.{◌≡◌};
ghost use Rattle.device.specs.ModuleCalls.{Loaded, Stored, Settled, Restarted};
ghost use Rattle.device.specs.Words.{Words, Sound, width};

use crate::Fault;

pub trait Module {
    // Lit or dark, and the current, the sure and the found value of each word.
    ghost meaning: { Self → Words };

    // Each found value is the current or the sure one.
    ghost sound: { (m : Self) → Sound (meaning m) };

    // The count of words, which never changes.
    fn width(&self) -> usize
        ensures { result ≡ width (meaning self.now) };

    // The current value of word i.
    fn load(&mut self, i: usize) -> Result<u64, Fault>
        ensures { Loaded (meaning self.old) i (meaning self.new) result };

    // Makes v the current value of word i.
    fn store(&mut self, i: usize, v: u64) -> Result<(), Fault>
        ensures { Stored (meaning self.old) i v (meaning self.new) result };

    // Makes the current values of the c words from i on sure.
    fn settle(&mut self, i: usize, c: usize) -> Result<(), Fault>
        ensures { Settled (meaning self.old) i c (meaning self.new) result };

    // Makes every found value current and sure, and the module lit.
    fn restart(&mut self)
        ensures { Restarted (meaning self.old) (meaning self.new) };
}
