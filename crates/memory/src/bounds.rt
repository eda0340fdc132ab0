// Whether the word that a call names is a module's.
ghost use Rattle.std.specs.Prelude.{◌<◌, ◌≤◌, OnOk, OnErr, IfErr};
ghost use Rattle.device.specs.Numbers.{Says};

use device::{Fault, check_run};

// Declines a word i that is past the end of `width` words.
pub fn check_word(i: usize, width: usize) -> Result<(), Fault>
    ensures within { OnOk result (i < width) }
    ensures past { OnErr result (width ≤ i) }
    ensures declined { IfErr result (λ e. Says e 20 2 i) }
{
    check_run(i, 1, width)
}
