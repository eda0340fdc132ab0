// What fits: paths of files, and runs within a length.
ghost use Rattle.std.specs.Prelude.{◌≡◌, ◌+◌, ◌<◌, ◌≤◌, IfErr, OnErr, OnOk, nat_le};
ghost use Rattle.device.specs.Numbers.{Says};
ghost use Rattle.device.specs.Paths.{path_fits};

use crate::{Fault, Layer, Refusal};

// Whether a path has 1 to 32 bytes, none of them zero.
pub fn path_fits(path: &[u8]) -> bool
    ensures { result ≡ path_fits path.now }
{
    !path.is_empty() && path.len() <= 32 && !path.contains(&0)
}

// Whether a run of `count` from `start` on ends within `length`. It is two numbers and no `Range`, which cannot say a run whose end is no number.
pub fn run_fits(start: usize, count: usize, length: usize) -> bool
    ensures { result ≡ nat_le (start + count) length }
{
    start <= length && count <= length - start
}

// Declines a run of `count` words from word i on that passes the end of a module's `width` words.
pub fn check_run(i: usize, count: usize, width: usize) -> Result<(), Fault>
    ensures within { OnOk result (i + count ≤ width) }
    ensures past { OnErr result (width < i + count) }
    ensures declined { IfErr result (λ e. Says e 20 2 i) }
{
    if !run_fits(i, count, width) {
        return Err(Layer::Module.declines(Refusal::OutOfRange, i as u64));
    }
    Ok(())
}
