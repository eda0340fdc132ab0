// Runs of words of a module: they are written, cleared and read.
ghost use Rattle.std.specs.Prelude.{◌≡◌, ◌+◌, ◌<◌, length};
ghost use Rattle.device.specs.Words.{width};
ghost use Rattle.write_log.specs.Runs.{RunPut, AllCleared, RunLoaded, NoRoom};

use device::{Fault, Module, check_run};

// Stores the words of a run from `start` on, and then settles that run. A run that has no room is declined, and nothing changes.
pub fn put_run<M: Module>(memory: &mut M, start: usize, run: &[u64]) -> Result<(), Fault>
    ensures put { RunPut (M.Module.meaning memory.old) start run.now (M.Module.meaning memory.new) result }
    ensures no_room { NoRoom (M.Module.meaning memory.old) start (length run.now) (M.Module.meaning memory.new) result }
{
    let width = memory.width();
    check_run(start, run.len(), width)?;
    for (i, &v) in run.iter().enumerate() {
        memory.store(start + i, v)?;
    }
    memory.settle(start, run.len())
}

// Stores 0 in every word, and then settles them all. It is no call of `put_run`: so many zeros would need memory of their own.
pub fn clear_all<M: Module>(memory: &mut M) -> Result<(), Fault>
    ensures { AllCleared (M.Module.meaning memory.old) (M.Module.meaning memory.new) result }
{
    let width = memory.width();
    // A module is no slice: its words are reached by their numbers alone.
    for i in 0..width {
        memory.store(i, 0)?;
    }
    memory.settle(0, width)
}

// Loads as many words as `out` has from `start` on. Where there are not so many, the call is declined, and nothing changes.
pub fn load_run<M: Module>(memory: &mut M, start: usize, out: &mut [u64]) -> Result<(), Fault>
    ensures loaded { RunLoaded (M.Module.meaning memory.old) start out.old out.new (M.Module.meaning memory.new) result }
    ensures no_room { NoRoom (M.Module.meaning memory.old) start (length out.old) (M.Module.meaning memory.new) result }
    ensures untouched { width (M.Module.meaning memory.old) < start + length out.old → out.new ≡ out.old }
{
    let width = memory.width();
    check_run(start, out.len(), width)?;
    for (i, word) in out.iter_mut().enumerate() {
        *word = memory.load(start + i)?;
    }
    Ok(())
}
