// Rows of names: a path's length and its bytes in five words.
ghost use Rattle.std.specs.Prelude.{◌≡◌, IfOk, Some};
ghost use Rattle.device.specs.Numbers.{answer};
ghost use Rattle.layout.specs.Rows.{row_of, read_path, RowRead};

use crate::fronts::Front;
use crate::packing::pack;
use device::{Fault, Layer, Refusal, path_fits};

// A path that was read from its row.
pub type Name = Front<32>;

// The row of a path.
pub fn row_words(path: &[u8]) -> Result<[u64; 5], Fault>
    ensures words { answer result ≡ row_of path.now }
    ensures reads_back { IfOk result (λ ws. read_path ws ≡ Some path.now) }
{
    if !path_fits(path) {
        return Err(Layer::Machine.declines(Refusal::BadPath, 0));
    }
    let mut words = [0; 5];
    words[0] = path.len() as u64;
    pack(path, &mut words[1..]).unwrap();
    Ok(words)
}

// The path that a row's words hold. `row` is the place that a refusal names.
pub fn read_row(words: &[u64], row: u64) -> Result<Name, Fault>
    ensures { RowRead words.now row result }
{
    let bad = Layer::Log.declines(Refusal::BadRow, row);
    if words.len() != 5 || words[0] > 32 {
        return Err(bad);
    }
    let name: Name = Front::unpacked(&words[1..], words[0] as usize);
    let Ok(again) = row_words(name.as_slice()) else {
        return Err(bad);
    };
    if words != again.as_slice() {
        return Err(bad);
    }
    Ok(name)
}
