// Bytes at the front of an array.
ghost use Rattle.std.specs.Prelude.{◌≡◌, ◌-◌, ◌*◌, ◌≤◌, ◌++◌, length, take, replicate};
ghost use Rattle.layout.specs.Packing.{unpacked};

use crate::packing::unpack;

// `count` bytes, and what fills up the array. It needs no heap, and is copied as a whole.
#[derive(Clone, Copy)]
pub struct Front<const N: usize> {
    pub count: usize,
    pub bytes: [u8; N],
    ghost few: { count ≤ N },
}

impl<const N: usize> Front<N> {
    // The first n bytes of packed words, and zeros after them.
    pub(crate) fn unpacked(words: &[u64], n: usize) -> Self
        requires room { n ≤ N }
        requires held { n ≤ 8 * length words.now }
        ensures count { result.count ≡ n }
        ensures bytes { result.bytes ≡ unpacked n words.now ++ replicate (N - n) 0 }
    {
        let mut bytes = [0; N];
        unpack(words, &mut bytes[..n]).unwrap();
        Front { count: n, bytes }
    }

    // The bytes alone.
    pub fn as_slice(&self) -> &[u8]
        ensures { result.now ≡ take self.now.count self.now.bytes }
    {
        &self.bytes[..self.count]
    }
}
