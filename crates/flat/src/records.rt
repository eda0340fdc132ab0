// One record of the image: a file's path, its size and its content.
ghost use Rattle.std.specs.Prelude.{◌≡◌, ◌+◌, ◌<◌, ◌≤◌, ◌^◌, length};
ghost use Rattle.device.specs.Contents.{part};
ghost use Rattle.flat.specs.Records.{all_zero, blank, holds, path_length, path_of, record_fits, size_of, taken, well_made};

use device::path_fits;

// Where the path begins in a record, after its length.
pub const PATH: usize = 1;

// Where the size begins, after the path and its fill, and where it ends.
pub const SIZE: usize = 33;

pub const SIZE_END: usize = 37;

// What stands before the content of a record.
pub const HEAD: usize = 64;

// A record, long enough for its head and for a path of any length that its first byte can tell.
#[derive(Clone, Copy)]
pub struct Record<'a> {
    pub bytes: &'a [u8],
    ghost long: { 576 ≤ length bytes.now },
}

impl<'a> Record<'a> {
    // Whether the record has a file.
    pub fn is_taken(&self) -> bool
        ensures { result ≡ taken self.now.bytes.now }
    {
        self.bytes[0] != 0
    }

    // The path of the file.
    #[tactic(auto, using(crate::proofs::Slices::path_slice))]
    pub fn path(&self) -> &'a [u8]
        ensures value { result.now ≡ path_of self.now.bytes.now }
        ensures long { length result.now ≡ path_length self.now.bytes.now }
    {
        let n = self.bytes[0] as usize;
        &self.bytes[PATH..PATH + n]
    }

    // The size of the file.
    pub fn size(&self) -> usize
        ensures value { result ≡ size_of self.now.bytes.now }
        ensures word { result < 2 ^ 32 }
    {
        let size = self.bytes[SIZE..].first_chunk().unwrap();
        u32::from_le_bytes(*size) as usize
    }

    // Fills a buffer from the content.
    #[tactic(auto, using(crate::proofs::Slices::slice_part))]
    pub fn fetch(&self, at: usize, buffer: &mut [u8])
        requires { 64 + at + length buffer.old ≤ length self.now.bytes.now }
        ensures { buffer.new ≡ part self.now.bytes.now (64 + at) (length buffer.old) }
    {
        let start = HEAD + at;
        let end = start + buffer.len();
        buffer.copy_from_slice(&self.bytes[start..end]);
    }

    // Whether the record is that of a path.
    pub fn holds(&self, path: &[u8]) -> bool
        ensures { result ≡ holds path.now self.now.bytes.now }
    {
        self.is_taken() && self.path() == path
    }

    // Whether the record is made as it should be.
    #[tactic(auto, unfolding(crate::specs::Records::record_fits))]
    pub fn fits(&self) -> bool
        ensures { result ≡ record_fits self.now.bytes.now }
    {
        if self.is_taken() {
            self.is_well_made()
        } else {
            self.is_blank(0, self.bytes.len())
        }
    }

    // Whether a record with a path is made as it should be.
    fn is_well_made(&self) -> bool
        ensures { result ≡ well_made self.now.bytes.now }
    {
        let path = self.path();
        let end = HEAD + self.size();
        path_fits(path)
            && self.is_blank(PATH + path.len(), SIZE)
            && end <= self.bytes.len()
            && self.is_blank(SIZE_END, HEAD)
            && self.is_blank(end, self.bytes.len())
    }

    // Whether the bytes from a position to below an end are zeros.
    #[tactic(auto, using(crate::proofs::Slices::blank_slice))]
    fn is_blank(&self, at: usize, end: usize) -> bool
        requires order { at ≤ end }
        requires within { end ≤ length self.now.bytes.now }
        ensures { result ≡ blank self.now.bytes.now at end }
    {
        are_zeros(&self.bytes[at..end])
    }
}

// Whether all bytes are zeros.
fn are_zeros(bytes: &[u8]) -> bool
    ensures { result ≡ all_zero bytes.now }
{
    bytes.iter().all(|b| *b == 0)
}
