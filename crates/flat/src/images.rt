// The image: 16 records, one after the other.
ghost use Rattle.std.specs.Prelude.{◌≡◌, ◌+◌, ◌<◌, ◌≤◌, IfSome, Some, length};
ghost use Rattle.device.specs.Files.{limit_fits};
ghost use Rattle.flat.specs.Images.{Shape, bad, image_written, labelled_at, record_at, shape_fits, slot, start, vacancy};
ghost use Rattle.flat.specs.Searches.{first};

use crate::records::{HEAD, PATH, Record, SIZE, SIZE_END};
use std::ops::Range;

// How many records there are.
pub const RECORDS: usize = 16;

// Whether a file's size may be limited so.
pub fn limit_fits(limit: usize) -> bool
    ensures { result ≡ limit_fits limit }
{
    (512..=2_097_152).contains(&limit) && limit % 512 == 0
}

// Whether the limit may be so, and the bytes are as many as it asks for.
pub fn shape_fits(bytes: &[u8], limit: usize) -> bool
    ensures { result ≡ shape_fits bytes.now limit }
{
    limit_fits(limit) && bytes.len() == RECORDS * (HEAD + limit)
}

// The bytes of 16 records, and the limit of a file's size.
#[derive(Drop)]
pub struct Image {
    pub limit: usize,
    pub bytes: Vec<u8>,
    ghost shape: { Shape bytes.items limit },
}

impl Image {
    // Where record r stands. That r is below 16 is asked here and of the calls below: a type for it is no plainer, since a shelf's handles
    // are numbers.
    fn span(&self, r: usize) -> Range<usize>
        requires { r < 16 }
        ensures start { result.start ≡ start self.now.limit r }
        ensures end { result.end ≡ start self.now.limit r + 64 + self.now.limit }
        ensures within { result.end ≤ length self.now.bytes.items }
    {
        let at = r * (HEAD + self.limit);
        at..at + HEAD + self.limit
    }

    // Record r.
    #[tactic(auto, using(crate::proofs::Edits::slices))]
    pub fn record(&self, r: usize) -> Record<'_>
        requires { r < 16 }
        ensures is { result.bytes.now ≡ record_at self.now.bytes.items self.now.limit r }
        ensures long { length result.bytes.now ≡ 64 + self.now.limit }
    {
        let span = self.span(r);
        Record {
            bytes: &self.bytes[span],
        }
    }

    // The first of n records that is that of a path.
    pub fn find(&self, path: &[u8], n: usize) -> Option<usize>
        requires { n ≤ 16 }
        ensures first { result ≡ slot self.now.bytes.items self.now.limit path.now n }
        ensures low { IfSome result (λ r. r < n) }
    {
        (0..n).find(|&r| self.record(r).holds(path))
    }

    // The lowest free record.
    pub fn vacant(&self) -> Option<usize>
        ensures first { result ≡ vacancy self.now.bytes.items self.now.limit }
        ensures low { IfSome result (λ r. r < 16) }
    {
        (0..RECORDS).find(|&r| !self.record(r).is_taken())
    }

    // The first record that is not as it should be.
    pub fn first_bad(&self) -> Option<usize>
        ensures { result ≡ first (bad self.now.bytes.items self.now.limit) 16 }
    {
        (0..RECORDS).find(|&r| self.is_bad(r))
    }

    // Whether record r is not made as it should be, or has the path of a lower one.
    fn is_bad(&self, r: usize) -> bool
        requires { r < 16 }
        ensures { result ≡ bad self.now.bytes.items self.now.limit r }
    {
        let record = self.record(r);
        !record.fits() || self.find(record.path(), r).is_some()
    }

    // Gives a free record a path.
    pub fn label(&mut self, r: usize, path: &[u8])
        requires low { r < 16 }
        requires short { length path.now ≤ 32 }
        ensures bytes { self.new.bytes.items ≡ labelled_at self.old.bytes.items self.old.limit path.now (Some r) }
        ensures limit { self.new.limit ≡ self.old.limit }
    {
        let span = self.span(r);
        let record = &mut self.bytes[span];
        record[0] = path.len() as u8;
        record[PATH..PATH + path.len()].copy_from_slice(path);
    }

    // Lays bytes into the content of a record, and raises its size to their end. No bytes change nothing.
    pub fn store(&mut self, r: usize, at: usize, bytes: &[u8])
        requires low { r < 16 }
        requires within { at + length bytes.now ≤ self.old.limit }
        ensures bytes { self.new.bytes.items ≡ image_written self.old.bytes.items self.old.limit r at bytes.now }
        ensures limit { self.new.limit ≡ self.old.limit }
    {
        if bytes.is_empty() {
            return;
        }
        let size = self.record(r).size().max(at + bytes.len());
        let span = self.span(r);
        let record = &mut self.bytes[span];
        record[HEAD + at..HEAD + at + bytes.len()].copy_from_slice(bytes);
        record[SIZE..SIZE_END].copy_from_slice(&(size as u32).to_le_bytes());
    }
}
