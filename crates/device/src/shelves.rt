// What a shelf is: a store of at most 16 files that may lose its power.
ghost use Rattle.std.specs.Prelude.{◌≡◌};
ghost use Rattle.device.specs.ContentLaws.{WritesKeepTheseLaws};
ghost use Rattle.device.specs.Files.{Files, Sound};
ghost use Rattle.device.specs.ShelfCalls.{HasAnswered, Sized, Opened, HasRead, HasWritten, Synced, Restarted};

use crate::Fault;

pub trait Shelf {
    // Lit or dark, the limit of a file's size, the path of each handle, and the file of each path.
    ghost meaning: { Self → Files };

    // Each found content is one that the sure size and the loose positions allow; there are at most 16 files, with fit paths; and handles
    // stand for files.
    ghost sound: { (s : Self) → Sound (meaning s) };

    // The largest size of a file, which never changes.
    fn limit(&self) -> usize
        ensures { result ≡ (meaning self.now).limit };

    // Whether the path has a file.
    fn has(&mut self, path: &[u8]) -> Result<bool, Fault>
        ensures { HasAnswered (meaning self.old) path.now (meaning self.new) result };

    // The current size of the handle's file.
    fn size(&mut self, h: usize) -> Result<usize, Fault>
        ensures { Sized (meaning self.old) h (meaning self.new) result };

    // The handle of the path, which gets an empty file if it has none.
    fn open(&mut self, path: &[u8]) -> Result<usize, Fault>
        ensures { Opened (meaning self.old) path.now (meaning self.new) result };

    // Fills the buffer with the current bytes from a position on; past the size they are zeros.
    fn read(&mut self, h: usize, at: usize, buffer: &mut [u8]) -> Result<(), Fault>
        ensures { HasRead (meaning self.old) h at buffer.old buffer.new (meaning self.new) result };

    // Replaces the current bytes from a position on.
    fn write(&mut self, h: usize, at: usize, bytes: &[u8]) -> Result<(), Fault>
        ensures { HasWritten (meaning self.old) h at bytes.now (meaning self.new) result };

    // Makes all current bytes and sizes sure.
    fn sync(&mut self) -> Result<(), Fault>
        ensures { Synced (meaning self.old) (meaning self.new) result };

    // Makes the found files current and sure, voids all handles, and leaves the shelf lit.
    fn restart(&mut self)
        ensures { Restarted (meaning self.old) (meaning self.new) };
}

// What a write makes of a content: its size, its bytes, what stays. It answers nothing; that it is proved is the point.
pub fn writes_keep_these_laws()
    ensures { WritesKeepTheseLaws }
{}
