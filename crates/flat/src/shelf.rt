// What a flat shelf is, how it is made of an image and becomes one again, and what it does.
ghost use Rattle.std.specs.Prelude.{◌≡◌, ◌+◌, ◌≤◌, true, false, IfErr, OnErr, OnOk, is_some, slice_index_or};
ghost use Rattle.device.specs.Numbers.{Says};
ghost use Rattle.device.specs.Paths.{path_fits};
ghost use Rattle.flat.specs.Images.{unfit_at};
ghost use Rattle.flat.specs.Shelves.{Live};

use crate::images::{Image, RECORDS, limit_fits, shape_fits};
use crate::records::HEAD;
use device::{Failure, Fault, Layer, Refusal, Shelf, path_fits, run_fits};
use std::alloc::Global;

// A shelf in an image that it owns, and which records have been opened since the last restart.
#[derive(Drop)]
pub struct Flat {
    image: Image,
    opened: [bool; RECORDS], // not in the image's bytes: those are the shelf's format, and outlive the handles
    ghost fit: { is_some (unfit_at image.bytes.items image.limit) ≡ false },
    ghost live: { Live opened image.bytes.items image.limit },
}

// An image that is no shelf's, handed back with the reason.
#[derive(Drop)]
pub struct Unfit {
    pub fault: Fault,
    pub image: Vec<u8>,
}

// A file as a listing shows it.
#[derive(Clone, Copy)]
pub struct Listed<'a> {
    pub path: &'a [u8],
    pub size: usize,
}

impl Flat {
    ghost use Rattle.device.specs.ShelfCalls.{OutOfReach, restarted};
    ghost use Rattle.flat.specs.Makings.{MadeOver, MadeEmpty, ListedAt};
    ghost use Rattle.flat.specs.Meanings.{flat_of, image_of};
    ghost use Rattle.flat.specs.Shelves.{flat, none_open};

    // The shelf that an image holds. One that is unfit is handed back.
    #[tactic(auto, using(crate::proofs::Emptying::live_none), unfolding(crate::specs::Images::unfit_at))]
    pub fn over(image: Vec<u8>, limit: usize) -> Result<Flat, Unfit>
        ensures { MadeOver image.items limit result }
    {
        if !shape_fits(&image, limit) {
            return Err(Unfit {
                fault: unfit_image(RECORDS),
                image,
            });
        }
        let image = Image {
            limit,
            bytes: image,
        };
        if let Some(r) = image.first_bad() {
            return Err(Unfit {
                fault: unfit_image(r),
                image: image.bytes,
            });
        }
        Ok(Flat {
            image,
            opened: [false; RECORDS],
        })
    }

    // A shelf with no file, in an image of its own.
    #[tactic(auto, using(crate::proofs::Emptying::zeros_whole, crate::proofs::Emptying::zeros_mean, crate::proofs::Emptying::live_none))]
    pub fn empty(heap: Global, limit: usize) -> Result<Flat, Failure>
        ensures { MadeEmpty limit result }
    {
        if !limit_fits(limit) {
            return Err(Failure::Declined(unfit_image(RECORDS)));
        }
        let bytes = Vec::from_elem(heap, 0, RECORDS * (HEAD + limit))?;
        Ok(Flat {
            image: Image { limit, bytes },
            opened: [false; RECORDS],
        })
    }

    // The image. It is fit, and as a shelf it is this one after a restart.
    pub fn into_image(self) -> Vec<u8>
        ensures bytes { result.items ≡ image_of self }
        ensures fit { is_some (unfit_at result.items self.image.limit) ≡ false }
        ensures again { flat result.items self.image.limit none_open ≡ restarted (flat_of self) }
    {
        self.image.bytes
    }

    // The file of record r, if it has one.
    #[tactic(auto, using(crate::proofs::Calls::listed_file))]
    pub fn listed(&self, r: usize) -> Option<Listed<'_>>
        ensures { ListedAt self.now r result }
    {
        if r >= RECORDS {
            return None;
        }
        let record = self.image.record(r);
        if !record.is_taken() {
            return None;
        }
        Some(Listed {
            path: record.path(),
            size: record.size(),
        })
    }

    // Declines a handle that stands for no path.
    fn check_open(&self, h: usize) -> Result<(), Fault>
        ensures known { OnOk result (slice_index_or self.now.opened h false ≡ true) }
        ensures unknown { OnErr result (slice_index_or self.now.opened h false ≡ false) }
        ensures declined { IfErr result (λ e. Says e 20 3 h) }
    {
        if !self.opened.get(h).copied().unwrap_or(false) {
            return Err(Layer::Shelf.declines(Refusal::OutOfRange, h as u64));
        }
        Ok(())
    }

    // Declines such a handle, and `count` bytes from a position on that pass the limit.
    fn check_reach(&self, h: usize, at: usize, count: usize) -> Result<(), Fault>
        ensures known { OnOk result (slice_index_or self.now.opened h false ≡ true) }
        ensures within { OnOk result (at + count ≤ self.now.image.limit) }
        ensures out { OnErr result (OutOfReach (flat_of self.now) h (at + count)) }
        ensures declined { IfErr result (λ e. Says e 20 3 h) }
    {
        self.check_open(h)?;
        if !run_fits(at, count, self.image.limit) {
            return Err(Layer::Shelf.declines(Refusal::OutOfRange, h as u64));
        }
        Ok(())
    }
}

// What is said of an image that is unfit at a record, or at 16 for its limit or length.
fn unfit_image(place: usize) -> Fault
    ensures { Says result 19 3 place }
{
    Layer::Shelf.declines(Refusal::UnfitImage, place as u64)
}

// Declines a path that no file can have.
fn check_path(path: &[u8]) -> Result<(), Fault>
    ensures good { OnOk result (path_fits path.now ≡ true) }
    ensures bad { OnErr result (path_fits path.now ≡ false) }
    ensures declined { IfErr result (λ e. Says e 4 3 16) }
{
    if !path_fits(path) {
        return Err(Layer::Shelf.declines(Refusal::BadPath, RECORDS as u64));
    }
    Ok(())
}

impl Shelf for Flat {
    ghost use Rattle.device.specs.ShelfCalls.{HasAnswered, Sized, Opened, HasRead, HasWritten, Synced, Restarted};
    ghost use Rattle.flat.specs.Images.{ImageOpened, ImageWritten};
    ghost use Rattle.flat.specs.Meanings.{flat_of, image_of};
    ghost use Rattle.flat.specs.Soundness.{flat_sound};

    ghost meaning = { flat_of };

    ghost sound = { λ f. flat_sound (image_of f) f.image.limit f.opened f.fit f.live };

    fn limit(&self) -> usize {
        self.image.limit
    }

    fn has(&mut self, path: &[u8]) -> Result<bool, Fault>
        ensures has_answered { HasAnswered (flat_of self.old) path.now (flat_of self.new) result }
        ensures image { image_of self.new ≡ image_of self.old }
    {
        check_path(path)?;
        Ok(self.image.find(path, RECORDS).is_some())
    }

    #[tactic(auto, using(crate::proofs::Calls::measured))]
    fn size(&mut self, h: usize) -> Result<usize, Fault>
        ensures sized { Sized (flat_of self.old) h (flat_of self.new) result }
        ensures image { image_of self.new ≡ image_of self.old }
    {
        self.check_open(h)?;
        Ok(self.image.record(h).size())
    }

    #[tactic(auto, using(crate::proofs::Calls::shelf_full, crate::proofs::Calls::new_slot))]
    fn open(&mut self, path: &[u8]) -> Result<usize, Fault>
        ensures opened { Opened (flat_of self.old) path.now (flat_of self.new) result }
        ensures image { ImageOpened (image_of self.old) self.old.image.limit path.now (image_of self.new) result }
    {
        check_path(path)?;
        if let Some(r) = self.image.find(path, RECORDS) {
            self.opened[r] = true;
            return Ok(r);
        }
        let Some(r) = self.image.vacant() else {
            return Err(Layer::Shelf.declines(Refusal::ShelfFull, RECORDS as u64));
        };
        self.image.label(r, path);
        self.opened[r] = true;
        Ok(r)
    }

    #[tactic(auto, using(crate::proofs::Calls::fetched))]
    fn read(&mut self, h: usize, at: usize, buffer: &mut [u8]) -> Result<(), Fault>
        ensures has_read { HasRead (flat_of self.old) h at buffer.old buffer.new (flat_of self.new) result }
        ensures image { image_of self.new ≡ image_of self.old }
    {
        self.check_reach(h, at, buffer.len())?;
        self.image.record(h).fetch(at, buffer);
        Ok(())
    }

    #[tactic(auto, using(crate::proofs::Calls::written_whole, crate::proofs::Calls::written_taken, crate::proofs::Calls::written_put))]
    fn write(&mut self, h: usize, at: usize, bytes: &[u8]) -> Result<(), Fault>
        ensures has_written { HasWritten (flat_of self.old) h at bytes.now (flat_of self.new) result }
        ensures image { ImageWritten (image_of self.old) self.old.image.limit h at bytes.now (image_of self.new) result }
    {
        self.check_reach(h, at, bytes.len())?;
        self.image.store(h, at, bytes);
        Ok(())
    }

    fn sync(&mut self) -> Result<(), Fault>
        ensures synced { Synced (flat_of self.old) (flat_of self.new) result }
        ensures image { image_of self.new ≡ image_of self.old }
    {
        Ok(())
    }

    fn restart(&mut self)
        ensures restarted { Restarted (flat_of self.old) (flat_of self.new) }
        ensures image { image_of self.new ≡ image_of self.old }
    {
        self.opened = [false; RECORDS];
    }
}
