// A group: the pieces of one write, for the file of one row of names.
ghost use Rattle.std.specs.Prelude.{◌≡◌, IfSome, IfOk, Some, vec_items};
ghost use Rattle.std.specs.Option.{option_map};
ghost use Rattle.layout.specs.Entries.{group_of};
ghost use Rattle.layout.specs.Groups.{group_words, read_group, in_a_row};

use crate::entries::{MOST_GROUP, Piece, piece_words};
use crate::marks::Mark;
use std::alloc::{AllocError, Global};

// The words of a group, entry after entry, its marks included; none where the group is unfit.
pub fn group_words(
    heap: Global,
    row: u64,
    pieces: &[Piece<'_>],
) -> Result<Option<Vec<u64>>, AllocError>
    ensures words { IfOk result (λ o. option_map vec_items o ≡ group_words (group_of row pieces.now)) }
    ensures reads_back { IfOk result (λ o. IfSome o (λ v. read_group (in_a_row v.items) ≡ Some (group_of row pieces.now))) }
{
    if pieces.is_empty() || pieces.len() > MOST_GROUP {
        return Ok(None);
    }
    let k = pieces.len();
    let mut words = Vec::new(heap);
    for (d, piece) in pieces.iter().enumerate() {
        let Some(entry) = piece_words(row, Mark::of(k, d), piece) else {
            return Ok(None);
        };
        words.extend_from_slice(&entry)?;
    }
    Ok(Some(words))
}
