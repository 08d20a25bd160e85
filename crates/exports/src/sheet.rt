// A sheet played, and its listing, for C.
ghost use Rattle.std.specs.Prelude.{◌≡◌};
ghost use Rattle.clerk.specs.Jobs.{sheet_listing, LawfulSheet};
ghost use Rattle.exports.specs.Sheets.{ListedFor};

use crate::answer::number_of;
use clerk::{Unlisted, list_sheet};
use measures::refusal;
use std::alloc::Global;

// Answered, negative, where there is no memory for the calls of a sheet.
pub const NO_MEMORY: u8 = 255;

// Plays a sheet and writes its listing, or the line of its refusal, to the front of the buffer. It answers how many bytes
// that is.
pub fn pekstuvna_list_sheet(heap: Global, sheet: &[u8], listing: &mut [u8]) -> i64
    ensures answer { ListedFor (sheet_listing sheet.now) listing.old listing.new result }
    ensures history { LawfulSheet sheet.now }
{
    let listed = list_sheet(heap, sheet, listing).map_err(|unlisted| match unlisted {
        Unlisted::Memory => NO_MEMORY,
        Unlisted::Buffer => refusal::LISTING,
    });
    number_of(listed.map(|count| count as u64))
}
