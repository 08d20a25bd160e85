// The clerk's whole job: a sheet comes in, its history is played on a fresh book, and a listing goes out.
#![tactic(auto)]

ghost use Rattle.std.specs.Prelude.{◌≡◌, ◌≤◌, true, length, take, IfOk};
ghost use Rattle.premise.specs.Files.{fits, in_use};
ghost use Rattle.listing.specs.Listing.{listing};
ghost use Rattle.listing.specs.Refused.{notice_line};
ghost use Rattle.clerk.specs.Jobs.{Answers, sheet_listing, history_listing, LawfulSheet};
ghost use Rattle.clerk.specs.declared.Unlisted.TheVariants.{Memory};

use judging::ByHalf;
use ladder::standard::{StandardMethod, standard_method};
use listing::list::{LEAST_BUFFER, list};
use listing::refused::list_refusal;
use measures::entry::Entry;
use premise::file::PremiseFile;
use premise::happening::Happening;
use premise::opening::{MOST_PLACES, Opening};
use premise::play::Call;
use sheets::notice::{Notice, Section};
use sheets::sheet::read_sheet;
use std::alloc::{AllocError, Global};

// Why there is no listing.
#[derive(Clone, Copy, PartialEq, Eq, Debug)]
pub enum Unlisted {
    // There is not enough memory.
    Memory,
    // The buffer has too few bytes.
    Buffer,
}

impl From<AllocError> for Unlisted {
    ghost from_gives = { λ _ r. r ≡ Memory };

    fn from(_e: AllocError) -> Unlisted {
        Unlisted::Memory
    }
}

// The line of a sheet that its opening stands on.
const OPENING_LINE: u32 = 2;

// Plays a sheet by the standard method and the judgement by half on a book of 240 places, and writes its listing, or the
// line of its refusal, to the front of the buffer. It answers how many bytes that is.
pub fn list_sheet(heap: Global, sheet: &[u8], buffer: &mut [u8]) -> Result<usize, Unlisted>
    ensures answer { Answers (sheet_listing sheet.now) buffer.old buffer.new result }
    ensures room { IfOk result (λ n. n ≤ 15624) }
    ensures history { LawfulSheet sheet.now }
{
    list_bytes(heap, sheet, buffer)
}

fn list_bytes(heap: Global, sheet: &[u8], buffer: &mut [u8]) -> Result<usize, Unlisted>
    ensures answer { Answers (sheet_listing sheet.now) buffer.old buffer.new result }
{
    if buffer.len() < LEAST_BUFFER {
        return Err(Unlisted::Buffer);
    }
    match read_sheet(heap, sheet) {
        Ok(read) => list_history(heap, read.opening, read.calls.as_slice(), buffer),
        Err(fault) => {
            let notice = fault.notice().ok_or(Unlisted::Memory)?;
            list_notice(notice, buffer)
        }
    }
}

// The line of a refusal.
fn list_notice(notice: Notice, buffer: &mut [u8]) -> Result<usize, Unlisted>
    ensures text { Answers (notice_line notice) buffer.old buffer.new result }
{
    list_refusal(notice, buffer).map_err(|_| Unlisted::Buffer)
}

// The listing of a history.
fn list_history(
    heap: Global,
    opening: Opening,
    calls: &[Call],
    buffer: &mut [u8],
) -> Result<usize, Unlisted>
    requires room { 16384 ≤ length buffer.old }
    requires few { length calls.now ≤ 240 }
    ensures text { Answers (history_listing opening calls.now) buffer.old buffer.new result }
{
    let mut book = [Entry::BLANK; MOST_PLACES];
    let opened = PremiseFile::open(standard_method(), ByHalf, &opening, &book);
    match opened {
        Ok(mut file) => {
            let happened = file.play(heap, &mut book, calls)?;
            list_played(&file, &book, happened.as_slice(), buffer)
        }
        Err(number) => {
            let notice = Notice {
                section: Section::Premise,
                line: OPENING_LINE,
                field: 0,
                number,
            };
            list_notice(notice, buffer)
        }
    }
}

// The listing of what happened on a file and of the entries in use.
fn list_played(
    file: &PremiseFile<StandardMethod, ByHalf>,
    book: &[Entry],
    happened: &[Happening],
    buffer: &mut [u8],
) -> Result<usize, Unlisted>
    requires own { fits file.now book.now ≡ true }
    requires places { length book.now ≤ 240 }
    requires few { length happened.now ≤ 240 }
    ensures text { Answers (listing happened.now (take (in_use file.now) book.now)) buffer.old buffer.new result }
{
    let entries = file.entries(book).unwrap();
    list(happened, entries, buffer).map_err(|_| Unlisted::Buffer)
}
