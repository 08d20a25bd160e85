// The lines of a listing, one for each record of a list.
ghost use Rattle.std.specs.Prelude.{◌≡◌, ℕ, ◌+◌, ◌*◌, ◌≤◌, List, length};
ghost use Rattle.listing.specs.Listing.{lines, refused_line, answer_line, entry_numbers, entry_line, fields};
ghost use Rattle.listing.specs.Put.{Wrote};

use crate::page::Page;
use measures::entry::Entry;
use premise::happening::Happening;

// A record that has a line.
pub(crate) trait Listed {
    ghost line: { Self → List ℕ };

    // the most bytes of a line
    ghost longest: { ℕ };

    fn put_line(&self, page: &mut Page)
        requires { page.old.end + longest ≤ length page.old.buffer.now }
        ensures text { Wrote (line self.now) page.old page.new }
        ensures few { page.new.end ≤ page.old.end + longest };
}

// Writes the lines of the records, one after the other.
pub(crate) fn put_lines<L: Listed>(page: &mut Page, records: &[L])
    requires { page.old.end + L.longest * length records.now ≤ length page.old.buffer.now }
    ensures text { Wrote (lines L.line records.now) page.old page.new }
    ensures few { page.new.end ≤ page.old.end + L.longest * length records.now }
{
    for record in records {
        record.put_line(page);
    }
}

// The letter of a call and what it answered, or N and the number of its refusal.
impl Listed for Happening {
    ghost line = { answer_line };

    ghost longest = { 21 };

    fn put_line(&self, page: &mut Page) {
        match self {
            Happening::Read(_, _, Ok((kind, kwh, corrected))) => {
                page.lettered(b'R', &[u32::from(*kind), *kwh, u32::from(*corrected)])
            }
            Happening::Miss(_, Ok((kind, rung, kwh))) => {
                page.lettered(b'M', &[u32::from(*kind), u32::from(*rung), *kwh])
            }
            Happening::Move(_, Ok(())) => page.lettered(b'C', &[]),
            Happening::Read(_, _, Err(number))
            | Happening::Miss(_, Err(number))
            | Happening::Move(_, Err(number)) => put_refused(page, *number),
        }
    }
}

// Writes the line of a refused call.
fn put_refused(page: &mut Page, number: u8)
    requires { page.old.end + 6 ≤ length page.old.buffer.now }
    ensures text { Wrote (refused_line number) page.old page.new }
    ensures few { page.new.end ≤ page.old.end + 6 }
{
    page.lettered(b'N', &[u32::from(number)]);
}

impl Listed for Entry {
    ghost line = { entry_line };

    ghost longest = { 44 };

    fn put_line(&self, page: &mut Page) {
        page.number(self.customer);
        page.fields(&numbers_of(*self));
    }
}

// What an entry holds beside the customer, in the order of its line.
fn numbers_of(e: Entry) -> [u32; 7]
    ensures value { result ≡ entry_numbers e }
    ensures few { length (fields result) ≤ 34 }
{
    [
        u32::from(e.end_day),
        u32::from(e.days),
        u32::from(e.usage_days),
        u32::from(u8::from(e.kind)),
        u32::from(e.rung),
        u32::from(e.initial),
        e.kwh,
    ]
}
