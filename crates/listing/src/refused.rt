// The one line that stands in place of a listing where a sheet is refused.
ghost use Rattle.std.specs.Prelude.{◌≡◌, ◌≤◌, [], ◌∷◌, length, is_ok, IfOk, if◌then◌else◌};
ghost use Rattle.listing.specs.Listing.{in_front};
ghost use Rattle.listing.specs.Refused.{section_letter, notice_line, sheet_refused};

use crate::list::LEAST_BUFFER;
use crate::page::Page;
use measures::refusal;
use sheets::notice::{Notice, Section};

// The letter of the section that a refusal is in.
fn letter_of(section: Section) -> u8
    ensures { (result ∷ []) ≡ section_letter section }
{
    match section {
        Section::Premise => b'P',
        Section::Calls => b'C',
        Section::Sheet => b'S',
    }
}

// Writes the line of a refused sheet to the front of a buffer, and answers how many bytes that is.
pub fn list_refusal(notice: Notice, buffer: &mut [u8]) -> Result<usize, u8>
    ensures answer { result ≡ sheet_refused notice (length buffer.old) }
    ensures after { buffer.new ≡ (if is_ok result then in_front (notice_line notice) buffer.old else buffer.old) }
    ensures room { IfOk result (λ n. n ≤ 30) }
{
    if buffer.len() < LEAST_BUFFER {
        return Err(refusal::LISTING);
    }
    let mut page = Page { buffer, end: 0 };
    page.text(b"X ");
    let fields = [notice.line, notice.field, u32::from(notice.number)];
    page.lettered(letter_of(notice.section), &fields);
    Ok(page.end)
}

#[cfg(test)]
mod tests {
    use super::*;
    use std::process::Abort;

    fn writes(rt: &impl Abort, section: Section, line: u32, field: u32, number: u8, text: &[u8]) {
        let mut buffer = [170; 16_384];
        let notice = Notice {
            section,
            line,
            field,
            number,
        };
        assert_eq!(rt; list_refusal(notice, &mut buffer), Ok(text.len()));
        assert!(rt; buffer.starts_with(text));
        assert_eq!(rt; buffer[text.len()], 170);
    }

    #[test]
    fn refused_sheets(rt: HostRuntime) {
        writes(&rt, Section::Premise, 1, 0, 8, b"X P 1 0 8\n");
        writes(&rt, Section::Calls, 12, 2, 6, b"X C 12 2 6\n");
        writes(&rt, Section::Sheet, 0, 0, 9, b"X S 0 0 9\n");
        let mut short = [170; 16_383];
        let notice = Notice {
            section: Section::Sheet,
            line: 0,
            field: 0,
            number: 9,
        };
        assert_eq!(rt; list_refusal(notice, &mut short), Err(10));
        assert!(rt; short == [170; 16_383]);
    }
}
