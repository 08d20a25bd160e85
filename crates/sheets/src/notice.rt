// What is told of a refused sheet.
ghost use Rattle.std.specs.Prelude.{◌≡◌};
ghost use Rattle.sheets.specs.Notices.{notice_of, section_notice};

use crate::fault::{LineFault, SectionFault, SheetFault};
use measures::refusal;

#[derive(Clone, Copy, PartialEq, Eq, Debug)]
pub enum Section {
    Premise,
    Calls,
    // The sheet as a whole.
    Sheet,
}

#[derive(Clone, Copy, PartialEq, Eq, Debug)]
pub struct Notice {
    pub section: Section,
    // From 1 over the whole sheet; 0 for the sheet as a whole.
    pub line: u32,
    // From 1, for a field that is no number or rate name; 0 for any other fault.
    pub field: u32,
    // The number of the refusal.
    pub number: u8,
}

impl SheetFault {
    // The section, line, field and number; none where there was no memory.
    pub fn notice(self) -> Option<Notice>
        ensures answer { result ≡ notice_of self }
    {
        match self {
            SheetFault::Premise(fault) => of_section(Section::Premise, fault),
            SheetFault::Calls(fault) => of_section(Section::Calls, fault),
            SheetFault::Long | SheetFault::Rest => Some(Notice {
                section: Section::Sheet,
                line: 0,
                field: 0,
                number: refusal::SHEET,
            }),
        }
    }
}

fn of_section(section: Section, fault: SectionFault) -> Option<Notice>
    ensures { result ≡ section_notice section fault }
{
    let (line, field, number) = match fault {
        SectionFault::Count(line) | SectionFault::Missing(line) => (line, 0, refusal::COUNT),
        SectionFault::Line(LineFault::Form(line)) => (line, 0, refusal::LINE),
        SectionFault::Line(LineFault::Field(at)) => (at.line, at.field, refusal::FIELD),
        SectionFault::Memory => return None,
    };
    Some(Notice {
        section,
        line,
        field,
        number,
    })
}
