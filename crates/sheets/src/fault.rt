// What is wrong with a sheet, from a field up to the whole.
ghost use Rattle.std.specs.Prelude.{◌≡◌};
ghost use Rattle.sheets.specs.declared.fault.LineFault.TheVariants.{Field};
ghost use Rattle.sheets.specs.declared.fault.SectionFault.TheVariants.{Line, Memory};

use std::alloc::AllocError;

// A field that is no number, or no rate's name. Lines and fields count from 1.
#[derive(Clone, Copy, PartialEq, Eq, Debug)]
pub struct FieldFault {
    pub line: u32,
    pub field: u32,
}

#[derive(Clone, Copy, PartialEq, Eq, Debug)]
pub enum LineFault {
    // An unknown letter, or a wrong number of fields, on this line.
    Form(u32),
    Field(FieldFault),
}

#[derive(Clone, Copy, PartialEq, Eq, Debug)]
pub enum SectionFault {
    // The count line, which is this line, is wrong.
    Count(u32),
    // This line is missing.
    Missing(u32),
    Line(LineFault),
    // There is not enough memory for the calls.
    Memory,
}

#[derive(Clone, Copy, PartialEq, Eq, Debug)]
pub enum SheetFault {
    // The sheet has too many bytes.
    Long,
    Premise(SectionFault),
    Calls(SectionFault),
    // Bytes are left after the last section.
    Rest,
}

impl From<FieldFault> for LineFault {
    ghost from_gives = { λ e r. r ≡ Field e };

    fn from(e: FieldFault) -> LineFault {
        LineFault::Field(e)
    }
}

impl From<LineFault> for SectionFault {
    ghost from_gives = { λ e r. r ≡ Line e };

    fn from(e: LineFault) -> SectionFault {
        SectionFault::Line(e)
    }
}

impl From<AllocError> for SectionFault {
    ghost from_gives = { λ _ r. r ≡ Memory };

    fn from(_e: AllocError) -> SectionFault {
        SectionFault::Memory
    }
}
