// The lines of a sheet, with their fields as parts of it.
ghost use Rattle.std.specs.Prelude.{◌≡◌, Some, None};
ghost use Rattle.sheets.specs.Lines.{line_fields, one_of, two_of, call_of, call_line_held, premise_of, premise_line_held, count_of, field_held, fields_held};

use crate::fault::{FieldFault, LineFault, SectionFault};
use fields::cut::cut;
use fields::number::number_of;
use fields::rate::rate_of;
use premise::opening::Opening;
use premise::play::Call;

const SPACE: u8 = b' ';

// A line of a sheet, without its end.
#[derive(Clone, Copy)]
pub(crate) struct Line<'a> {
    pub(crate) text: &'a [u8],
    // From 1 over the whole sheet.
    pub(crate) number: u32,
}

// A line of a call, told as its letter's case.
#[derive(Clone, Copy)]
pub(crate) enum CallLine<'a> {
    // Its day and its register.
    Read(&'a [u8], &'a [u8]),
    // Its day.
    Miss(&'a [u8]),
    // Its customer.
    Move(&'a [u8]),
}

// The line of a premise.
#[derive(Clone, Copy)]
pub(crate) struct PremiseLine<'a> {
    rate: &'a [u8],
    digits: &'a [u8],
    day: &'a [u8],
    register: &'a [u8],
    customer: &'a [u8],
}

// The field that stands alone.
fn one_field<'a>(bytes: &'a [u8]) -> Option<&'a [u8]>
    ensures { field_held result ≡ one_of (line_fields bytes.now) }
{
    cut(bytes, SPACE).is_none().then_some(bytes)
}

fn two_fields<'a>(bytes: &'a [u8]) -> Option<(&'a [u8], &'a [u8])>
    ensures { fields_held result ≡ two_of (line_fields bytes.now) }
{
    let (first, rest) = cut(bytes, SPACE)?;
    let second = one_field(rest)?;
    Some((first, second))
}

fn call_line<'a>(line: &'a [u8]) -> Option<CallLine<'a>>
    ensures { call_line_held result ≡ call_of (line_fields line.now) }
{
    let (letter, rest) = cut(line, SPACE)?;
    match letter {
        [b'R'] => {
            let (day, register) = two_fields(rest)?;
            Some(CallLine::Read(day, register))
        }
        [b'M'] => Some(CallLine::Miss(one_field(rest)?)),
        [b'C'] => Some(CallLine::Move(one_field(rest)?)),
        _ => None,
    }
}

fn premise_line<'a>(line: &'a [u8]) -> Option<PremiseLine<'a>>
    ensures { premise_line_held result ≡ premise_of (line_fields line.now) }
{
    let (rate, rest) = cut(line, SPACE)?;
    let (digits, rest) = cut(rest, SPACE)?;
    let (day, rest) = cut(rest, SPACE)?;
    let (register, customer) = two_fields(rest)?;
    Some(PremiseLine {
        rate,
        digits,
        day,
        register,
        customer,
    })
}

// The count that stands before a name.
fn count_on(line: &[u8], name: &[u8]) -> Option<u32>
    ensures { result ≡ count_of name.now (line_fields line.now) }
{
    let (count, word) = two_fields(line)?;
    if word != name {
        return None;
    }
    number_of(count)
}

impl Line<'_> {
    ghost use Rattle.sheets.specs.Lines.{fault_at, call_at, opening_at};
    ghost use Rattle.sheets.specs.Sections.{count_at};

    // The fault of one of its fields.
    fn fault(self, field: u32) -> FieldFault
        ensures { result ≡ fault_at self.entry.number field }
    {
        FieldFault {
            line: self.number,
            field,
        }
    }

    // The call that the line tells.
    pub(crate) fn call(self) -> Result<Call, LineFault>
        ensures { result ≡ call_at self.entry.number (line_fields self.entry.text.now) }
    {
        match call_line(self.text).ok_or(LineFault::Form(self.number))? {
            CallLine::Read(day, register) => Ok(Call::Read {
                day: number_of(day).ok_or(self.fault(2))?,
                register: number_of(register).ok_or(self.fault(3))?,
            }),
            CallLine::Miss(day) => Ok(Call::Miss {
                day: number_of(day).ok_or(self.fault(2))?,
            }),
            CallLine::Move(customer) => Ok(Call::Move {
                customer: number_of(customer).ok_or(self.fault(2))?,
            }),
        }
    }

    // The opening that the line tells.
    pub(crate) fn opening(self) -> Result<Opening, LineFault>
        ensures { result ≡ opening_at self.entry.number (line_fields self.entry.text.now) }
    {
        let fields = premise_line(self.text).ok_or(LineFault::Form(self.number))?;
        Ok(Opening {
            rate: rate_of(fields.rate).ok_or(self.fault(1))?,
            digits: number_of(fields.digits).ok_or(self.fault(2))?,
            day: number_of(fields.day).ok_or(self.fault(3))?,
            register: number_of(fields.register).ok_or(self.fault(4))?,
            customer: number_of(fields.customer).ok_or(self.fault(5))?,
        })
    }

    // The count that the line tells, which is a section's count line.
    pub(crate) fn count(self, name: &[u8], low: u32, high: u32) -> Result<u32, SectionFault>
        ensures { result ≡ count_at self.entry.number name.now low high self.entry.text.now }
    {
        count_on(self.text, name)
            .filter(|count| (low..=high).contains(count))
            .ok_or(SectionFault::Count(self.number))
    }
}
