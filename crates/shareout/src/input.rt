// What stands on standard input: a line for the dial, and a line of usage days for each month.
ghost use Rattle.std.specs.Prelude.{◌≡◌, IfOk};
ghost use Rattle.shareout.specs.Months.{kwh_of};

use crate::months;
use crate::months::Month;
use desk::fault::Fault;
use desk::lines::head_and_lines;
use desk::numbers::numbers_of;
use fields::number::number_of;
use measures::refusal;
use sharing::share::{MOST_RECORDS, MOST_WEIGHT};
use std::alloc::Global;
use thiserror::Error;

// The most bytes that are looked at; the longest good input has fewer.
pub const MOST_BYTES: usize = 40_000;

#[derive(Drop)]
pub struct Job {
    pub digits: u32,
    pub from: u32,
    pub to: u32,
    pub months: Vec<Month>,
}

// What is wrong with a line of the input.
#[derive(Clone, Copy, PartialEq, Eq, Debug, Error)]
pub enum Wrong {
    #[error("the input has more than 40,000 bytes")]
    Long,
    #[error("expected digits, spaces and line ends alone")]
    NotText,
    #[error("expected the dial's digits, its first register and its last register, three numbers with one space between")]
    DialFields,
    #[error("expected the usage days of one month, a number alone")]
    MonthField,
    #[error("a dial has 4 to 8 digits (1)")]
    Digits,
    #[error("a register has no more digits than its dial (3)")]
    Register,
    #[error("a month has at most 1,000,000 usage days (29)")]
    UsageDays,
    #[error("there are at most 3,360 months (29)")]
    Months,
    #[error("the dial went on, and no month has a usage day (28)")]
    NoUsageDays,
}

// The job that the text asks for. The LF at its end may be left out.
pub fn read_job(heap: Global, text: &[u8]) -> Result<Job, Fault<Wrong>> {
    let (head, lines) = head_and_lines(text, MOST_BYTES, Wrong::Long)?;
    std::str::from_utf8(text).map_err(|e| Fault::Line(
        line_at(text, e.valid_up_to()),
        Wrong::NotText,
    ))?;
    let [digits, from, to] = numbers_of::<3>(head).ok_or(Fault::Line(1, Wrong::DialFields))?;
    let mut months = Vec::new(heap);
    for (place, line) in lines {
        let usage_days = number_of(line).ok_or(Fault::Line(place, Wrong::MonthField))?;
        if usage_days > MOST_WEIGHT {
            return Err(Fault::Line(place, Wrong::UsageDays));
        }
        if months.len() >= MOST_RECORDS {
            return Err(Fault::Line(place, Wrong::Months));
        }
        months.push(Month { usage_days, kwh: 0 })?;
    }
    Ok(Job {
        digits,
        from,
        to,
        months,
    })
}

// The line on which a byte of the text stands.
fn line_at(text: &[u8], at: usize) -> usize {
    let ends = text.iter().take(at).filter(|b| **b == b'\n').count();
    ends.saturating_add(1)
}

impl Job {
    // Shares the advance out over the months, and answers it.
    pub fn settle(&mut self) -> Result<u32, Fault<Wrong>>
        ensures { IfOk result (λ advance. kwh_of self.new.months.items ≡ advance) }
    {
        months::settle(self.digits, self.from, self.to, self.months.as_mut_slice()).map_err(
            |number| match number {
                refusal::DIGITS => Fault::Line(1, Wrong::Digits),
                refusal::REGISTER => Fault::Line(1, Wrong::Register),
                refusal::NO_WEIGHT => Fault::Line(2, Wrong::NoUsageDays),
                _ => Fault::Line(2, Wrong::UsageDays),
            },
        )
    }
}
