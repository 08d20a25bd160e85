// What stands on standard input: four lines for the month, and a line for each of its intervals.
ghost use Rattle.std.specs.Prelude.{◌≡◌};

use desk::fault::Fault;
use desk::lines::head_and_lines;
use desk::numbers::{list_of, numbers_of};
use intervals::interval::{Interval, Mark};
use intervals::month::Month;
use std::alloc::Global;
use thiserror::Error;

// The most bytes that are looked at; 35 days of 96 slots have fewer, with every number at its longest and a thousand holidays.
pub const MOST_BYTES: usize = 150_000;

#[derive(Drop)]
pub struct Job {
    pub month: OwnedMonth,
    pub intervals: Vec<Interval>,
}

// A month with the lists that it lends.
#[derive(Drop)]
pub struct OwnedMonth {
    slots: u32,
    first_day: u32,
    weekday: Vec<u32>,
    weekend: Vec<u32>,
    holidays: Vec<u32>,
    total: u32,
}

impl OwnedMonth {
    // The month, with its lists lent.
    pub(crate) fn as_month(&self) -> Month<'_>
        ensures numbers { (result.slots ≡ self.now.slots) × (result.first_day ≡ self.now.first_day) × (result.total ≡ self.now.total) }
        ensures days { (result.weekday.now ≡ self.now.weekday.items) × (result.weekend.now ≡ self.now.weekend.items) }
        ensures holidays { result.holidays.now ≡ self.now.holidays.items }
    {
        Month {
            slots: self.slots,
            first_day: self.first_day,
            weekday: self.weekday.as_slice(),
            weekend: self.weekend.as_slice(),
            holidays: self.holidays.as_slice(),
            total: self.total,
        }
    }
}

// What is wrong with a line of the input.
#[derive(Clone, Copy, PartialEq, Eq, Debug, Error)]
pub enum Wrong {
    #[error("the input has more than 150,000 bytes")]
    Long,
    #[error("expected the slots a day, the first day and the register total, with one space between")]
    Month,
    #[error("expected the Wh of each slot of a reference day, with one space between")]
    Reference,
    #[error("expected the holidays, with one space between, or an empty line")]
    Holidays,
    #[error("expected Wh, weight and mark of one interval, with one space between")]
    Interval,
}

// The job that the bytes ask for. The LF at their end may be left out.
pub fn read_job(heap: Global, bytes: &[u8]) -> Result<Job, Fault<Wrong>> {
    let (head, mut lines) = head_and_lines(bytes, MOST_BYTES, Wrong::Long)?;
    let [slots, first_day, total] = numbers_of::<3>(head).ok_or(Fault::Line(1, Wrong::Month))?;
    let month = OwnedMonth {
        slots,
        first_day,
        weekday: numbers_on(heap, lines.next(), Fault::Line(2, Wrong::Reference))?,
        weekend: numbers_on(heap, lines.next(), Fault::Line(3, Wrong::Reference))?,
        holidays: numbers_on(heap, lines.next(), Fault::Line(4, Wrong::Holidays))?,
        total,
    };
    let intervals = lines
        .map(|(place, line)| interval_of(line).ok_or(Fault::Line(place, Wrong::Interval)))
        .try_collect(heap)?;
    Ok(Job { month, intervals })
}

// The numbers of a line; the fault where it has something else or is not there.
fn numbers_on(
    heap: Global,
    line: Option<(usize, &[u8])>,
    fault: Fault<Wrong>,
) -> Result<Vec<u32>, Fault<Wrong>> {
    let (_, line) = line.ok_or(fault)?;
    list_of(heap, line)?.ok_or(fault)
}

fn interval_of(line: &[u8]) -> Option<Interval> {
    let [wh, weight, mark] = numbers_of::<3>(line)?;
    Some(Interval {
        wh,
        weight,
        mark: Mark::from(mark),
    })
}
