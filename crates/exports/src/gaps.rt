// The missing intervals of a month filled, for C.
ghost use Rattle.std.specs.Prelude.{◌≡◌, map, is_ok, if◌then◌else◌};
ghost use Rattle.intervals.specs.Intervals.{answer, filled};
ghost use Rattle.exports.specs.Answers.{answered};
ghost use Rattle.exports.specs.Gaps.{interval_of, metered_of, month_of, too_long};

use crate::answer::number_of;
use crate::copy::copy_from;
use intervals::fill::fill;
use intervals::interval::{Interval, Mark};
use intervals::month::{MOST_DAYS, Month};
use measures::refusal;

// The most intervals of a list: 96 for each day.
const MOST_INTERVALS: usize = MOST_DAYS * 96;

// One interval of a meter. Mark 0 is valid, 1 missing, and any other filled.
#[repr(C)]
#[derive(Clone, Copy)]
pub struct Metered {
    pub wh: u32,
    pub weight: u32,
    pub mark: u32,
}

// The slots of a day, the first day of a list of intervals, and the register total.
#[repr(C)]
#[derive(Clone, Copy)]
pub struct Span {
    pub slots: u32,
    pub first_day: u32,
    pub total: u32,
}

impl From<Metered> for Interval {
    ghost from_gives = { λ metered interval. interval ≡ interval_of metered };

    fn from(metered: Metered) -> Interval {
        Interval {
            wh: metered.wh,
            weight: metered.weight,
            mark: Mark::from(metered.mark),
        }
    }
}

impl From<Interval> for Metered {
    ghost from_gives = { λ interval metered. metered ≡ metered_of interval };

    fn from(interval: Interval) -> Metered {
        Metered {
            wh: interval.wh,
            weight: interval.weight,
            mark: u32::from(u8::from(interval.mark)),
        }
    }
}

// Fills the missing intervals of a month by its reference days, and answers how many.
pub fn pekstuvna_fill<'a>(
    month: &Span,
    weekday: &'a [u32],
    weekend: &'a [u32],
    holidays: &'a [u32],
    intervals: &mut [Metered],
) -> i64
    ensures answer { result ≡ answered (answer (month_of month.now weekday.entry weekend.entry holidays.entry) (map interval_of intervals.old)) }
    ensures after { intervals.new ≡ (if is_ok (answer (month_of month.now weekday.entry weekend.entry holidays.entry) (map interval_of intervals.old)) then map metered_of (filled (month_of month.now weekday.entry weekend.entry holidays.entry) (map interval_of intervals.old)) else intervals.old) }
{
    let month = Month {
        slots: month.slots,
        first_day: month.first_day,
        weekday,
        weekend,
        holidays,
        total: month.total,
    };
    number_of(fill_list(&month, intervals).map(u64::from))
}

// Fills a list by way of a copy; a list that is too long is not copied.
fn fill_list(month: &Month, intervals: &mut [Metered]) -> Result<u32, u8>
    ensures value { result ≡ answer month.now (map interval_of intervals.old) }
    ensures after { intervals.new ≡ (if is_ok result then map metered_of (filled month.now (map interval_of intervals.old)) else intervals.old) }
{
    let count = intervals.len();
    if count > MOST_INTERVALS {
        return Err(too_long(month));
    }
    let mut own = [Interval::BLANK; MOST_INTERVALS];
    let list = &mut own[..count];
    copy_from(intervals, list);
    let filled = fill(month, list)?;
    copy_from(list, intervals);
    Ok(filled)
}

// The refusal of a list with more intervals than 35 days have.
fn too_long(month: &Month) -> u8
    ensures { result ≡ too_long month.now.slots }
{
    match month.slots {
        24 | 96 => refusal::WHOLE_DAYS,
        _ => refusal::SLOTS,
    }
}
