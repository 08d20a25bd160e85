// The refusals of what was handed in, before anything is counted.
ghost use Rattle.std.specs.Prelude.{◌≡◌, ◌<◌, nat_le};
ghost use Rattle.std.specs.List.{list_all};
ghost use Rattle.intervals.specs.Intervals.{whole_days, fits_day, rising_from, readable, checked};

use crate::interval::{Interval, MOST_WH};
use crate::month::{MOST_DAYS, Month};
use calendar::LAST_DAY;
use measures::refusal;
use sharing::share::MOST_TOTAL;

// Refuses a month or intervals that cannot be worked with.
pub(crate) fn check(month: &Month, intervals: &[Interval]) -> Result<(), u8>
    ensures { result ≡ checked month.now intervals.now }
{
    if month.slots != 24 && month.slots != 96 {
        return Err(refusal::SLOTS);
    }
    if !are_whole_days(month.slots as usize, month.first_day, intervals.len()) {
        return Err(refusal::WHOLE_DAYS);
    }
    if !fits_day(month.slots, month.weekday) || !fits_day(month.slots, month.weekend) {
        return Err(refusal::REFERENCE);
    }
    if !are_rising(month.holidays) {
        return Err(refusal::HOLIDAYS);
    }
    if !are_readable(intervals) || month.total > MOST_TOTAL {
        return Err(refusal::READINGS);
    }
    Ok(())
}

// Whether so many intervals are whole days of the calendar, and not too many.
fn are_whole_days(slots: usize, first_day: u32, count: usize) -> bool
    requires { 0 < slots }
    ensures { result ≡ whole_days slots first_day count }
{
    let days = count / slots;
    if count % slots != 0 || days < 1 || days > MOST_DAYS {
        return false;
    }
    first_day as usize + days - 1 <= LAST_DAY as usize
}

// Whether a reference day has a value for each slot, none of them too high.
fn fits_day(slots: u32, values: &[u32]) -> bool
    ensures { result ≡ fits_day slots values.now }
{
    values.len() == slots as usize && are_within(values)
}

// Whether no value is too high.
fn are_within(values: &[u32]) -> bool
    ensures { result ≡ list_all (λ v. nat_le v 1000000) values.now }
{
    values.iter().all(|wh| is_within(*wh))
}

fn is_within(wh: u32) -> bool
    ensures { result ≡ nat_le wh 1000000 }
{
    wh <= MOST_WH
}

// Whether each day comes after the one before it.
fn are_rising(days: &[u32]) -> bool
    ensures { result ≡ rising_from 0 days.now }
{
    days.is_sorted_by(|day, next| *day < *next)
}

// Whether each interval is valid, and its Wh are not too high, or missing.
fn are_readable(intervals: &[Interval]) -> bool
    ensures { result ≡ list_all readable intervals.now }
{
    intervals.iter().all(is_readable)
}

fn is_readable(interval: &Interval) -> bool
    ensures { result ≡ readable interval.now }
{
    interval.is_missing() || interval.is_valid() && is_within(interval.wh)
}
