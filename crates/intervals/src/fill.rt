// The missing intervals of a month filled from what the valid ones leave of the register total.
ghost use Rattle.std.specs.Prelude.{◌≡◌, ◌≤◌, length, is_ok, IfOk, if◌then◌else◌, MatchResult, Ok, Err};
ghost use Rattle.intervals.specs.Intervals.{valid, missing, weighed_by, reference, missing_in, valid_wh, weights_in, weighed, filled, left_over, answer, FilledUp, Usable, checked};

use crate::checks::check;
use crate::interval::Interval;
use crate::month::Month;
use measures::refusal;
use sharing::share::share_out;

// A month and its intervals, once nothing in them was refused.
#[derive(Clone, Copy)]
struct Checked<'m, 'a> {
    month: Month<'m>,
    intervals: &'a [Interval],
    ghost usable: { Usable month (length intervals.now) },
}

impl Checked<'_, '_> {
    fn new<'m, 'a>(month: &Month<'m>, intervals: &'a [Interval]) -> Result<Checked<'m, 'a>, u8>
        ensures { MatchResult result (λ c. (c.month ≡ month.now) × (c.intervals.now ≡ intervals.now) × (checked month.now intervals.now ≡ Ok tt)) (λ e. checked month.now intervals.now ≡ Err e) }
    {
        check(month, intervals)?;
        Ok(Checked {
            month: *month,
            intervals,
        })
    }

    // How many intervals are missing.
    fn count_missing(&self) -> u32
        ensures { result ≡ missing_in self.now.intervals.now }
    {
        self.intervals.iter().filter(|x| x.is_missing()).count() as u32
    }

    // The Wh of the valid intervals.
    fn sum_valid(&self) -> u64
        ensures { result ≡ valid_wh self.now.intervals.now }
    {
        self.intervals.iter().map(|x| u64::from(if_valid(x))).sum()
    }

    // The references of the missing intervals together.
    fn sum_weights(&self) -> u64
        ensures { result ≡ weights_in self.now.month self.now.intervals.now }
    {
        let mut sum: u64 = 0;
        for (place, interval) in self.intervals.iter().enumerate() {
            if interval.is_missing() {
                sum += u64::from(self.month.reference(place));
            }
        }
        sum
    }
}

// Fills the missing intervals by the references, and answers how many; a refusal leaves every interval as it was.
pub fn fill(month: &Month, intervals: &mut [Interval]) -> Result<u32, u8>
    ensures answer { result ≡ answer month.now intervals.old }
    ensures after { intervals.new ≡ (if is_ok result then filled month.now intervals.old else intervals.old) }
    ensures promise { IfOk result (λ n. FilledUp month.now n intervals.old intervals.new) }
{
    let known = Checked::new(month, intervals)?;
    let missing = known.count_missing();
    let left = left_over(month.total, missing, known.sum_valid(), known.sum_weights())?;
    weigh(month, intervals);
    share_out(left, intervals).unwrap();
    Ok(missing)
}

// What the metered Wh leave of the total for the gaps to share by their weights.
fn left_over(total: u32, gaps: u32, metered: u64, weights: u64) -> Result<u32, u8>
    ensures { result ≡ left_over total gaps metered weights }
{
    if gaps == 0 {
        return Err(refusal::NONE_MISSING);
    }
    if metered > u64::from(total) {
        return Err(refusal::OVER_TOTAL);
    }
    let left = u64::from(total) - metered;
    if left > 0 && weights == 0 {
        return Err(refusal::NO_WEIGHT);
    }
    Ok(left as u32)
}

// The Wh of an interval if it is valid.
fn if_valid(interval: &Interval) -> u32
    ensures { result ≡ (if valid interval.now then interval.now.wh else 0) }
{
    if interval.is_valid() { interval.wh } else { 0 }
}

// Gives each missing interval its reference as weight.
fn weigh(month: &Month, intervals: &mut [Interval])
    requires { Usable month.now (length intervals.old) }
    ensures { intervals.new ≡ weighed month.now intervals.old }
{
    for (place, interval) in intervals.iter_mut().enumerate() {
        if interval.is_missing() {
            interval.weight = month.reference(place);
        }
    }
}

#[cfg(test)]
mod tests {
    use super::*;
    use crate::interval::Mark;
    use std::process::Abort;
    use std::test::Fail;

    const fn interval(wh: u32, weight: u32, mark: Mark) -> Interval {
        Interval { wh, weight, mark }
    }

    // A day of 5 Wh and of weight 7 in each slot, but for slots 3 and 7, which are missing.
    fn a_day() -> [Interval; 24] {
        let mut day = [interval(5, 7, Mark::Valid); 24];
        day[3] = interval(9, 8, Mark::Missing);
        day[7] = interval(9, 8, Mark::Missing);
        day
    }

    // Fills the day as a Monday, by a reference and a total.
    fn fills(rt: &impl Abort, total: u32, weekday: &[u32], number: u32, after: [Interval; 24]) {
        let monday = Month {
            slots: 24,
            first_day: 2,
            weekday,
            weekend: &[1; 24],
            holidays: &[],
            total,
        };
        let mut day = a_day();
        assert_eq!(rt; fill(&monday, &mut day), Ok(number));
        assert_eq!(rt; day, after);
    }

    #[test]
    fn a_monday(rt: HostRuntime) {
        let mut weekday = [10; 24];
        weekday[3] = 100;
        weekday[7] = 300;
        // The valid intervals come to 110, so 101 Wh are shared out by 100 and 300.
        let mut after = a_day();
        after[3] = interval(25, 100, Mark::Filled);
        after[7] = interval(76, 300, Mark::Filled);
        fills(&rt, 211, &weekday, 2, after);
    }

    #[test]
    fn nothing_left(rt: HostRuntime) {
        let mut after = a_day();
        after[3] = interval(0, 0, Mark::Filled);
        after[7] = interval(0, 0, Mark::Filled);
        fills(&rt, 110, &[0; 24], 2, after);
    }

    // Friday to Monday, which is day 9; 1,000 Wh are shared out.
    fn four_days(
        rt: &impl Abort,
        holidays: &[u32],
        wh: [u32; 4],
        last_weight: u32,
    ) -> Result<(), Fail> {
        let mut weekday = [1; 24];
        let mut weekend = [2; 24];
        weekday[5] = 15;
        weekend[2] = 102;
        weekend[23] = 123;
        weekday[0] = 10;
        weekend[0] = 100;
        let month = Month {
            slots: 24,
            first_day: 6,
            weekday: &weekday,
            weekend: &weekend,
            holidays,
            total: 1_092,
        };
        let mut days = [interval(1, 6, Mark::Valid); 96];
        let mut after = days;
        days[5].mark = Mark::Missing;
        days[26].mark = Mark::Missing;
        days[71].mark = Mark::Missing;
        days[72].mark = Mark::Missing;
        after[5] = interval(wh[0], 15, Mark::Filled);
        after[26] = interval(wh[1], 102, Mark::Filled);
        after[71] = interval(wh[2], 123, Mark::Filled);
        after[72] = interval(wh[3], last_weight, Mark::Filled);
        assert_eq!(rt; fill(&month, &mut days), Ok(4));
        assert_eq!(rt; days, after);
        Ok(())
    }

    #[test]
    fn over_a_weekend(rt: HostRuntime) -> Result<(), Fail> {
        four_days(&rt, &[], [60, 408, 492, 40], 10)?;
        // a holiday
        four_days(&rt, &[3, 9, 40_000], [44, 300, 361, 295], 100)
    }

    // A list that is refused stays as it was.
    fn refuses(
        rt: &impl Abort,
        month: &Month,
        list: &[Interval; 24],
        number: u8,
    ) -> Result<(), Fail> {
        let mut after = *list;
        assert_eq!(rt; fill(month, &mut after), Err(number));
        assert_eq!(rt; after, *list);
        Ok(())
    }

    // Every fault at once, taken away one after the other.
    #[test]
    fn in_order(rt: HostRuntime) -> Result<(), Fail> {
        let high = [1_000_001; 24];
        let zero = [0; 24];
        let some = [1_000_000; 24];
        let mut day = [interval(1_000_000, 3, Mark::Valid); 24];
        day[4] = interval(4_294_967_295, 4_294_967_295, Mark::Filled);
        let mut month = Month {
            slots: 48,
            first_day: 36_525,
            weekday: &zero,
            weekend: &high,
            holidays: &[7, 7],
            total: 1_000_000_001,
        };
        refuses(&rt, &month, &day, 21)?;
        month.slots = 24;
        refuses(&rt, &month, &day, 22)?;
        month.first_day = 36_524;
        refuses(&rt, &month, &day, 23)?;
        month.weekend = &some;
        refuses(&rt, &month, &day, 24)?;
        month.holidays = &[7, 8];
        // a total
        refuses(&rt, &month, &day, 25)?;
        month.total = 22_999_999;
        // a filled interval
        refuses(&rt, &month, &day, 25)?;
        day[4].mark = Mark::Valid;
        // a valid interval
        refuses(&rt, &month, &day, 25)?;
        day[4].wh = 1_000_000;
        refuses(&rt, &month, &day, 26)?;
        day[4] = interval(4_294_967_295, 4_294_967_295, Mark::Missing);
        refuses(&rt, &month, &day, 27)?;
        month.total = 23_000_001;
        refuses(&rt, &month, &day, 28)?;
        month.weekday = &some;
        let mut after = day;
        after[4] = interval(1, 1_000_000, Mark::Filled);
        assert_eq!(rt; fill(&month, &mut day), Ok(1));
        assert_eq!(rt; day, after);
        Ok(())
    }

    #[test]
    fn whole_days(rt: HostRuntime) -> Result<(), Fail> {
        let quarter = [1; 96];
        let hour = [1; 24];
        let month = Month {
            slots: 96,
            first_day: 0,
            weekday: &quarter,
            weekend: &quarter,
            holidays: &[],
            total: 0,
        };
        let day = a_day();
        // a part of a day
        refuses(&rt, &month, &day, 22)?;
        assert_eq!(rt; fill(&month, &mut []), Err(22), "no day");
        let hours = Month {
            slots: 24,
            weekday: &hour,
            weekend: &hour,
            ..month
        };
        let mut days = [interval(0, 0, Mark::Missing); 864];
        assert_eq!(rt; fill(&hours, &mut days), Err(22), "36 days");
        assert_eq!(rt; days[0], interval(0, 0, Mark::Missing));
        assert_eq!(rt; fill(&hours, &mut days[..840]), Ok(840), "35 days");
        assert_eq!(rt; days[839], interval(0, 1, Mark::Filled));
        Ok(())
    }

    #[test]
    fn references(rt: HostRuntime) -> Result<(), Fail> {
        let short = [1; 23];
        let right = [1; 24];
        let mut high = [1; 24];
        high[0] = 1_000_001;
        let mut month = Month {
            slots: 24,
            first_day: 2,
            weekday: &short,
            weekend: &right,
            holidays: &[],
            total: 200,
        };
        let day = a_day();
        refuses(&rt, &month, &day, 23)?;
        month.weekday = &high;
        refuses(&rt, &month, &day, 23)?;
        month.weekday = &right;
        month.weekend = &short;
        refuses(&rt, &month, &day, 23)
    }
}
