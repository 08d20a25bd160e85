// The calendar of 2000 to 2099: the month, the season and the weekends of a day.
#![tactic(auto)]

ghost use Rattle.std.specs.Prelude.{◌≡◌, Decides};
ghost use Rattle.calendar.specs.Calendar.{lengths_from, month_of, Placed, season_in, season_of, Seasonal, year_before, SameMonthNextYear, weekend};

// 31 December 2099. Days are counted from 1 January 2000, which is day 0.
pub const LAST_DAY: u32 = 36_524;

// How many days four years have, of which the first has a 29 February, and how many each of their months has.
const CYCLE: u32 = 1461;

const MONTH_LENGTHS: [u32; 48] = [
    31, 29, 31, 30, 31, 30, 31, 31, 30, 31, 30, 31, 31, 28, 31, 30, 31, 30, 31, 31, 30, 31, 30, 31,
    31, 28, 31, 30, 31, 30, 31, 31, 30, 31, 30, 31, 31, 28, 31, 30, 31, 30, 31, 31, 30, 31, 30, 31,
];

#[derive(Clone, Copy, PartialEq, Eq, Debug)]
pub enum Season {
    Summer,
    Winter,
}

// The table of the month lengths.
fn month_lengths() -> [u32; 48]
    ensures { result ≡ lengths_from 48 0 }
{
    MONTH_LENGTHS
}

// The month of a day, counted from January 2000 as 0; none past the last day.
pub fn month_of(day: u32) -> Option<u32>
    ensures answer { result ≡ month_of day }
    ensures within { Placed day result }
{
    if day > LAST_DAY {
        return None;
    }
    let lengths = month_lengths();
    let cycle = day / CYCLE;
    let mut left = day % CYCLE;
    for (i, length) in lengths.iter().enumerate() {
        if left < *length {
            return Some(cycle * 48 + i as u32);
        }
        left -= *length;
    }
    unreachable()
}

// The season of a month: summer is May through October.
fn season_in(month: u32) -> Season
    ensures { result ≡ season_in month }
{
    match month % 12 {
        4..=9 => Season::Summer,
        _ => Season::Winter,
    }
}

// The season of a day; none past the last day.
pub fn season_of(day: u32) -> Option<Season>
    ensures answer { result ≡ season_of day }
    ensures seasonal { Seasonal day result }
{
    Some(season_in(month_of(day)?))
}

// Whether a day lies in the same month of the year as a later day, one year earlier; never past the last day.
pub fn is_year_before(earlier: u32, later: u32) -> bool
    ensures answer { result ≡ year_before earlier later }
    ensures months { Decides result (SameMonthNextYear earlier later) }
{
    match (month_of(earlier), month_of(later)) {
        (Some(m), Some(n)) => m + 12 == n,
        _ => false,
    }
}

// Whether a day is a Saturday or a Sunday: day 0 was a Saturday, and no day past the last is either.
pub fn is_weekend(day: u32) -> bool
    ensures answer { result ≡ weekend day }
{
    day <= LAST_DAY && day % 7 < 2
}

#[cfg(test)]
mod tests {
    use super::*;

    #[test]
    fn months(rt: HostRuntime) {
        assert_eq!(rt; month_of(0), Some(0));
        assert_eq!(rt; month_of(30), Some(0));
        assert_eq!(rt; month_of(31), Some(1));
        assert_eq!(rt; month_of(59), Some(1), "29 February 2000");
        assert_eq!(rt; month_of(60), Some(2));
        assert_eq!(rt; month_of(365), Some(11), "31 December 2000");
        assert_eq!(rt; month_of(366), Some(12));
        assert_eq!(rt; month_of(36_524), Some(1_199), "31 December 2099");
        assert_eq!(rt; month_of(36_525), None);
    }

    #[test]
    fn seasons(rt: HostRuntime) {
        assert_eq!(rt; season_of(120), Some(Season::Winter), "30 April 2000");
        assert_eq!(rt; season_of(121), Some(Season::Summer));
        assert_eq!(rt; season_of(304), Some(Season::Summer), "31 October 2000");
        assert_eq!(rt; season_of(305), Some(Season::Winter));
        assert_eq!(rt; season_of(36_525), None);
    }

    #[test]
    fn years(rt: HostRuntime) {
        assert!(rt; !is_year_before(59, 396));
        assert!(rt;
            is_year_before(59, 397),
            "29 February 2000 and 1 February 2001"
        );
        assert!(rt; is_year_before(59, 424));
        assert!(rt; !is_year_before(59, 425));
        assert!(rt; !is_year_before(424, 59));
        assert!(rt; is_year_before(36_159, 36_524));
        assert!(rt; !is_year_before(36_159, 36_525), "past the last day");
    }

    #[test]
    fn weekends(rt: HostRuntime) {
        assert!(rt; is_weekend(0));
        assert!(rt; is_weekend(1));
        assert!(rt; !is_weekend(2));
        assert!(rt; !is_weekend(6));
        assert!(rt; is_weekend(7));
        assert!(rt; !is_weekend(36_526), "past the last day");
    }
}
