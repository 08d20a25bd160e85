// What a list of intervals is filled by, and the reference that a place of the list takes.
ghost use Rattle.std.specs.Prelude.{◌≡◌};
ghost use Rattle.intervals.specs.Intervals.{holiday, day_off, reference, Usable};

use calendar::is_weekend;

// The most days of a list.
pub const MOST_DAYS: usize = 35;

// Interval i of the list is slot i % slots of day first_day + i / slots.
#[derive(Clone, Copy)]
pub struct Month<'a> {
    pub slots: u32,
    pub first_day: u32,
    // The Wh of a reference day, one for each slot.
    pub weekday: &'a [u32],
    pub weekend: &'a [u32],
    pub holidays: &'a [u32],
    // The register total.
    pub total: u32,
}

impl Month<'_> {
    // Whether a day is one of the holidays.
    fn is_holiday(&self, day: u32) -> bool
        ensures { result ≡ holiday day self.now.holidays.now }
    {
        self.holidays.contains(&day)
    }

    // Whether a day uses the weekend reference.
    fn is_day_off(&self, day: u32) -> bool
        ensures { result ≡ day_off self.now day }
    {
        is_weekend(day) || self.is_holiday(day)
    }

    // The reference at a place of the list.
    pub(crate) fn reference(&self, place: usize) -> u32
        requires { Usable self.now place }
        ensures { result ≡ reference self.now place }
    {
        let slots = self.slots as usize;
        let day = self.first_day + (place / slots) as u32;
        let slot = place % slots;
        if self.is_day_off(day) {
            self.weekend[slot]
        } else {
            self.weekday[slot]
        }
    }
}
