// The entries of a demand book: the highest demand of one billing period each.
ghost use Rattle.std.specs.Prelude.{◌≡◌};
ghost use Rattle.lookup.specs.Places.{held};
ghost use Rattle.demand.specs.Readings.{mark_number, mark_of, counts_as_estimated};

use lookup::record::{TellsCustomer, TellsEndDay};

// How the demand of an entry was come by.
#[derive(Clone, Copy, PartialEq, Eq, Debug)]
pub enum Mark {
    ReadAndReset,
    NotReset,
    Estimated,
}

// The number that stands for a mark.
impl From<Mark> for u32 {
    ghost from_gives = { λ mark r. (r ≡ mark_number mark) × (mark_of r ≡ mark) };

    fn from(mark: Mark) -> u32 {
        match mark {
            Mark::ReadAndReset => 1,
            Mark::NotReset => 2,
            Mark::Estimated => 0,
        }
    }
}

// The mark that a number stands for: 1, 2, and any other for an estimate.
impl From<u32> for Mark {
    ghost from_gives = { λ number r. r ≡ mark_of number };

    fn from(number: u32) -> Mark {
        match number {
            1 => Mark::ReadAndReset,
            2 => Mark::NotReset,
            _ => Mark::Estimated,
        }
    }
}

// The highest demand of one billing period, in tenths of a kW.
#[derive(Clone, Copy, PartialEq, Eq, Debug)]
pub struct DemandEntry {
    pub customer: u32,
    // The last day of the period.
    pub end_day: u32,
    pub tenths: u32,
    pub mark: Mark,
    // Whether the period is a customer's first at the premise.
    pub initial: bool,
}

impl DemandEntry {
    // What stands at a place of a book that is not in use.
    pub const BLANK: DemandEntry = DemandEntry {
        customer: 0,
        end_day: 0,
        tenths: 0,
        mark: Mark::Estimated,
        initial: false,
    };

    // Whether the reading counts as estimated: its mark says so, or the entry directly before it in the book was read and
    // not reset, and the reading is not greater than that one's.
    pub fn counts_as_estimated(&self, before: Option<&DemandEntry>) -> bool
        ensures answer { result ≡ counts_as_estimated (held before.entry) self.now }
    {
        self.mark == Mark::Estimated
            || before.is_some_and(|b| b.mark == Mark::NotReset && self.tenths <= b.tenths)
    }
}

impl TellsEndDay for DemandEntry {
    ghost ends = { λ e. e.end_day };

    fn end_day(&self) -> u32 {
        self.end_day
    }
}

impl TellsCustomer for DemandEntry {
    ghost billed = { λ e. e.customer };

    fn customer(&self) -> u32 {
        self.customer
    }
}

#[cfg(test)]
mod tests {
    use super::*;

    const fn reading(tenths: u32, mark: Mark) -> DemandEntry {
        DemandEntry {
            customer: 1,
            end_day: 59,
            tenths,
            mark,
            initial: false,
        }
    }

    #[test]
    fn marks(rt: HostRuntime) {
        assert_eq!(rt; Mark::from(1), Mark::ReadAndReset);
        assert_eq!(rt; Mark::from(2), Mark::NotReset);
        assert_eq!(rt; Mark::from(0), Mark::Estimated);
        assert_eq!(rt; Mark::from(3), Mark::Estimated);
        assert_eq!(rt; u32::from(Mark::NotReset), 2);
    }

    // Whether a reading counts as estimated, directly after one of 50 tenths.
    fn after(before: Mark, tenths: u32, mark: Mark) -> bool {
        let before = reading(50, before);
        reading(tenths, mark).counts_as_estimated(Some(&before))
    }

    #[test]
    fn estimated_readings(rt: HostRuntime) {
        assert!(rt; after(Mark::NotReset, 49, Mark::ReadAndReset));
        assert!(rt; after(Mark::NotReset, 50, Mark::ReadAndReset));
        assert!(rt; after(Mark::NotReset, 50, Mark::NotReset));
        assert!(rt; !after(Mark::NotReset, 51, Mark::NotReset));
        assert!(rt; !after(Mark::ReadAndReset, 49, Mark::NotReset));
        assert!(rt; !after(Mark::Estimated, 49, Mark::ReadAndReset));
        assert!(rt; after(Mark::ReadAndReset, 51, Mark::Estimated));
    }
}
