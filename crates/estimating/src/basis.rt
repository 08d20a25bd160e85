// What is asked of an energy method, and what it answers.
ghost use Rattle.std.specs.Prelude.{◌≡◌};
ghost use Rattle.estimating.specs.Estimates.{estimate_or_none, Estimated};

use measures::rate::Rate;

// A period that has no read: whose it is, from the day last closed to its end, and the premise's rate.
#[derive(Clone, Copy, PartialEq, Eq, Debug)]
pub struct Question {
    pub customer: u32,
    pub start_day: u16,
    pub end_day: u16,
    pub rate: Rate,
}

// The most kWh, and the most days, of a basis.
pub const MOST_KWH: u32 = 1_000_000_000;

pub const MOST_DAYS: u16 = 999;

// What an estimate is made from: so many kWh in so many days, found on a rung.
#[derive(Clone, Copy, PartialEq, Eq, Debug)]
pub struct Basis {
    pub rung: u8,
    pub kwh: u32,
    pub days: u16,
}

impl Basis {
    // The kWh that the basis gives for so many usage days, rounded down; none from a basis of no days.
    pub fn estimate(&self, usage_days: u16) -> Option<u64>
        ensures answer { result ≡ estimate_or_none self.now usage_days }
        ensures rounded { Estimated self.now usage_days result }
    {
        if self.days == 0 {
            return None;
        }
        Some(u64::from(self.kwh) * u64::from(usage_days) / u64::from(self.days))
    }
}

#[cfg(test)]
mod tests {
    use super::*;

    const BASIS: Basis = Basis {
        rung: 1,
        kwh: 350,
        days: 30,
    };

    #[test]
    fn estimates(rt: HostRuntime) {
        assert_eq!(rt; BASIS.estimate(30), Some(350));
        assert_eq!(rt;
            BASIS.estimate(31),
            Some(361),
            "361 and two thirds, rounded down"
        );
        assert_eq!(rt; BASIS.estimate(0), Some(0));
    }

    #[test]
    fn no_days(rt: HostRuntime) {
        let none = Basis {
            rung: 1,
            kwh: 350,
            days: 0,
        };
        assert_eq!(rt; none.estimate(31), None);
    }
}
