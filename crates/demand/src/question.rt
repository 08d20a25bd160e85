// What is asked about demand, and what is answered.
ghost use Rattle.std.specs.Prelude.{◌≡◌};
ghost use Rattle.demand.specs.Questions.{good_figures};

use calendar::LAST_DAY;
use lookup::fit::{KWH_TOO_MANY, MOST_USAGE_DAYS};
use measures::rate::Rate;

// A period that has no reading of its demand.
#[derive(Clone, Copy, PartialEq, Eq, Debug)]
pub struct DemandQuestion {
    pub customer: u32,
    // The last day of the period.
    pub end_day: u32,
    pub kwh: u32,
    pub usage_days: u32,
    pub rate: Rate,
    // Whether the period is the customer's first at the premise.
    pub initial: bool,
}

impl DemandQuestion {
    // Whether the figures are within their bounds.
    pub fn has_good_figures(&self) -> bool
        ensures answer { result ≡ good_figures self.now }
    {
        self.kwh < KWH_TOO_MANY
            && self.end_day <= LAST_DAY
            && self.usage_days >= 1
            && self.usage_days <= u32::from(MOST_USAGE_DAYS)
    }
}

// So many tenths of a kW, by the answer of that number. The figure has 64 bits, since a make takes any question.
#[derive(Clone, Copy, PartialEq, Eq, Debug)]
pub struct DemandAnswer {
    pub number: u8,
    pub tenths: u64,
}
