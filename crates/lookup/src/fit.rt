// The tests by which records are looked up.
ghost use Rattle.std.specs.Prelude.{◌≡◌, Bool, ◌&&◌};
ghost use Rattle.calendar.specs.Calendar.{year_before};
ghost use Rattle.lookup.specs.Tests.{pick, asked, in_season, available};

use crate::record::{TellsCustomer, TellsEndDay, TellsUse};
use calendar::Season;

// A test of the records of one kind.
pub trait Fit<R> {
    // whether a record passes
    ghost fits: { Self → R → Bool };

    fn fit(&self, candidate: &R) -> bool
        ensures { result ≡ fits self.now candidate.now };
}

// Whose records are looked at: the customer's own, or anyone's, the customer's included.
#[derive(Clone, Copy, PartialEq, Eq, Debug)]
pub enum Whose {
    Customer,
    Anyone,
}

impl Whose {
    // The first of two numbers for the customer's own records, the second for anyone's.
    pub fn pick(self, own: u8, anyone: u8) -> u8
        ensures answer { result ≡ pick self own anyone }
    {
        match self {
            Whose::Customer => own,
            Whose::Anyone => anyone,
        }
    }

    // The test of the records that are looked at for a customer.
    pub fn of(self, customer: u32) -> OfCustomer
        ensures whose { result.whose ≡ self }
        ensures customer { result.customer ≡ customer }
    {
        OfCustomer {
            whose: self,
            customer,
        }
    }
}

// Passes the records of a customer, or of anyone.
#[derive(Clone, Copy)]
pub struct OfCustomer {
    pub whose: Whose,
    pub customer: u32,
}

impl<R: TellsCustomer> Fit<R> for OfCustomer {
    ghost fits = { λ f x. asked f.whose (R.TellsCustomer.billed x) f.customer };

    fn fit(&self, candidate: &R) -> bool {
        self.whose == Whose::Anyone || candidate.customer() == self.customer
    }
}

// Passes the records in the same month of the year as a day, one year earlier.
#[derive(Clone, Copy)]
pub struct YearBefore {
    pub end_day: u32,
}

impl<R: TellsEndDay> Fit<R> for YearBefore {
    ghost fits = { λ f x. year_before (R.TellsEndDay.ends x) f.end_day };

    fn fit(&self, candidate: &R) -> bool {
        calendar::is_year_before(candidate.end_day(), self.end_day)
    }
}

// Passes the records of a season, of any year.
#[derive(Clone, Copy)]
pub struct InSeason {
    pub season: Season,
}

impl<R: TellsEndDay> Fit<R> for InSeason {
    ghost fits = { λ f x. in_season f.season (R.TellsEndDay.ends x) };

    fn fit(&self, candidate: &R) -> bool {
        calendar::season_of(candidate.end_day()) == Some(self.season)
    }
}

// The most usage days, and the first kWh too many, of a record that an estimate may be made from.
pub const MOST_USAGE_DAYS: u16 = 109;

pub const KWH_TOO_MANY: u32 = 100_000_000;

// Passes the records that an estimate may be made from.
#[derive(Clone, Copy)]
pub struct Available;

impl<R: TellsUse> Fit<R> for Available {
    ghost fits = { λ _ x. available (R.TellsUse.used x) (R.TellsUse.metered x) };

    fn fit(&self, candidate: &R) -> bool {
        let days = candidate.usage_days();
        (1..=MOST_USAGE_DAYS).contains(&days) && candidate.kwh() < KWH_TOO_MANY
    }
}

// Passes the records that pass two tests.
#[derive(Clone, Copy)]
pub struct Both<F, G> {
    pub first: F,
    pub second: G,
}

impl<R, F: Fit<R>, G: Fit<R>> Fit<R> for Both<F, G> {
    ghost fits = { λ b x. F.Fit.fits b.first x && G.Fit.fits b.second x };

    fn fit(&self, candidate: &R) -> bool {
        self.first.fit(candidate) && self.second.fit(candidate)
    }
}
