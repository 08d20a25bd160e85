// What the six latest records of a book that pass a test come to.
ghost use Rattle.std.specs.Prelude.{◌≡◌};
ghost use Rattle.lookup.specs.Tests.{in_the_season};
ghost use Rattle.lookup.specs.Six.{six_latest, SixLatest};

use crate::fit::{Available, Both, Fit, InSeason, OfCustomer, Whose};
use crate::record::{TellsCustomer, TellsUse};
use calendar::Season;

// How many records are wanted.
pub const SIX: u8 = 6;

// How many records were found, at most six, with their usage days and their kWh.
#[derive(Clone, Copy, PartialEq, Eq, Debug)]
pub struct Six {
    pub count: u8,
    pub usage_days: u32,
    pub kwh: u64,
}

// The six latest records that pass, or all that do where there are fewer.
pub fn six_latest<R: TellsUse, F: Fit<R>>(book: &[R], fit: &F) -> Six
    ensures answer { result ≡ six_latest (F.fits fit.now) R.used R.metered book.now }
    ensures found { SixLatest (F.fits fit.now) R.used R.metered book.now result }
{
    let mut six = Six {
        count: 0,
        usage_days: 0,
        kwh: 0,
    };
    for last in book.iter().rev() {
        if fit.fit(last) {
            six.count += 1;
            six.usage_days += u32::from(last.usage_days());
            six.kwh += u64::from(last.kwh());
            if six.count == SIX {
                return six;
            }
        }
    }
    six
}

// The six latest available records of a customer, or of anyone, in a season of any year.
pub fn seasonal_sum<R: TellsCustomer + TellsUse>(book: &[R], of: OfCustomer, season: Season) -> Six
    ensures answer { result ≡ six_latest (in_the_season R.TellsCustomer.billed R.TellsEndDay.ends R.used R.metered of.whose of.customer season) R.used R.metered book.now }
    ensures found { SixLatest (in_the_season R.TellsCustomer.billed R.TellsEndDay.ends R.used R.metered of.whose of.customer season) R.used R.metered book.now result }
{
    six_latest(
        book,
        &Both {
            first: of,
            second: Both {
                first: InSeason { season },
                second: Available,
            },
        },
    )
}

#[cfg(test)]
mod tests {
    use super::*;
    use crate::record::TellsEndDay;

    // The on-peak kWh of a customer's period, and the days that they were used in.
    #[derive(Clone, Copy)]
    struct OnPeak {
        customer: u32,
        end_day: u32,
        days: u16,
        kwh: u32,
    }

    impl TellsEndDay for OnPeak {
        ghost ends = { λ p. p.end_day };

        fn end_day(&self) -> u32 {
            self.end_day
        }
    }

    impl TellsCustomer for OnPeak {
        ghost billed = { λ p. p.customer };

        fn customer(&self) -> u32 {
            self.customer
        }
    }

    impl TellsUse for OnPeak {
        ghost used = { λ p. p.days };

        ghost metered = { λ p. p.kwh };

        fn usage_days(&self) -> u16 {
            self.days
        }

        fn kwh(&self) -> u32 {
            self.kwh
        }
    }

    const fn used(customer: u32, end_day: u32, days: u16, kwh: u32) -> OnPeak {
        OnPeak {
            customer,
            end_day,
            days,
            kwh,
        }
    }

    const fn found(count: u8, usage_days: u32, kwh: u64) -> Six {
        Six {
            count,
            usage_days,
            kwh,
        }
    }

    // 0 is 1 January 2000 and 200 a day of July; 366 is 1 January 2001.
    #[test]
    fn six_of_a_winter(rt: HostRuntime) {
        let mut book = [used(1, 0, 21, 99_999_999); 8];
        book[1] = used(1, 200, 21, 50);
        book[2] = used(2, 0, 21, 50);
        book[7] = used(1, 366, 22, 1);
        let own = Whose::Customer;
        assert_eq!(rt;
            seasonal_sum(&book, own.of(1), Season::Winter),
            found(6, 127, 499_999_996)
        );
        assert_eq!(rt;
            seasonal_sum(&book[1..8], own.of(1), Season::Winter),
            found(5, 106, 399_999_997)
        );
        assert_eq!(rt;
            seasonal_sum(&book, own.of(2), Season::Winter),
            found(1, 21, 50)
        );
        assert_eq!(rt;
            seasonal_sum(&book, own.of(3), Season::Winter),
            found(0, 0, 0)
        );
        assert_eq!(rt;
            seasonal_sum(&book, Whose::Anyone.of(3), Season::Winter),
            found(6, 127, 400_000_047)
        );
    }
}
