// The latest record of a book that passes a test, by its place in the book.
ghost use Rattle.std.specs.Prelude.{◌≡◌};
ghost use Rattle.lookup.specs.Tests.{a_year_back};
ghost use Rattle.lookup.specs.Places.{held};
ghost use Rattle.lookup.specs.Latest.{latest_place, latest, PlaceOrNone, LatestOrNone, newest_place, newest, NewestOrNone, year_back_place, year_back};

use crate::fit::{Both, Fit, OfCustomer, Whose, YearBefore};
use crate::place::record_at;
use crate::record::TellsCustomer;

// The place of the latest record that passes; none where none does.
pub fn latest_place<R, F: Fit<R>>(book: &[R], fit: &F) -> Option<usize>
    ensures answer { result ≡ latest_place (F.fits fit.now) book.now }
    ensures found { PlaceOrNone (F.fits fit.now) book.now result }
{
    for (place, record) in book.iter().enumerate().rev() {
        if fit.fit(record) {
            return Some(place);
        }
    }
    None
}

// The latest record that passes; none where none does.
pub fn latest<'a, R, F: Fit<R>>(book: &'a [R], fit: &F) -> Option<&'a R>
    ensures answer { held result ≡ latest (F.fits fit.now) book.now }
    ensures found { LatestOrNone (F.fits fit.now) book.now (held result) }
{
    record_at(book, latest_place(book, fit)?)
}

// The last place; none in an empty book.
pub fn newest_place<R>(book: &[R]) -> Option<usize>
    ensures answer { result ≡ newest_place book.now }
{
    book.len().checked_sub(1)
}

// The very last record; none in an empty book.
pub fn newest<R>(book: &[R]) -> Option<&R>
    ensures answer { held result ≡ newest book.now }
    ensures found { NewestOrNone book.now (held result) }
{
    book.last()
}

// The place of the latest record of a customer, or of anyone, in the same month of the year as a day, one year earlier.
pub fn year_back_place<R: TellsCustomer>(book: &[R], of: OfCustomer, end_day: u32) -> Option<usize>
    ensures answer { result ≡ year_back_place R.TellsCustomer.billed R.TellsEndDay.ends of.whose of.customer end_day book.now }
    ensures found { PlaceOrNone (a_year_back R.TellsCustomer.billed R.TellsEndDay.ends of.whose of.customer end_day) book.now result }
{
    latest_place(
        book,
        &Both {
            first: of,
            second: YearBefore { end_day },
        },
    )
}

// That record itself.
pub fn year_back<R: TellsCustomer>(book: &[R], of: OfCustomer, end_day: u32) -> Option<&R>
    ensures answer { held result ≡ year_back R.TellsCustomer.billed R.TellsEndDay.ends of.whose of.customer end_day book.now }
    ensures found { LatestOrNone (a_year_back R.TellsCustomer.billed R.TellsEndDay.ends of.whose of.customer end_day) book.now (held result) }
{
    record_at(book, year_back_place(book, of, end_day)?)
}

#[cfg(test)]
mod tests {
    use super::*;
    use crate::record::TellsEndDay;

    // A peak of a customer's demand, which tells no kWh.
    #[derive(Clone, Copy)]
    struct Peak {
        customer: u32,
        day: u32,
        kw: u32,
    }

    impl TellsEndDay for Peak {
        ghost ends = { λ p. p.day };

        fn end_day(&self) -> u32 {
            self.day
        }
    }

    impl TellsCustomer for Peak {
        ghost billed = { λ p. p.customer };

        fn customer(&self) -> u32 {
            self.customer
        }
    }

    const fn drawn(customer: u32, day: u32, kw: u32) -> Peak {
        Peak { customer, day, kw }
    }

    const fn peaks() -> [Peak; 4] {
        [
            drawn(1, 31, 5),
            drawn(1, 59, 6),
            drawn(2, 59, 7),
            drawn(1, 60, 8),
        ]
    }

    const fn kw_of(found: Option<&Peak>) -> Option<u32> {
        match found {
            Some(p) => Some(p.kw),
            None => None,
        }
    }

    #[test]
    fn latest_peaks(rt: HostRuntime) {
        let book = peaks();
        assert_eq!(rt; latest_place(&book, &YearBefore { end_day: 424 }), Some(2));
        assert_eq!(rt; kw_of(latest(&book, &YearBefore { end_day: 424 })), Some(7));
        assert_eq!(rt; kw_of(latest(&book, &YearBefore { end_day: 456 })), None);
        assert_eq!(rt; kw_of(newest(&book)), Some(8));
        assert_eq!(rt; kw_of(newest(&book[0..0])), None);
    }

    #[test]
    fn peaks_a_year_back(rt: HostRuntime) {
        let book = peaks();
        assert_eq!(rt; year_back_place(&book, Whose::Customer.of(1), 424), Some(1));
        assert_eq!(rt;
            kw_of(year_back(&book, Whose::Customer.of(1), 424)),
            Some(6)
        );
        assert_eq!(rt; kw_of(year_back(&book, Whose::Anyone.of(1), 424)), Some(7));
        assert_eq!(rt; kw_of(year_back(&book, Whose::Customer.of(3), 424)), None);
    }
}
