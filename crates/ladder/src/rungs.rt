// The rungs of the ladder, each a method of its own.
ghost use Rattle.std.specs.Prelude.{◌≡◌, ◌≤◌};
ghost use Rattle.ladder.specs.Rungs.{basis_of, last_entry, OnLastEntry, from_year_back, OnYearBack, seasonal, OnSeasonal, class_figure};
ghost use Rattle.ladder.specs.Meanings.{last_entry_lawful, year_back_lawful, seasonal_lawful};
ghost use Rattle.std.proofs.Common.{rules};

use estimating::basis::{Basis, Question};
use estimating::method::{EnergyMethod, Method};
use lookup::fit::{Available, Fit, Whose};
use lookup::six::SIX;
use lookup::{latest, six};
use measures::entry::Entry;

// The fewest and the most usage days of six entries of a season.
pub const FEWEST_DAYS: u32 = 165;

pub const MOST_DAYS: u32 = 195;

// The book's very last entry, if it is available and not initial: rung 1, or 4 for anyone's.
#[derive(Clone, Copy)]
pub struct LastEntry {
    pub whose: Whose,
}

// The latest entry in the same month one year earlier, if it is available: rung 2, or 5 for anyone's.
#[derive(Clone, Copy)]
pub struct YearBack {
    pub whose: Whose,
}

// The six latest available entries of the season, if they have 165 to 195 usage days: rung 3, or 6 for anyone's.
#[derive(Clone, Copy)]
pub struct Seasonal {
    pub whose: Whose,
}

// The class figure of the premise's rate: rung 7.
#[derive(Clone, Copy)]
pub struct ClassFigure;

// The basis that an entry gives on a rung.
fn basis_of(rung: u8, found: &Entry) -> Basis
    ensures { result ≡ basis_of rung found.now }
{
    Basis {
        rung,
        kwh: found.kwh,
        days: u16::from(found.usage_days),
    }
}

impl LastEntry {
    fn basis(&self, book: &[Entry], question: &Question) -> Option<Basis>
        ensures { result ≡ last_entry self.now.whose book.now question.now }
    {
        let last = latest::newest(book)?;
        let of_customer = self.whose.of(question.customer);
        let serves = of_customer.fit(last) && Available.fit(last) && !last.initial;
        serves.then_some(basis_of(self.whose.pick(1, 4), last))
    }
}

impl YearBack {
    fn basis(&self, book: &[Entry], question: &Question) -> Option<Basis>
        ensures { result ≡ from_year_back self.now.whose book.now question.now }
    {
        let of_customer = self.whose.of(question.customer);
        let found = latest::year_back(book, of_customer, u32::from(question.end_day))?;
        Available
            .fit(found)
            .then_some(basis_of(self.whose.pick(2, 5), found))
    }
}

impl Seasonal {
    fn basis(&self, book: &[Entry], question: &Question) -> Option<Basis>
        ensures { result ≡ seasonal self.now.whose book.now question.now }
    {
        let season = calendar::season_of(u32::from(question.end_day))?;
        let of_customer = self.whose.of(question.customer);
        let six = six::seasonal_sum(book, of_customer, season);
        if six.count == SIX && six.usage_days >= FEWEST_DAYS && six.usage_days <= MOST_DAYS {
            return Some(Basis {
                rung: self.whose.pick(3, 6),
                kwh: six.kwh as u32,
                days: six.usage_days as u16,
            });
        }
        None
    }
}

impl Method for LastEntry {
    type Entry = Entry;

    type Question = Question;

    type Answer = Basis;

    ghost table = { λ m book q. last_entry m.whose book q };

    fn answer(&self, book: &[Entry], question: &Question) -> Option<Basis>
        ensures answer { result ≡ last_entry self.now.whose book.now question.now }
        ensures meaning { OnLastEntry self.now.whose book.now question.now result }
    {
        self.basis(book, question)
    }
}

impl Method for YearBack {
    type Entry = Entry;

    type Question = Question;

    type Answer = Basis;

    ghost table = { λ m book q. from_year_back m.whose book q };

    fn answer(&self, book: &[Entry], question: &Question) -> Option<Basis>
        ensures answer { result ≡ from_year_back self.now.whose book.now question.now }
        ensures meaning { OnYearBack self.now.whose book.now question.now result }
    {
        self.basis(book, question)
    }
}

impl Method for Seasonal {
    type Entry = Entry;

    type Question = Question;

    type Answer = Basis;

    ghost table = { λ m book q. seasonal m.whose book q };

    fn answer(&self, book: &[Entry], question: &Question) -> Option<Basis>
        ensures answer { result ≡ seasonal self.now.whose book.now question.now }
        ensures meaning { OnSeasonal self.now.whose book.now question.now result }
    {
        self.basis(book, question)
    }
}

impl Method for ClassFigure {
    type Entry = Entry;

    type Question = Question;

    type Answer = Basis;

    ghost table = { λ _ _ q. class_figure q };

    fn answer(&self, _book: &[Entry], question: &Question) -> Option<Basis>
        ensures answer { result ≡ class_figure question.now }
    {
        Some(Basis {
            rung: 7,
            kwh: question.rate.class_kwh_a_day()?,
            days: 1,
        })
    }
}

impl EnergyMethod for LastEntry {
    ghost lawful = { λ m book q b e. last_entry_lawful m.whose book q b e };
}

impl EnergyMethod for YearBack {
    ghost lawful = { λ m book q b e. year_back_lawful m.whose book q b e };
}

impl EnergyMethod for Seasonal {
    ghost lawful = { λ m book q b e. seasonal_lawful m.whose book q b e };
}

impl EnergyMethod for ClassFigure {
    ghost lawful = { Prim.search rules };
}

#[cfg(test)]
mod tests {
    use super::*;
    use lookup::fit::Whose::{Anyone, Customer};
    use measures::entry::Kind;
    use measures::rate::Rate;

    // An estimated entry: such entries count as any other.
    const fn entry(customer: u32, end_day: u16, usage_days: u8, kwh: u32) -> Entry {
        Entry {
            customer,
            end_day,
            days: 30,
            usage_days,
            kind: Kind::Estimated,
            rung: 1,
            initial: false,
            kwh,
        }
    }

    const fn initial(customer: u32, end_day: u16, usage_days: u8, kwh: u32) -> Entry {
        Entry {
            initial: true,
            ..entry(customer, end_day, usage_days, kwh)
        }
    }

    // What customer 1 asks for a period that ends on a day.
    const fn until(end_day: u16) -> Question {
        Question {
            customer: 1,
            start_day: 0,
            end_day,
            rate: Rate::E12,
        }
    }

    const fn basis(rung: u8, kwh: u32, days: u16) -> Option<Basis> {
        Some(Basis { rung, kwh, days })
    }

    #[test]
    fn very_last_entry(rt: HostRuntime) {
        let own = [entry(2, 60, 31, 400), entry(1, 90, 30, 350)];
        assert_eq!(rt;
            LastEntry { whose: Customer }.answer(&own, &until(120)),
            basis(1, 350, 30)
        );
        assert_eq!(rt;
            LastEntry { whose: Anyone }.answer(&own, &until(120)),
            basis(4, 350, 30)
        );
        let other = [entry(1, 60, 31, 400), entry(2, 90, 30, 350)];
        assert_eq!(rt;
            LastEntry { whose: Customer }.answer(&other, &until(120)),
            None,
            "no further back"
        );
        assert_eq!(rt;
            LastEntry { whose: Anyone }.answer(&other, &until(120)),
            basis(4, 350, 30)
        );
        let first = [initial(1, 90, 30, 350)];
        assert_eq!(rt;
            LastEntry { whose: Customer }.answer(&first, &until(120)),
            None,
            "initial"
        );
        assert_eq!(rt; LastEntry { whose: Anyone }.answer(&[], &until(120)), None);
    }

    #[test]
    fn available_entries(rt: HostRuntime) {
        let rung = LastEntry { whose: Customer };
        assert_eq!(rt;
            rung.answer(&[entry(1, 90, 1, 0)], &until(120)),
            basis(1, 0, 1)
        );
        assert_eq!(rt;
            rung.answer(&[entry(1, 90, 109, 99_999_999)], &until(120)),
            basis(1, 99_999_999, 109)
        );
        assert_eq!(rt;
            rung.answer(&[entry(1, 90, 0, 0)], &until(120)),
            None,
            "put off"
        );
        assert_eq!(rt; rung.answer(&[entry(1, 90, 110, 350)], &until(120)), None);
        assert_eq!(rt;
            rung.answer(&[entry(1, 90, 30, 100_000_000)], &until(120)),
            None
        );
    }

    // 30 is 31 January 2000, 31 and 59 the first and the last day of February, 60 is 1 March.
    #[test]
    fn month_a_year_back(rt: HostRuntime) {
        let rung = YearBack { whose: Customer };
        let book = [
            entry(1, 30, 30, 310),
            entry(1, 31, 31, 320),
            entry(1, 59, 29, 290),
            initial(1, 60, 30, 300),
            entry(2, 59, 28, 280),
        ];
        assert_eq!(rt;
            rung.answer(&book, &until(396)),
            basis(2, 310, 30),
            "31 January 2001"
        );
        assert_eq!(rt;
            rung.answer(&book, &until(397)),
            basis(2, 290, 29),
            "1 February 2001"
        );
        assert_eq!(rt;
            rung.answer(&book, &until(424)),
            basis(2, 290, 29),
            "28 February 2001"
        );
        assert_eq!(rt;
            rung.answer(&book, &until(425)),
            basis(2, 300, 30),
            "initial entries count"
        );
        assert_eq!(rt; rung.answer(&book, &until(456)), None, "1 April 2001");
        assert_eq!(rt;
            rung.answer(&book, &until(59)),
            None,
            "there is no year before 2000"
        );
        assert_eq!(rt;
            YearBack { whose: Anyone }.answer(&book, &until(424)),
            basis(5, 280, 28)
        );
    }

    #[test]
    fn in_the_way_a_year_back(rt: HostRuntime) {
        let rung = YearBack { whose: Customer };
        let put_off = [entry(1, 31, 31, 320), entry(1, 59, 0, 0)];
        assert_eq!(rt;
            rung.answer(&put_off, &until(424)),
            None,
            "a put-off entry, though an earlier one would do"
        );
        let past = [entry(1, 36_525, 30, 350)];
        assert_eq!(rt;
            rung.answer(&past, &until(36_524)),
            None,
            "an entry off the calendar"
        );
        let last = [entry(1, 36_159, 30, 350)];
        assert_eq!(rt;
            rung.answer(&last, &until(36_524)),
            basis(2, 350, 30),
            "31 December 2098 and 2099"
        );
        assert_eq!(rt;
            rung.answer(&last, &until(36_525)),
            None,
            "a question off the calendar"
        );
    }

    // 150 to 304 are days of May to October 2000, 335 of December; 516 is 31 May 2001.
    #[test]
    fn six_of_the_season(rt: HostRuntime) {
        let rung = Seasonal { whose: Customer };
        let book = [
            entry(1, 130, 30, 9_999),
            entry(1, 150, 30, 100),
            entry(1, 181, 30, 200),
            entry(1, 212, 30, 300),
            entry(2, 213, 30, 9_000),
            entry(1, 243, 30, 400),
            entry(1, 273, 30, 500),
            entry(1, 280, 0, 0),
            entry(1, 304, 31, 600),
            entry(1, 335, 30, 9_000),
        ];
        assert_eq!(rt; rung.answer(&book, &until(516)), basis(3, 2_100, 181));
        assert_eq!(rt;
            rung.answer(&book, &until(424)),
            None,
            "one entry of the winter"
        );
        assert_eq!(rt;
            rung.answer(&book, &until(36_525)),
            None,
            "off the calendar"
        );
        assert_eq!(rt;
            rung.answer(&book[2..10], &until(516)),
            None,
            "five entries"
        );
        assert_eq!(rt;
            Seasonal { whose: Anyone }.answer(&book, &until(516)),
            basis(6, 11_000, 181)
        );
    }

    #[test]
    fn days_of_the_six(rt: HostRuntime) {
        let rung = Seasonal { whose: Customer };
        let mut book = [entry(1, 150, 30, 100); 6];
        book[5] = entry(1, 150, 15, 100);
        assert_eq!(rt; rung.answer(&book, &until(516)), basis(3, 600, 165));
        book[0] = entry(1, 150, 29, 100);
        assert_eq!(rt; rung.answer(&book, &until(516)), None, "164 days");
        book[0] = entry(1, 150, 60, 100);
        assert_eq!(rt; rung.answer(&book, &until(516)), basis(3, 600, 195));
        book[0] = entry(1, 150, 61, 100);
        assert_eq!(rt; rung.answer(&book, &until(516)), None, "196 days");
    }

    #[test]
    fn class_figures(rt: HostRuntime) {
        assert_eq!(rt; ClassFigure.answer(&[], &until(120)), basis(7, 25, 1));
        let other = Question {
            rate: Rate::Other,
            ..until(120)
        };
        assert_eq!(rt; ClassFigure.answer(&[], &other), None);
    }
}
