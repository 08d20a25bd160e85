// The answers about demand, each a method of its own.
ghost use Rattle.std.specs.Prelude.{◌≡◌, ◌≤◌, Some};
ghost use Rattle.demand.specs.Answers.{answer_at, short_initial, OnShortInitial, last_reading, OnLastReading, reading_year_back, OnYearBack, by_load_factor, OnLoadFactor};

use crate::entry::DemandEntry;
use crate::question::{DemandAnswer, DemandQuestion};
use estimating::method::Method;
use lookup::fit::{Fit, Whose};
use lookup::{latest, place};

// The fewest usage days of an initial period that has a demand of its own.
pub const FEWEST_INITIAL_DAYS: u32 = 11;

// No demand for an initial period that is too short: answer 0.
#[derive(Clone, Copy)]
pub struct ShortInitial;

// The book's very last entry, if it serves: answer 1, or 3 for anyone's.
#[derive(Clone, Copy)]
pub struct LastReading {
    pub whose: Whose,
}

// The latest entry in the same month one year earlier, if it serves: answer 2, or 4 for anyone's.
#[derive(Clone, Copy)]
pub struct YearBackReading {
    pub whose: Whose,
}

// From the kWh by the load factor of the rate: answer 6.
#[derive(Clone, Copy)]
pub struct LoadFactor;

// The answer from the reading at a place, if it is looked at for the customer, is not initial and does not count as estimated.
fn answer_at(
    number: u8,
    whose: Whose,
    question: &DemandQuestion,
    book: &[DemandEntry],
    place: usize,
) -> Option<DemandAnswer>
    ensures { result ≡ answer_at number whose question.now book.now (Some place) }
{
    let reading = place::record_at(book, place)?;
    let of_customer = whose.of(question.customer);
    let before = place::record_before(book, place);
    if !of_customer.fit(reading) || reading.initial || reading.counts_as_estimated(before) {
        return None;
    }
    Some(DemandAnswer {
        number,
        tenths: u64::from(reading.tenths),
    })
}

impl LastReading {
    fn found(&self, book: &[DemandEntry], question: &DemandQuestion) -> Option<DemandAnswer>
        ensures { result ≡ last_reading self.now.whose book.now question.now }
    {
        let place = latest::newest_place(book)?;
        answer_at(self.whose.pick(1, 3), self.whose, question, book, place)
    }
}

impl YearBackReading {
    fn found(&self, book: &[DemandEntry], question: &DemandQuestion) -> Option<DemandAnswer>
        ensures { result ≡ reading_year_back self.now.whose book.now question.now }
    {
        let of_customer = self.whose.of(question.customer);
        let place = latest::year_back_place(book, of_customer, question.end_day)?;
        answer_at(self.whose.pick(2, 4), self.whose, question, book, place)
    }
}

impl Method for ShortInitial {
    type Entry = DemandEntry;

    type Question = DemandQuestion;

    type Answer = DemandAnswer;

    ghost table = { λ _ _ q. short_initial q };

    fn answer(&self, _book: &[DemandEntry], question: &DemandQuestion) -> Option<DemandAnswer>
        ensures answer { result ≡ short_initial question.now }
        ensures meaning { OnShortInitial question.now result }
    {
        (question.initial && question.usage_days < FEWEST_INITIAL_DAYS).then_some(DemandAnswer {
            number: 0,
            tenths: 0,
        })
    }
}

impl Method for LastReading {
    type Entry = DemandEntry;

    type Question = DemandQuestion;

    type Answer = DemandAnswer;

    ghost table = { λ m book q. last_reading m.whose book q };

    fn answer(&self, book: &[DemandEntry], question: &DemandQuestion) -> Option<DemandAnswer>
        ensures answer { result ≡ last_reading self.now.whose book.now question.now }
        ensures meaning { OnLastReading self.now.whose book.now question.now result }
    {
        self.found(book, question)
    }
}

impl Method for YearBackReading {
    type Entry = DemandEntry;

    type Question = DemandQuestion;

    type Answer = DemandAnswer;

    ghost table = { λ m book q. reading_year_back m.whose book q };

    fn answer(&self, book: &[DemandEntry], question: &DemandQuestion) -> Option<DemandAnswer>
        ensures answer { result ≡ reading_year_back self.now.whose book.now question.now }
        ensures meaning { OnYearBack self.now.whose book.now question.now result }
    {
        self.found(book, question)
    }
}

impl Method for LoadFactor {
    type Entry = DemandEntry;

    type Question = DemandQuestion;

    type Answer = DemandAnswer;

    ghost table = { λ _ _ q. by_load_factor q };

    fn answer(&self, _book: &[DemandEntry], question: &DemandQuestion) -> Option<DemandAnswer>
        ensures answer { result ≡ by_load_factor question.now }
        ensures meaning { OnLoadFactor question.now result }
    {
        let percent = question.rate.load_factor()?;
        if question.usage_days == 0 {
            return None;
        }
        let hours = 24 * u64::from(question.usage_days);
        Some(DemandAnswer {
            number: 6,
            tenths: u64::from(question.kwh) * 1_000 / (hours * u64::from(percent)),
        })
    }
}

#[cfg(test)]
mod tests {
    use super::*;
    use crate::entry::Mark;
    use lookup::fit::Whose::{Anyone, Customer};
    use measures::rate::Rate;

    const fn read(customer: u32, end_day: u32, tenths: u32) -> DemandEntry {
        DemandEntry {
            customer,
            end_day,
            tenths,
            mark: Mark::ReadAndReset,
            initial: false,
        }
    }

    const fn not_reset(customer: u32, end_day: u32, tenths: u32) -> DemandEntry {
        DemandEntry {
            mark: Mark::NotReset,
            ..read(customer, end_day, tenths)
        }
    }

    // What customer 1 asks for the period that ends on 28 February 2001; 59 is a day of the February before.
    const QUESTION: DemandQuestion = DemandQuestion {
        customer: 1,
        end_day: 424,
        kwh: 600,
        usage_days: 30,
        rate: Rate::Ect1R,
        initial: false,
    };

    const fn answer(number: u8, tenths: u64) -> Option<DemandAnswer> {
        Some(DemandAnswer { number, tenths })
    }

    #[test]
    fn very_last_reading(rt: HostRuntime) {
        let own = LastReading { whose: Customer };
        let any = LastReading { whose: Anyone };
        let book = [not_reset(2, 31, 40), read(1, 59, 41), read(2, 90, 30)];
        assert_eq!(rt; own.answer(&book[0..2], &QUESTION), answer(1, 41));
        assert_eq!(rt; any.answer(&book[0..2], &QUESTION), answer(3, 41));
        assert_eq!(rt; own.answer(&book, &QUESTION), None, "no further back");
        assert_eq!(rt; any.answer(&book, &QUESTION), answer(3, 30));
        assert_eq!(rt; any.answer(&[], &QUESTION), None);
        let held = [not_reset(2, 31, 40), read(1, 59, 40)];
        assert_eq!(rt;
            own.answer(&held, &QUESTION),
            None,
            "directly before, of another customer"
        );
    }

    #[test]
    fn month_a_year_back(rt: HostRuntime) {
        let own = YearBackReading { whose: Customer };
        let any = YearBackReading { whose: Anyone };
        let mut book = [
            read(1, 31, 50),
            read(1, 59, 41),
            read(2, 59, 30),
            read(1, 90, 60),
        ];
        assert_eq!(rt; own.answer(&book, &QUESTION), answer(2, 41));
        assert_eq!(rt; any.answer(&book, &QUESTION), answer(4, 30));
        book[1].initial = true;
        assert_eq!(rt;
            own.answer(&book, &QUESTION),
            None,
            "though an earlier one would do"
        );
        book[1] = not_reset(1, 59, 41);
        assert_eq!(rt; own.answer(&book, &QUESTION), answer(2, 41));
        assert_eq!(rt;
            any.answer(&book, &QUESTION),
            None,
            "not above the one before"
        );
        book[1].mark = Mark::Estimated;
        assert_eq!(rt; own.answer(&book, &QUESTION), None);
    }

    // 600,000 over 24 x 30 x 42 is 19.8; 600,000 over 24 x 30 x 50 is 16.7.
    #[test]
    fn load_factors(rt: HostRuntime) {
        assert_eq!(rt; LoadFactor.answer(&[], &QUESTION), answer(6, 19));
        let mut question = QUESTION;
        question.rate = Rate::NrL;
        assert_eq!(rt; LoadFactor.answer(&[], &question), answer(6, 16));
        question.usage_days = 0;
        assert_eq!(rt; LoadFactor.answer(&[], &question), None);
        question = QUESTION;
        question.rate = Rate::Et1;
        assert_eq!(rt; LoadFactor.answer(&[], &question), None);
    }
}
