// The demand of a period without a reading: the answers, one after the other, and the call that asks them.
#![tactic(auto)]

ghost use Rattle.std.specs.Prelude.{◌≡◌};
ghost use Rattle.demand.specs.Demand.{demand_makes, demand_of, ByTheAnswers};

pub mod entry;
pub mod makes;
pub mod question;

use entry::DemandEntry;
use estimating::first_then::FirstThen;
use estimating::method::Method;
use lookup::fit::Whose::{Anyone, Customer};
use makes::{LastReading, LoadFactor, ShortInitial, YearBackReading};
use measures::refusal;
use question::{DemandAnswer, DemandQuestion};

// The most entries of a demand book.
pub const MOST_ENTRIES: usize = 240;

// A short initial period comes first, then a customer's own readings, then anyone's, and last the load factor.
pub type DemandMethod = FirstThen<
    ShortInitial,
    FirstThen<
        LastReading,
        FirstThen<YearBackReading, FirstThen<LastReading, FirstThen<YearBackReading, LoadFactor>>>,
    >,
>;

// The method of demand.
pub fn demand_method() -> DemandMethod
    ensures answer { result ≡ demand_makes }
{
    FirstThen {
        first: ShortInitial,
        second: FirstThen {
            first: LastReading { whose: Customer },
            second: FirstThen {
                first: YearBackReading { whose: Customer },
                second: FirstThen {
                    first: LastReading { whose: Anyone },
                    second: FirstThen {
                        first: YearBackReading { whose: Anyone },
                        second: LoadFactor,
                    },
                },
            },
        },
    }
}

// The demand of a period, from a demand book.
pub fn demand_of(book: &[DemandEntry], question: &DemandQuestion) -> Result<DemandAnswer, u8>
    ensures answer { result ≡ demand_of book.now question.now }
    ensures first { ByTheAnswers book.now question.now result }
{
    if question.customer == 0 {
        return Err(refusal::CUSTOMER);
    }
    if book.len() > MOST_ENTRIES {
        return Err(refusal::DEMAND_BOOK);
    }
    if !question.has_good_figures() {
        return Err(refusal::FIGURES);
    }
    demand_method()
        .answer(book, question)
        .ok_or(refusal::NO_ANSWER)
}

#[cfg(test)]
mod tests {
    use super::*;
    use crate::entry::Mark;
    use measures::rate::Rate;

    const fn read(customer: u32, end_day: u32, tenths: u32) -> DemandEntry {
        DemandEntry {
            customer,
            end_day,
            tenths,
            mark: Mark::ReadAndReset,
            initial: false,
        }
    }

    // What a customer asks for the period that ends on 28 February 2001.
    const fn asks(customer: u32, rate: Rate) -> DemandQuestion {
        DemandQuestion {
            customer,
            end_day: 424,
            kwh: 600,
            usage_days: 30,
            rate,
            initial: false,
        }
    }

    const fn answer(number: u8, tenths: u64) -> Result<DemandAnswer, u8> {
        Ok(DemandAnswer { number, tenths })
    }

    #[test]
    fn own_readings_first(rt: HostRuntime) {
        let book = [read(1, 59, 41), read(2, 59, 30), read(2, 90, 35)];
        assert_eq!(rt; demand_of(&book, &asks(2, Rate::Ect1R)), answer(1, 35));
        assert_eq!(rt; demand_of(&book, &asks(1, Rate::Ect1R)), answer(2, 41));
        assert_eq!(rt; demand_of(&book, &asks(3, Rate::Ect1R)), answer(3, 35));
        let mut book = book;
        book[2].mark = Mark::Estimated;
        assert_eq!(rt; demand_of(&book, &asks(3, Rate::Ect1R)), answer(4, 30));
        assert_eq!(rt; demand_of(&[], &asks(3, Rate::Ect1R)), answer(6, 19));
        assert_eq!(rt; demand_of(&[], &asks(3, Rate::E12)), Err(14));
    }

    #[test]
    fn short_initial_periods(rt: HostRuntime) {
        let mut question = asks(1, Rate::E12);
        question.initial = true;
        question.usage_days = 10;
        assert_eq!(rt; demand_of(&[read(1, 59, 41)], &question), answer(0, 0));
        assert_eq!(rt; demand_of(&[], &question), answer(0, 0), "before 14");
        question.usage_days = 11;
        assert_eq!(rt; demand_of(&[read(1, 59, 41)], &question), answer(1, 41));
        assert_eq!(rt; demand_of(&[], &question), Err(14));
    }

    #[test]
    fn refusals(rt: HostRuntime) {
        let long = [read(1, 59, 41); 241];
        let good = asks(1, Rate::NrS);
        assert_eq!(rt; demand_of(&long[0..240], &good), answer(1, 41));
        assert_eq!(rt; demand_of(&long, &good), Err(31));
        assert_eq!(rt; demand_of(&long, &asks(0, Rate::NrS)), Err(4));
        let mut question = good;
        question.kwh = 100_000_000;
        assert_eq!(rt; demand_of(&[], &question), Err(32));
        assert_eq!(rt;
            demand_of(&long, &question),
            Err(31),
            "the book comes first"
        );
        question = good;
        question.end_day = 36_525;
        assert_eq!(rt; demand_of(&[], &question), Err(32));
        question = good;
        question.usage_days = 0;
        assert_eq!(rt; demand_of(&[], &question), Err(32));
        question.usage_days = 110;
        assert_eq!(rt; demand_of(&[], &question), Err(32));
    }

    // 99,999,999,000 over 24 x 109 x 39 is 980,161.5; over 24 x 39 it is 106,837,605.8.
    #[test]
    fn at_the_limits(rt: HostRuntime) {
        let mut question = asks(1, Rate::Ect2);
        question.kwh = 99_999_999;
        question.end_day = 36_524;
        question.usage_days = 109;
        assert_eq!(rt; demand_of(&[], &question), answer(6, 980_161));
        question.usage_days = 1;
        assert_eq!(rt; demand_of(&[], &question), answer(6, 106_837_605));
    }
}
