// The standard method: the seven rungs, asked one after the other.
ghost use Rattle.std.specs.Prelude.{◌≡◌};
ghost use Rattle.ladder.specs.Ladder.{standard_rungs, standard, ByTheLadder};

use crate::rungs::{ClassFigure, LastEntry, Seasonal, YearBack};
use estimating::basis::{Basis, Question};
use estimating::first_then::FirstThen;
use estimating::method::Method;
use lookup::fit::Whose::{Anyone, Customer};
use measures::entry::Entry;

// A customer's own entries come first, then anyone's, and last the class figure.
pub type StandardMethod = FirstThen<
    LastEntry,
    FirstThen<
        YearBack,
        FirstThen<
            Seasonal,
            FirstThen<LastEntry, FirstThen<YearBack, FirstThen<Seasonal, ClassFigure>>>,
        >,
    >,
>;

// The standard method.
pub fn standard_method() -> StandardMethod
    ensures answer { result ≡ standard_rungs }
{
    FirstThen {
        first: LastEntry { whose: Customer },
        second: FirstThen {
            first: YearBack { whose: Customer },
            second: FirstThen {
                first: Seasonal { whose: Customer },
                second: FirstThen {
                    first: LastEntry { whose: Anyone },
                    second: FirstThen {
                        first: YearBack { whose: Anyone },
                        second: FirstThen {
                            first: Seasonal { whose: Anyone },
                            second: ClassFigure,
                        },
                    },
                },
            },
        },
    }
}

// What the standard method answers.
pub fn standard_answer(book: &[Entry], question: &Question) -> Option<Basis>
    ensures answer { result ≡ standard book.now question.now }
    ensures ladder { ByTheLadder book.now question.now result }
{
    standard_method().answer(book, question)
}

#[cfg(test)]
mod tests {
    use super::*;
    use measures::entry::Kind;
    use measures::rate::Rate;

    const fn entry(customer: u32, end_day: u16, usage_days: u8, kwh: u32) -> Entry {
        Entry {
            customer,
            end_day,
            days: 30,
            usage_days,
            kind: Kind::Actual,
            rung: 0,
            initial: false,
            kwh,
        }
    }

    // What a customer asks for the period that ends on 28 February 2001.
    const fn asks(customer: u32, rate: Rate) -> Question {
        Question {
            customer,
            start_day: 396,
            end_day: 424,
            rate,
        }
    }

    const fn basis(rung: u8, kwh: u32, days: u16) -> Option<Basis> {
        Some(Basis { rung, kwh, days })
    }

    #[test]
    fn own_entries_first(rt: HostRuntime) {
        let book = [
            entry(1, 31, 28, 1_000),
            entry(2, 59, 29, 290),
            entry(1, 366, 30, 1_000),
            entry(1, 367, 30, 1_000),
            entry(1, 368, 30, 1_000),
            entry(1, 369, 30, 1_000),
            entry(1, 370, 32, 1_000),
            entry(2, 390, 30, 350),
            entry(1, 396, 31, 410),
        ];
        assert_eq!(rt;
            standard_answer(&book, &asks(1, Rate::E12)),
            basis(1, 410, 31)
        );
        assert_eq!(rt;
            standard_answer(&book[0..8], &asks(1, Rate::E12)),
            basis(2, 1_000, 28),
            "a year back, before the season"
        );
        assert_eq!(rt;
            standard_answer(&book[0..8], &asks(2, Rate::E12)),
            basis(1, 350, 30)
        );
        assert_eq!(rt;
            standard_answer(&book[1..8], &asks(1, Rate::E12)),
            basis(4, 350, 30),
            "five of the season"
        );
        assert_eq!(rt;
            standard_answer(&book[0..8], &asks(3, Rate::E12)),
            basis(4, 350, 30)
        );
    }

    #[test]
    fn season_before_anyone(rt: HostRuntime) {
        let mut book = [entry(1, 0, 30, 100); 8];
        book[6] = entry(2, 59, 29, 290);
        book[7] = entry(2, 390, 30, 350);
        assert_eq!(rt;
            standard_answer(&book, &asks(1, Rate::E12)),
            basis(3, 600, 180),
            "rung 3 before rung 4"
        );
        book[7] = entry(2, 390, 0, 0);
        assert_eq!(rt;
            standard_answer(&book, &asks(3, Rate::E12)),
            basis(5, 290, 29),
            "rung 5 before rung 6"
        );
        assert_eq!(rt;
            standard_answer(&book[0..6], &asks(3, Rate::E12)),
            basis(4, 100, 30)
        );
        book[6] = entry(1, 0, 0, 0);
        assert_eq!(rt;
            standard_answer(&book[0..7], &asks(3, Rate::E12)),
            basis(6, 600, 180)
        );
    }

    #[test]
    fn class_figure_last(rt: HostRuntime) {
        assert_eq!(rt; standard_answer(&[], &asks(1, Rate::E12)), basis(7, 25, 1));
        assert_eq!(rt; standard_answer(&[], &asks(1, Rate::Other)), None);
        assert_eq!(rt;
            standard_answer(&[entry(2, 59, 29, 290)], &asks(1, Rate::Other)),
            basis(4, 290, 29)
        );
    }
}
