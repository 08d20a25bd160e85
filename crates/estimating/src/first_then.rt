// Two methods of the same kinds, one asked after the other.
ghost use Rattle.estimating.specs.Tables.{first_then};
ghost use Rattle.std.proofs.Common.{⊎_elim};
ghost use Rattle.estimating.specs.Cases.{first_or_second};

use crate::method::{EnergyMethod, Method};

// The first method's answer where there is one, otherwise the second's.
#[derive(Drop)]
pub struct FirstThen<F, S> {
    pub first: F,
    pub second: S,
}

impl<F: Method, S: Method<Entry = F::Entry, Question = F::Question, Answer = F::Answer>> Method
    for FirstThen<F, S> {
    type Entry = F::Entry;

    type Question = F::Question;

    type Answer = F::Answer;

    ghost table = { λ m book q. first_then (F.Method.table m.first book q) (S.Method.table m.second book q) };

    fn answer(&self, book: &[F::Entry], question: &F::Question) -> Option<F::Answer> {
        self.first
            .answer(book, question)
            .or_else(|| self.second.answer(book, question))
    }
}

impl<F: EnergyMethod, S: EnergyMethod> EnergyMethod for FirstThen<F, S> {
    // the answer is the first's or the second's, and each keeps the law
    ghost lawful = { λ m book q b e.
        ⊎_elim
        (F.EnergyMethod.lawful m.first book q b)
        (S.EnergyMethod.lawful m.second book q b)
        (first_or_second (F.Method.table m.first book q) (S.Method.table m.second book q) b e) };
}

#[cfg(test)]
mod tests {
    use super::*;
    use crate::basis::{Basis, Question};
    use crate::fixed::Fixed;
    use measures::rate::Rate;
    use std::test::Fail;

    #[test]
    fn the_first_answers(rt: HostRuntime) -> Result<(), Fail> {
        let question = Question {
            customer: 1,
            start_day: 0,
            end_day: 30,
            rate: Rate::E12,
        };
        let both = FirstThen {
            first: Fixed::new(350, 30)?,
            second: Fixed::new(400, 31)?,
        };
        let first = Basis {
            rung: 90,
            kwh: 350,
            days: 30,
        };
        assert_eq!(rt; both.answer(&[], &question), Some(first));
        Ok(())
    }
}
