// A list of calls played on a premise's file and its book.
ghost use Rattle.std.specs.Prelude.{◌≡◌, IfOk, MatchResult};
ghost use Rattle.premise.specs.Plays.{called, played};
ghost use Rattle.premise.specs.History.{Lived, KeepsLaw};

use crate::file::PremiseFile;
use crate::happening::Happening;
use estimating::method::EnergyMethod;
use judging::Judgement;
use measures::entry::Entry;
use std::alloc::{AllocError, Global};

// What is asked of a premise's file.
#[derive(Clone, Copy)]
pub enum Call {
    Read { day: u32, register: u32 },
    Miss { day: u32 },
    Move { customer: u32 },
}

impl<M: EnergyMethod, J: Judgement> PremiseFile<M, J> {
    // Plays the calls one after the other, and answers what was called and answered. Where there is no memory for that,
    // nothing is played.
    pub fn play(
        &mut self,
        heap: Global,
        book: &mut [Entry],
        calls: &[Call],
    ) -> Result<Vec<Happening>, AllocError>
        ensures answer { MatchResult result (λ v. (v.items, self.new, book.new) ≡ played M.Method.table J.Judgement.higher calls.now self.old book.old) (λ _. (self.new ≡ self.old) × (book.new ≡ book.old)) }
        ensures lived { IfOk result (λ v. Lived M.Method.table J.Judgement.higher self.old book.old v.items self.new book.new) }
        ensures history { IfOk result (λ v. KeepsLaw M.Method.table J.Judgement.higher self.old book.old v.items self.new book.new) }
    {
        self.play_all(heap, book, calls)
    }

    fn play_all(
        &mut self,
        heap: Global,
        book: &mut [Entry],
        calls: &[Call],
    ) -> Result<Vec<Happening>, AllocError>
        ensures { MatchResult result (λ v. (v.items, self.new, book.new) ≡ played M.Method.table J.Judgement.higher calls.now self.old book.old) (λ _. (self.new ≡ self.old) × (book.new ≡ book.old)) }
    {
        let mut happened = Vec::with_capacity(heap, calls.len())?;
        for call in calls {
            let happening = self.play_one(book, *call);
            happened.push_reserved(happening);
        }
        Ok(happened)
    }

    fn play_one(&mut self, book: &mut [Entry], call: Call) -> Happening
        ensures { (result, self.new, book.new) ≡ called M.Method.table J.Judgement.higher call self.old book.old }
    {
        match call {
            Call::Read { day, register } => Happening::Read(
                day,
                register,
                self.close_read(book, day, register),
            ),
            Call::Miss { day } => Happening::Miss(day, self.close_missed(book, day)),
            Call::Move { customer } => Happening::Move(customer, self.change_customer(customer)),
        }
    }
}
