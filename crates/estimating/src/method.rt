// The interface of an estimating method, for one kind of entry, of question and of answer.
ghost use Rattle.std.specs.Prelude.{◌≡◌, List, Some, Option};
ghost use Rattle.measures.specs.declared.entry.Entry.{Entry};
ghost use Rattle.estimating.specs.declared.basis.Question.{Question};
ghost use Rattle.estimating.specs.declared.basis.Basis.{Basis};
ghost use Rattle.estimating.specs.Estimates.{Lawful};

use crate::basis::{Basis, Question};
use measures::entry::Entry;

pub trait Method {
    type Entry;

    type Question;

    type Answer;

    // what the method means: for each book and question, one answer or none
    ghost table: { Self → List Self.Entry → Self.Question → Option Self.Answer };

    // What the table says. It writes nothing.
    fn answer(&self, book: &[Self::Entry], question: &Self::Question) -> Option<Self::Answer>
        ensures { result ≡ table self.now book.now question.now };
}

// A method that answers energy questions, each answer within the bounds of a basis.
pub trait EnergyMethod: Method<Entry = Entry, Question = Question, Answer = Basis> {
    ghost lawful: { (m : Self) (book : List Entry) (q : Question) (b : Basis) → Self.Method.table m book q ≡ Some b → Lawful b };
}
