// The calls on a premise's file, with the law over its whole history.
ghost use Rattle.std.specs.Prelude.{◌≡◌, List, [], ◌∷◌, Ok};
ghost use Rattle.measures.specs.declared.entry.Entry.{Entry};
ghost use Rattle.premise.specs.declared.happening.Happening.TheVariants.{Read, Miss, Move};
ghost use Rattle.measures.specs.Dial.{turn_of};
ghost use Rattle.premise.specs.declared.happening.Happening.{Happening};
ghost use Rattle.premise.specs.declared.file.PremiseFile.{PremiseFile};
ghost use Rattle.premise.specs.Files.{settled_sum, reads, misses, moves};
ghost use Rattle.premise.specs.History.{registers, advances, Opened, Lived, KeepsLaw, Agree, same_sums};

use crate::file::PremiseFile;
use estimating::method::EnergyMethod;
use judging::Judgement;
use measures::entry::Entry;

impl<M: EnergyMethod, J: Judgement> PremiseFile<M, J> {
    // Closes a period on a day by a read of the register. It answers the kind and kWh of the read's entry, and how many
    // entries it corrected.
    pub fn read(&mut self, book: &mut [Entry], day: u32, register: u32) -> Result<(u8, u32, u8), u8>
        ensures meaning { (result, self.new, book.new) ≡ reads J.Judgement.higher self.old book.old day register }
        ensures history { KeepsLaw M.Method.table J.Judgement.higher self.old book.old (Read day register result ∷ []) self.new book.new }
    {
        self.close_read(book, day, register)
    }

    // Closes a period on a day without a read. It answers the kind, rung and kWh of its entry.
    pub fn miss(&mut self, book: &mut [Entry], day: u32) -> Result<(u8, u8, u32), u8>
        ensures meaning { (result, self.new, book.new) ≡ misses M.Method.table self.old book.old day }
        ensures history { KeepsLaw M.Method.table J.Judgement.higher self.old book.old (Miss day result ∷ []) self.new book.new }
    {
        self.close_missed(book, day)
    }

    // Names a new customer.
    pub fn move_in(&mut self, customer: u32) -> Result<(), u8>
        ensures meaning { (result, self.new) ≡ moves self.old customer }
        ensures history { (b : List Entry) → KeepsLaw M.Method.table J.Judgement.higher self.old b (Move customer result ∷ []) self.new b }
    {
        self.change_customer(customer)
    }

    // The kWh of the entries up to the last accepted read.
    pub fn settled_sum(&self, book: &[Entry]) -> Result<u64, u8>
        ensures answer { result ≡ settled_sum self.now book.now }
        ensures history { (f0 : PremiseFile M J) (b0 : List Entry) (es : List Happening) → Opened f0 b0 → Lived M.Method.table J.Judgement.higher f0 b0 es self.now book.now → result ≡ Ok (advances (turn_of f0.dial) f0.register (registers es)) }
    {
        self.sum_settled(book)
    }
}

// Whether two files, of any makes, hold the same kWh up to their last accepted reads.
pub fn settled_alike<M: EnergyMethod, J: Judgement, N: EnergyMethod, K: Judgement>(
    file: &PremiseFile<M, J>,
    book: &[Entry],
    other: &PremiseFile<N, K>,
    other_book: &[Entry],
) -> Result<bool, u8>
    ensures answer { result ≡ same_sums (settled_sum file.now book.now) (settled_sum other.now other_book.now) }
    ensures agree { Agree M.Method.table J.Judgement.higher N.Method.table K.Judgement.higher file.now book.now other.now other_book.now }
{
    same_sums(file.sum_settled(book), other.sum_settled(other_book))
}

fn same_sums(sum: Result<u64, u8>, other: Result<u64, u8>) -> Result<bool, u8>
    ensures { result ≡ same_sums sum other }
{
    Ok(sum? == other?)
}
