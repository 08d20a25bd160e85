// A premise's file opened, moved to another customer, and asked for its open entries.
ghost use Rattle.std.specs.Prelude.{◌≡◌, IfOk};
ghost use Rattle.measures.specs.Dial.{dial_of};
ghost use Rattle.premise.specs.History.{Opened};
ghost use Rattle.premise.specs.Files.{opens, open_on, moves, used_part, open_part, carry_over, settled_sum, seen};

use crate::condition::Condition;
use crate::event::Event;
use crate::file::PremiseFile;
use calendar::LAST_DAY;
use measures::dial::Dial;
use measures::entry::Entry;
use measures::rate::Rate;
use measures::refusal;

// The most places of a book.
pub const MOST_PLACES: usize = 240;

// What a premise is opened with: its rate, the digits of its dial, the day, the register that the dial shows, and the customer.
#[derive(Clone, Copy, PartialEq, Eq, Debug)]
pub struct Opening {
    pub rate: Rate,
    pub digits: u32,
    pub day: u32,
    pub register: u32,
    pub customer: u32,
}

impl<M: Drop, J: Drop> PremiseFile<M, J> {
    // Opens a file for the book that its entries go into.
    pub fn open(
        method: M,
        judgement: J,
        opening: &Opening,
        book: &[Entry],
    ) -> Result<PremiseFile<M, J>, u8>
        ensures answer { result ≡ opens method judgement opening.now.rate opening.now.digits opening.now.day opening.now.register opening.now.customer book.now }
        ensures opened { IfOk result (λ f. Opened f book.now) }
    {
        PremiseFile::open_with(method, judgement, opening, book.len())
    }

    // The same for a book of so many places.
    fn open_with(
        method: M,
        judgement: J,
        opening: &Opening,
        places: usize,
    ) -> Result<PremiseFile<M, J>, u8>
        ensures { result ≡ open_on method judgement opening.now.rate (dial_of opening.now.digits) opening.now.day opening.now.register opening.now.customer places }
    {
        let dial = Dial::try_from(opening.digits)?;
        if opening.day > LAST_DAY {
            return Err(refusal::DAY);
        }
        if opening.register >= dial.turn() {
            return Err(refusal::REGISTER);
        }
        if opening.customer == 0 {
            return Err(refusal::CUSTOMER);
        }
        if places < 1 || places > MOST_PLACES {
            return Err(refusal::PLACES);
        }
        Ok(PremiseFile {
            method,
            judgement,
            rate: opening.rate,
            dial,
            places: places as u8,
            settled: 0,
            condition: Condition::Fresh,
            day: opening.day as u16,
            register: opening.register,
            customer: opening.customer,
        })
    }
}

impl<M, J> PremiseFile<M, J> {
    // Names a new customer; no entry may be open.
    pub(crate) fn change_customer(&mut self, customer: u32) -> Result<(), u8>
        ensures { (result, self.new) ≡ moves self.old customer }
    {
        if customer == 0 {
            return Err(refusal::CUSTOMER);
        }
        match self.condition {
            Condition::Fresh | Condition::Settled => {}
            Condition::Waiting | Condition::Carrying { .. } => return Err(refusal::OPEN_ENTRIES),
        }
        if customer == self.customer {
            return Err(refusal::SAME_CUSTOMER);
        }
        self.enter(Event::Move { customer })
    }

    // The part of the book that is in use.
    pub fn entries<'a>(&self, book: &'a [Entry]) -> Result<&'a [Entry], u8>
        ensures answer { seen result ≡ used_part self.now book.now }
    {
        Ok(self.with_own(book)?.entries())
    }

    // The part of the book that holds the open entries.
    pub fn open_run<'a>(&self, book: &'a [Entry]) -> Result<&'a [Entry], u8>
        ensures answer { seen result ≡ open_part self.now book.now }
    {
        Ok(self.with_own(book)?.open_run().entries)
    }

    // The kWh of the entries up to the last accepted read.
    pub(crate) fn sum_settled(&self, book: &[Entry]) -> Result<u64, u8>
        ensures { result ≡ settled_sum self.now book.now }
    {
        Ok(self.with_own(book)?.settled_run().sum_kwh())
    }

    // The kWh of the open entries: the carry-over.
    pub fn open_sum(&self, book: &[Entry]) -> Result<u64, u8>
        ensures answer { result ≡ carry_over self.now book.now }
    {
        Ok(self.with_own(book)?.open_run().sum_kwh())
    }
}
