// A premise's file. Each call hands in the book of entries; the file knows where it stands in it.
ghost use Rattle.std.specs.Prelude.{◌≡◌, ◌+◌, ◌<◌, ◌≤◌, true, false, MatchResult};
ghost use Rattle.measures.specs.Refusals.{not_the_book};
ghost use Rattle.premise.specs.Files.{in_use, is_fresh, Room, entered, settling, fits};

use crate::book;
use crate::condition::Condition;
use crate::event::Event;
use crate::own::OwnBook;
use measures::dial::Dial;
use measures::entry::Entry;
use measures::rate::Rate;
use measures::refusal;

// An initial period of fewer days is put off.
pub(crate) const PUT_OFF_BELOW: u8 = 11;

#[derive(Drop)]
pub struct PremiseFile<M, J> {
    pub(crate) method: M,
    pub(crate) judgement: J,
    pub(crate) rate: Rate,
    pub(crate) dial: Dial,
    // How many places the book has.
    pub(crate) places: u8,
    // How many entries there are up to the last accepted read.
    pub(crate) settled: u8,
    pub(crate) condition: Condition,
    // The day last closed.
    pub(crate) day: u16,
    // The register last accepted.
    pub(crate) register: u32,
    pub(crate) customer: u32,
}

impl<M, J> PremiseFile<M, J> {
    // Changes in place by what the file waits for and what happens; a move is refused while entries are open.
    pub(crate) fn enter(&mut self, event: Event) -> Result<(), u8>
        requires { Room event (in_use self.old) }
        ensures { (result, self.new) ≡ entered self.old event }
    {
        match (&mut self.condition, event) {
            (Condition::Fresh | Condition::Settled, Event::Read { day, register }) => {
                self.settle(1, day, register)
            }
            (Condition::Waiting, Event::Read { day, register }) => self.settle(2, day, register),
            (Condition::Carrying { entries }, Event::Read { day, register }) => {
                let more = *entries + 1;
                self.settle(more, day, register);
            }
            (Condition::Fresh, Event::Miss { day, days }) if days < PUT_OFF_BELOW => {
                self.condition = Condition::Waiting;
                self.day = day;
            }
            (Condition::Fresh, Event::Miss { day, .. }) => {
                self.condition = Condition::Carrying { entries: 1 };
                self.day = day;
            }
            (Condition::Settled, Event::Miss { day, .. }) => {
                self.condition = Condition::Carrying { entries: 1 };
                self.day = day;
            }
            (Condition::Waiting, Event::Miss { day, .. }) => {
                self.condition = Condition::Carrying { entries: 2 };
                self.day = day;
            }
            (Condition::Carrying { entries }, Event::Miss { day, .. }) => {
                *entries += 1;
                self.day = day;
            }
            (Condition::Fresh, Event::Move { customer }) => self.customer = customer,
            (Condition::Settled, Event::Move { customer }) => {
                self.condition = Condition::Fresh;
                self.customer = customer;
            }
            (Condition::Waiting | Condition::Carrying { .. }, Event::Move { .. }) => {
                return Err(refusal::OPEN_ENTRIES);
            }
        }
        Ok(())
    }

    // So many entries more are settled by a read.
    fn settle(&mut self, more: u8, day: u16, register: u32)
        requires { self.old.settled + more < 256 }
        ensures { self.new ≡ settling self.old more day register }
    {
        self.settled += more;
        self.condition = Condition::Settled;
        self.day = day;
        self.register = register;
    }

    // How many entries of the book are in use.
    pub(crate) fn in_use(&self) -> usize
        ensures value { result ≡ in_use self.now }
        ensures few { result ≤ self.now.settled + 255 }
    {
        let open = match self.condition {
            Condition::Fresh | Condition::Settled => 0,
            Condition::Waiting => 1,
            Condition::Carrying { entries } => usize::from(entries),
        };
        usize::from(self.settled) + open
    }

    // Whether the next entry is the first since the opening or a move.
    pub(crate) fn is_fresh(&self) -> bool
        ensures { result ≡ is_fresh self.now.condition }
    {
        matches!(self.condition, Condition::Fresh)
    }

    // Whether the book can be the one that the file was opened with.
    fn fits(&self, book: &[Entry]) -> bool
        ensures { result ≡ fits self.now book.now }
    {
        let count = self.in_use();
        if book.len() != usize::from(self.places) || count > book.len() {
            return false;
        }
        book::is_sound(self.dial.turn(), &book[0..count])
    }

    // The file with a book, which is refused where it cannot be that one.
    pub(crate) fn with_own<'f, 'b>(&'f self, book: &'b [Entry]) -> Result<OwnBook<'f, 'b, M, J>, u8>
        ensures { MatchResult result (λ own. (own.file.now ≡ self.now) × (own.book.now ≡ book.now) × (fits self.now book.now ≡ true)) (λ e. (e ≡ not_the_book) × (fits self.now book.now ≡ false)) }
    {
        if !self.fits(book) {
            return Err(refusal::BOOK);
        }
        Ok(OwnBook { file: self, book })
    }
}
