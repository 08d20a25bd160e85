// A period closed by a read.
ghost use Rattle.std.specs.Prelude.{◌≡◌, ◌<◌, true, length};
ghost use Rattle.premise.specs.declared.period.Billing.TheVariants.{Shared};
ghost use Rattle.premise.specs.Files.{in_use, fits, next_period, billing, billed, reads};

use crate::event::Event;
use crate::file::PremiseFile;
use crate::own::OwnBook;
use crate::period::{Billing, Period};
use judging::Judgement;
use measures::entry::{Entry, Kind};
use sharing::share::share_out;

impl<M, J: Judgement> PremiseFile<M, J> {
    // Shares an advance out over the open entries and the entry of the read.
    fn share_advance(&self, book: &mut [Entry], day: u16, advance: u32) -> (u8, u32, u8)
        requires fits { fits self.now book.old ≡ true }
        requires period { next_period self.now day ≡ true }
        requires room { in_use self.now < length book.old }
        requires dial { advance < 100000000 }
        ensures { (result, book.new) ≡ billed Shared self.now book.old day advance }
    {
        let first = usize::from(self.settled);
        let place = self.in_use();
        let period = Period {
            own: OwnBook { file: self, book },
            day,
        };
        let corrections = period.own.open_run().count_corrections();
        let entry = period.closing(Kind::Actual, 0, 0);
        book[place] = entry;
        share_out(advance, &mut book[first..place + 1]).unwrap();
        book[place].kind = Kind::Actual;
        (u8::from(Kind::Actual), book[place].kwh, corrections)
    }

    // Closes a period by a read, and answers the kind and kWh of its entry and how many entries it corrected.
    pub(crate) fn close_read(
        &mut self,
        book: &mut [Entry],
        day: u32,
        register: u32,
    ) -> Result<(u8, u32, u8), u8>
        ensures { (result, self.new, book.new) ≡ reads J.Judgement.higher self.old book.old day register }
    {
        let (period, advance) = self.read_period(book, day, register)?;
        let end_day = period.day;
        let answer = match period.billing(advance) {
            Billing::Alone(kind, kwh) => {
                let entry = period.closing(kind, 0, kwh);
                book[self.in_use()] = entry;
                (u8::from(kind), kwh, 0)
            }
            Billing::Shared => self.share_advance(book, end_day, advance),
        };
        self.enter(Event::Read {
            day: end_day,
            register,
        })
        .unwrap();
        Ok(answer)
    }
}
