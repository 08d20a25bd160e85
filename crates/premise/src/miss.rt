// A period closed without a read.
ghost use Rattle.std.specs.Prelude.{◌≡◌};
ghost use Rattle.premise.specs.Files.{misses};

use crate::condition::Condition;
use crate::event::Event;
use crate::file::{PUT_OFF_BELOW, PremiseFile};
use estimating::method::EnergyMethod;
use judging::Judgement;
use measures::entry::{Entry, Kind};

impl<M: EnergyMethod, J: Judgement> PremiseFile<M, J> {
    // Closes a period without a read, and answers the kind, rung and kWh of its entry.
    pub(crate) fn close_missed(&mut self, book: &mut [Entry], day: u32) -> Result<(u8, u8, u32), u8>
        ensures { (result, self.new, book.new) ≡ misses M.Method.table self.old book.old day }
    {
        let period = self.missed_period(book, day)?;
        let end_day = period.day;
        let days = period.days();
        let place = self.in_use();
        let initial = self.is_fresh();
        let entry = match (&self.condition, days, initial) {
            (Condition::Fresh, short, true) if short < PUT_OFF_BELOW => period.putting_off(),
            _ => {
                let (rung, kwh) = period.figure()?;
                period.closing(Kind::Estimated, rung, kwh)
            }
        };
        book[place] = entry;
        self.enter(Event::Miss { day: end_day, days }).unwrap();
        Ok((u8::from(entry.kind), entry.rung, entry.kwh))
    }
}
