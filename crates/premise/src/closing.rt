// The period that a call closes, and why none may be closed.
ghost use Rattle.premise.specs.Files.{may_close, may_miss, may_read};
ghost use Rattle.premise.specs.Closings.{GivesPeriod, GivesPeriodBy};

use crate::file::PremiseFile;
use crate::own::OwnBook;
use crate::period::Period;
use calendar::LAST_DAY;
use measures::entry::Entry;
use measures::refusal;

// The most days of a period.
const MOST_PERIOD: u16 = 99;

impl<'f, 'b, M, J> OwnBook<'f, 'b, M, J> {
    // The period that a call closes on a day.
    fn closes(self, day: u16) -> Result<Period<'f, 'b, M, J>, u8>
        ensures { GivesPeriod (may_close self.entry.file.now self.entry.book.now day) self.entry.file.now self.entry.book.now day result }
    {
        let closed = self.file.day;
        if day <= closed || day - closed > MOST_PERIOD {
            return Err(refusal::PERIOD);
        }
        if self.file.in_use() >= self.book.len() {
            return Err(refusal::FULL);
        }
        Ok(Period { own: self, day })
    }
}

impl<M, J> PremiseFile<M, J> {
    // The period that may be closed on a day without a read.
    pub(crate) fn missed_period<'f, 'b>(
        &'f self,
        book: &'b [Entry],
        day: u32,
    ) -> Result<Period<'f, 'b, M, J>, u8>
        ensures { GivesPeriod (may_miss self.now book.now day) self.now book.now day result }
    {
        let own = self.with_own(book)?;
        if day > LAST_DAY {
            return Err(refusal::DAY);
        }
        own.closes(day as u16)
    }

    // The period that may be closed by a read, and the advance of its register.
    pub(crate) fn read_period<'f, 'b>(
        &'f self,
        book: &'b [Entry],
        day: u32,
        register: u32,
    ) -> Result<(Period<'f, 'b, M, J>, u32), u8>
        ensures { GivesPeriodBy (may_read self.now book.now day register) self.now book.now day result }
    {
        let own = self.with_own(book)?;
        if day > LAST_DAY {
            return Err(refusal::DAY);
        }
        let advance = self.dial.advance(self.register, register)?;
        Ok((own.closes(day as u16)?, advance))
    }
}
