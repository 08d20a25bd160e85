// A premise's file with the book that its entries stand in.
ghost use Rattle.std.specs.Prelude.{◌≡◌, true, take};
ghost use Rattle.premise.specs.Books.{waiting_days};
ghost use Rattle.premise.specs.Files.{in_use, fits, open_run};

use crate::book::Run;
use crate::file::PremiseFile;
use measures::entry::Entry;
use sharing::entry::is_put_off;

// A file, and a book that can be the one that it was opened with.
#[derive(Drop)]
pub(crate) struct OwnBook<'f, 'b, M, J> {
    pub(crate) file: &'f PremiseFile<M, J>,
    pub(crate) book: &'b [Entry],
    ghost fits: { fits file.now book.now ≡ true },
}

impl<'b, M, J> OwnBook<'_, 'b, M, J> {
    // The entries in use.
    pub(crate) fn entries(&self) -> &'b [Entry]
        ensures { result.now ≡ take (in_use self.now.file.now) self.now.book.now }
    {
        &self.book[..self.file.in_use()]
    }

    // The open entries.
    pub(crate) fn open_run(&self) -> Run<'b>
        ensures { result.entries.now ≡ open_run self.now.file.now self.now.book.now }
    {
        Run {
            entries: &self.book[usize::from(self.file.settled)..self.file.in_use()],
        }
    }

    // The entries up to the last accepted read.
    pub(crate) fn settled_run(&self) -> Run<'b>
        ensures { result.entries.now ≡ take self.now.file.now.settled self.now.book.now }
    {
        Run {
            entries: &self.book[..usize::from(self.file.settled)],
        }
    }

    // The days of a put-off entry at the end of those in use, 0 where there is none.
    pub(crate) fn waiting_days(&self) -> u8
        ensures { result ≡ waiting_days (in_use self.now.file.now) self.now.book.now }
    {
        match self.entries().last() {
            Some(last) if is_put_off(last.kind) => last.days,
            _ => 0,
        }
    }
}
