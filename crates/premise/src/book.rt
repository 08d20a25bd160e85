// The entries of a book: what the calls read from them and write.
ghost use Rattle.std.specs.Prelude.{◌≡◌, ◌^◌, ◌<◌, ◌≤◌, length};
ghost use Rattle.measures.specs.Entry.{total_kwh, total_usage_days};
ghost use Rattle.premise.specs.Books.{is_estimated, any_estimated, corrections, sound_entry, sound};

use measures::entry::{Entry, Kind};
use sharing::entry::is_put_off;

// The most days, and the most usage days, of an entry in use.
pub(crate) const MOST_DAYS: u8 = 109;

// Whether an entry of this kind holds an estimate.
pub(crate) fn is_estimated(kind: Kind) -> bool
    ensures { result ≡ is_estimated kind }
{
    kind == Kind::Estimated
}

fn is_sound_entry(turn: u32, e: &Entry) -> bool
    ensures { result ≡ sound_entry turn e.now }
{
    e.days <= MOST_DAYS && e.usage_days <= MOST_DAYS && e.kwh < turn
}

// Whether each entry is one that a call could have written on a dial that turns at `turn`.
pub(crate) fn is_sound(turn: u32, entries: &[Entry]) -> bool
    ensures { result ≡ sound turn entries.now }
{
    entries.iter().all(|e| is_sound_entry(turn, e))
}

// Entries that stand one after the other in a book, no more of them than a book has places.
#[derive(Clone, Copy)]
pub(crate) struct Run<'a> {
    pub(crate) entries: &'a [Entry],
    ghost few: { length entries.now ≤ 255 },
}

impl Run<'_> {
    // Their kWh.
    pub(crate) fn sum_kwh(&self) -> u64
        ensures value { result ≡ total_kwh self.now.entries.now }
        ensures few { result < 2 ^ 41 }
    {
        let mut sum: u64 = 0;
        for e in self.entries {
            sum += u64::from(e.kwh);
        }
        sum
    }

    // Their usage days.
    pub(crate) fn usage_days(&self) -> u32
        ensures { result ≡ total_usage_days self.now.entries.now }
    {
        self.entries.iter().map(|e| u32::from(e.usage_days)).sum()
    }

    // Whether one of them is an estimate.
    pub(crate) fn has_estimate(&self) -> bool
        ensures { result ≡ any_estimated self.now.entries.now }
    {
        self.entries.iter().any(|e| is_estimated(e.kind))
    }

    // How many of them take part when an advance is shared out.
    pub(crate) fn count_corrections(&self) -> u8
        ensures { result ≡ corrections self.now.entries.now }
    {
        self.entries.iter().filter(|e| !is_put_off(e.kind)).count() as u8
    }
}
