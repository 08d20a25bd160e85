// The entries of a book as records that an advance is shared out over.
ghost use Rattle.std.specs.Prelude.{◌≡◌};
ghost use Rattle.sharing.specs.Entries.{is_put_off, entry_part, entry_weight, entry_given, entry_kwh};
ghost use Rattle.std.proofs.Common.{rules};

use crate::record::Shares;
use measures::entry::{Entry, Kind};

// Whether an entry of this kind waits for the next one to take over its days.
pub fn is_put_off(kind: Kind) -> bool
    ensures { result ≡ is_put_off kind }
{
    kind == Kind::PutOff
}

// An entry takes its part of an advance by its usage days, and is corrected; a put-off entry takes none.
impl Shares for Entry {
    ghost part = { entry_part };

    ghost weighs = { entry_weight };

    ghost given = { entry_given };

    ghost holds = { entry_kwh };

    ghost same_part = { Prim.search rules };

    ghost same_weight = { Prim.search rules };

    ghost takes = { Prim.search rules };

    fn takes_part(&self) -> bool {
        !is_put_off(self.kind)
    }

    fn weight(&self) -> u32 {
        u32::from(self.usage_days)
    }

    fn take_share(&mut self, share: u32) {
        if !is_put_off(self.kind) {
            self.kind = Kind::Corrected;
        }
        self.rung = 0;
        self.kwh = share;
    }
}
