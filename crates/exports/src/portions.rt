// A total shared out over records that C hands in.
ghost use Rattle.std.specs.Prelude.{◌≡◌, true, is_ok, if◌then◌else◌};
ghost use Rattle.sharing.specs.Sharing.{shared, verdict, SharedOut};
ghost use Rattle.exports.specs.Answers.{answered};
ghost use Rattle.exports.specs.Portions.{portion_takes_part, portion_weight, portion_given, portion_share, nothing_more};
ghost use Rattle.std.proofs.Common.{rules};

use crate::answer::number_of;
use sharing::record::Shares;
use sharing::share::share_out;

// A record that a total is shared out over.
#[repr(C)]
#[derive(Clone, Copy)]
pub struct Portion {
    // 0 for a record that takes no part.
    pub takes_part: u32,
    pub weight: u32,
    pub share: u32,
}

impl Shares for Portion {
    ghost part = { portion_takes_part };

    ghost weighs = { portion_weight };

    ghost given = { portion_given };

    ghost holds = { portion_share };

    ghost same_part = { Prim.search rules };

    ghost same_weight = { Prim.search rules };

    ghost takes = { Prim.search rules };

    fn takes_part(&self) -> bool {
        self.takes_part != 0
    }

    fn weight(&self) -> u32 {
        self.weight
    }

    fn take_share(&mut self, share: u32) {
        self.share = share;
    }
}

// Shares a total out over the records that take part, each by its weight, and answers 0.
pub fn pekstuvna_share_out(total: u32, portions: &mut [Portion]) -> i64
    ensures answer { result ≡ answered (nothing_more (verdict portion_takes_part portion_weight total portions.old)) }
    ensures after { portions.new ≡ (if is_ok (verdict portion_takes_part portion_weight total portions.old) then shared portion_takes_part portion_weight portion_given total portions.old else portions.old) }
    ensures promise { is_ok (verdict portion_takes_part portion_weight total portions.old) ≡ true → SharedOut portion_takes_part portion_weight portion_share total portions.old portions.new }
{
    number_of(share_out(total, portions).map(|()| 0))
}
