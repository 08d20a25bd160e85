// Months without a read, and the advance that is shared out over them.
ghost use Rattle.std.specs.Prelude.{◌≡◌, ◌^◌, ◌<◌, IfOk};
ghost use Rattle.shareout.specs.Months.{month_part, month_weight, month_given, month_kwh, settled, settled_months, kwh_of};
ghost use Rattle.std.proofs.Common.{rules};

use measures::dial;
use sharing::record::Shares;
use sharing::share;

#[derive(Clone, Copy, PartialEq, Eq, Debug)]
pub struct Month {
    pub usage_days: u32,
    pub kwh: u32,
}

impl Shares for Month {
    ghost part = { month_part };

    ghost weighs = { month_weight };

    ghost given = { month_given };

    ghost holds = { month_kwh };

    ghost same_part = { Prim.search rules };

    ghost same_weight = { Prim.search rules };

    ghost takes = { Prim.search rules };

    fn takes_part(&self) -> bool {
        true
    }

    fn weight(&self) -> u32 {
        self.usage_days
    }

    fn take_share(&mut self, share: u32) {
        self.kwh = share;
    }
}

// Shares the advance from one register to another out over the months, and answers it.
#[tactic(auto, using(crate::proofs::Sums::shares_are_kwh))]
pub fn settle(digits: u32, from: u32, to: u32, months: &mut [Month]) -> Result<u32, u8>
    ensures answer { result ≡ settled digits from to months.old }
    ensures after { months.new ≡ settled_months result months.old }
    ensures promise { IfOk result (λ advance. kwh_of months.new ≡ advance) }
{
    let advance = dial::advance(digits, from, to)?;
    share::share_out(advance, months)?;
    Ok(advance)
}

// The kWh of all months together.
pub(crate) fn sum(months: &[Month]) -> u64
    requires { kwh_of months.now < 2 ^ 64 }
    ensures { result ≡ kwh_of months.now }
{
    months.iter().map(|month| u64::from(month.kwh)).sum()
}
