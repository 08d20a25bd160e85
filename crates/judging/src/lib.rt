// Whether an advance is considerably higher than what was estimated: the interface of a judgement, and three makes.
#![tactic(auto)]

ghost use Rattle.std.specs.Prelude.{◌≡◌, ℕ, Bool, false};
ghost use Rattle.judging.specs.Judgements.{judged, half_higher, day_higher, by_day_of};
ghost use Rattle.std.proofs.Common.{rules};

use measures::refusal;

// An advance of a dial, the open sum before it, and the usage days that it was used in.
pub trait Judgement {
    // what the judgement means: whether the advance is considerably higher than the open sum
    ghost higher: { Self → ℕ → ℕ → ℕ → Bool };

    // What the judgement says. It writes nothing.
    fn is_higher(&self, advance: u64, open_sum: u64, usage_days: u64) -> bool
        ensures { result ≡ higher self.now advance open_sum usage_days };

    // beyond 8 digits of the advance, 11 of the open sum or 5 of the usage days the answer is no
    ghost bounded: { (j : Self) (a u w : ℕ) → judged a u w ≡ false → higher j a u w ≡ false };
}

// Whether three figures are within the bounds of a judgement.
fn is_judged(advance: u64, open_sum: u64, usage_days: u64) -> bool
    ensures { result ≡ judged advance open_sum usage_days }
{
    advance < 100_000_000 && open_sum < 100_000_000_000 && usage_days < 100_000
}

// Higher by more than half: twice the advance is above three times the open sum.
#[derive(Clone, Copy, Debug)]
pub struct ByHalf;

impl Judgement for ByHalf {
    ghost higher = { λ _ a u w. half_higher a u w };

    ghost bounded = { Prim.search rules };

    fn is_higher(&self, advance: u64, open_sum: u64, usage_days: u64) -> bool {
        is_judged(advance, open_sum, usage_days) && 2 * advance > 3 * open_sum
    }
}

// Higher by more than so many kWh for each usage day.
#[derive(Clone, Copy, PartialEq, Eq, Debug)]
pub struct ByDay {
    limit: u16,
}

impl ByDay {
    // The judgement with a limit of 1 to 10,000 kWh a day.
    pub fn new(limit: u32) -> Result<ByDay, u8>
        ensures answer { result ≡ by_day_of limit }
    {
        if limit < 1 || limit > 10_000 {
            return Err(refusal::BOUNDS);
        }
        Ok(ByDay {
            limit: limit as u16,
        })
    }
}

impl Judgement for ByDay {
    ghost higher = { λ j a u w. day_higher j.limit a u w };

    ghost bounded = { Prim.search rules };

    fn is_higher(&self, advance: u64, open_sum: u64, usage_days: u64) -> bool {
        is_judged(advance, open_sum, usage_days)
            && advance > open_sum + u64::from(self.limit) * usage_days
    }
}

// Never higher.
#[derive(Clone, Copy, Debug)]
pub struct Never;

impl Judgement for Never {
    ghost higher = { λ _ _ _ _. false };

    ghost bounded = { Prim.search rules };

    fn is_higher(&self, _advance: u64, _open_sum: u64, _usage_days: u64) -> bool {
        false
    }
}

#[cfg(test)]
mod tests {
    use super::*;
    use std::test::Fail;

    #[test]
    fn by_half(rt: HostRuntime) {
        assert!(rt; !ByHalf.is_higher(150, 100, 30));
        assert!(rt; ByHalf.is_higher(151, 100, 30));
        assert!(rt; ByHalf.is_higher(1, 0, 30));
        assert!(rt; !ByHalf.is_higher(0, 0, 30));
        assert!(rt; ByHalf.is_higher(99_999_999, 0, 99_999));
        assert!(rt;
            !ByHalf.is_higher(100_000_000, 0, 30),
            "9 digits of the advance"
        );
        assert!(rt; !ByHalf.is_higher(1, 0, 100_000), "6 digits of the days");
    }

    #[test]
    fn by_day(rt: HostRuntime) -> Result<(), Fail> {
        let judgement = ByDay::new(2)?;
        assert!(rt; !judgement.is_higher(160, 100, 30));
        assert!(rt; judgement.is_higher(161, 100, 30));
        assert_eq!(rt; ByDay::new(0), Err(30));
        assert_eq!(rt; ByDay::new(10_001), Err(30));
        assert!(rt; ByDay::new(10_000).is_ok());
        Ok(())
    }

    #[test]
    fn never(rt: HostRuntime) {
        assert!(rt; !Never.is_higher(99_999_999, 0, 1));
    }
}
