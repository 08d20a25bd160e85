// A method that always answers the same basis, on rung 90.
ghost use Rattle.std.specs.Prelude.{◌≡◌, ◌≤◌, Some, MatchResult};
ghost use Rattle.std.proofs.Common.{rules};

use crate::basis::{Basis, MOST_DAYS, MOST_KWH, Question};
use crate::method::{EnergyMethod, Method};
use measures::entry::Entry;
use measures::refusal;

// The rung on which a fixed basis stands.
pub const FIXED_RUNG: u8 = 90;

#[derive(Clone, Copy, Debug)]
pub struct Fixed {
    kwh: u32,
    days: u16,
    ghost kwh_high: { kwh ≤ 1000000000 },
    ghost days_low: { 1 ≤ days },
    ghost days_high: { days ≤ 999 },
}

impl Fixed {
    // The method that answers so many kWh in so many days, at most 1,000,000,000 kWh in 1 to 999 days.
    pub fn new(kwh: u32, days: u16) -> Result<Fixed, u8>
        ensures answer { MatchResult result (λ f. (f.kwh ≡ kwh) × (f.days ≡ days)) (λ e. (e ≡ 30) × (kwh ≤ 1000000000 → 1 ≤ days → days ≤ 999 → ⊥)) }
    {
        if kwh > MOST_KWH || days < 1 || days > MOST_DAYS {
            return Err(refusal::BOUNDS);
        }
        Ok(Fixed { kwh, days })
    }
}

impl Method for Fixed {
    type Entry = Entry;

    type Question = Question;

    type Answer = Basis;

    ghost table = { λ m _ _. Some (record { rung = 90; kwh = m.kwh; days = m.days }) };

    fn answer(&self, _book: &[Entry], _question: &Question) -> Option<Basis> {
        Some(Basis {
            rung: FIXED_RUNG,
            kwh: self.kwh,
            days: self.days,
        })
    }
}

impl EnergyMethod for Fixed {
    ghost lawful = { Prim.search rules };
}

#[cfg(test)]
mod tests {
    use super::*;

    #[test]
    fn takes_the_limits(rt: HostRuntime) {
        assert!(rt; Fixed::new(1_000_000_000, 999).is_ok());
        assert!(rt; Fixed::new(0, 1).is_ok());
    }

    #[test]
    fn refuses_beyond_the_limits(rt: HostRuntime) {
        assert_eq!(rt; Fixed::new(1_000_000_001, 30).err(), Some(30));
        assert_eq!(rt; Fixed::new(350, 0).err(), Some(30));
        assert_eq!(rt; Fixed::new(350, 1_000).err(), Some(30));
    }
}
