// The estimate from a basis, for C.
ghost use Rattle.std.specs.Prelude.{◌≡◌, ◌^◌, ◌<◌, IfOk};
ghost use Rattle.exports.specs.Answers.{answered};
ghost use Rattle.exports.specs.Estimates.{estimated};

use crate::answer::number_of;
use estimating::basis::{MOST_DAYS, MOST_KWH};
use measures::refusal;

// The kWh that so many kWh in so many days give for so many usage days, rounded down.
pub fn pekstuvna_estimate(kwh: u32, days: u32, usage_days: u32) -> i64
    ensures answer { result ≡ answered (estimated kwh days usage_days) }
{
    number_of(estimated(kwh, days, usage_days))
}

fn estimated(kwh: u32, days: u32, usage_days: u32) -> Result<u64, u8>
    ensures value { result ≡ estimated kwh days usage_days }
    ensures few { IfOk result (λ n. n < 2 ^ 63) }
{
    if kwh > MOST_KWH || !(1..=u32::from(MOST_DAYS)).contains(&days) {
        return Err(refusal::BOUNDS);
    }
    Ok(u64::from(kwh) * u64::from(usage_days) / u64::from(days))
}
