// One total shared out over a list of records by running totals.
ghost use Rattle.std.specs.Prelude.{◌≡◌, ℕ, ◌≤◌, true, length, is_ok, if◌then◌else◌};
ghost use Rattle.sharing.specs.Sharing.{sum_of, running, shared_from, shared, weighed, verdict, SharedOut};
ghost use Rattle.std.proofs.Common.{rules};

use crate::record::Shares;
use measures::refusal;

// The most records that a total is shared out over.
pub const MOST_RECORDS: usize = 3_360;

// The greatest total.
pub const MOST_TOTAL: u32 = 1_000_000_000;

// The greatest weight of a record that takes part.
pub const MOST_WEIGHT: u32 = 1_000_000;

// Shares a total out over the records that take part, each by its weight; the others stay as they are.
pub fn share_out<R: Shares>(total: u32, records: &mut [R]) -> Result<(), u8>
    ensures answer { result ≡ verdict R.part R.weighs total records.old }
    ensures after { records.new ≡ (if is_ok result then shared R.part R.weighs R.given total records.old else records.old) }
    ensures promise { is_ok result ≡ true → SharedOut R.part R.weighs R.holds total records.old records.new }
{
    if total > MOST_TOTAL || records.len() > MOST_RECORDS {
        return Err(refusal::SHARING_LIMITS);
    }
    let all = weigh(records).ok_or(refusal::SHARING_LIMITS)?;
    if all == 0 && total > 0 {
        return Err(refusal::NO_WEIGHT);
    }
    give(total, all, records);
    Ok(())
}

// The sum of the weights that take part; none where one of them is beyond its limit.
fn weigh<R: Shares>(records: &[R]) -> Option<u64>
    requires { length records.now ≤ 3360 }
    ensures { result ≡ weighed R.part R.weighs records.now }
{
    let mut sum: u64 = 0;
    for record in records {
        if record.takes_part() {
            let weight = record.weight();
            if weight > MOST_WEIGHT {
                return None;
            }
            sum += u64::from(weight);
        }
    }
    Some(sum)
}

// Gives each record that takes part its share of a total; `all` is the sum of their weights.
fn give<R: Shares>(total: u32, all: u64, records: &mut [R])
    requires total { total ≤ 1000000000 }
    requires weights { all ≡ sum_of R.part R.weighs records.old }
    requires limit { all ≤ 3360000000 }
    ensures { records.new ≡ shared R.part R.weighs R.given total records.old }
{
    let mut weighed: u64 = 0;
    let mut handed: u32 = 0;
    for r in records.iter_mut() {
        let due = r.takes_part();
        if due {
            let weight = u64::from(r.weight());
            let up_to = running_total(total, all, weighed + weight);
            r.take_share(up_to - handed);
            weighed += weight;
            handed = up_to;
        }
    }
}

// What all records up to and including one get together: the exact part, rounded down.
fn running_total(total: u32, all: u64, weighed: u64) -> u32
    requires total { total ≤ 1000000000 }
    requires part { weighed ≤ all }
    requires limit { all ≤ 3360000000 }
    ensures { result ≡ running total all weighed }
{
    if all == 0 {
        return 0;
    }
    (u64::from(total) * weighed / all) as u32
}

#[cfg(test)]
mod tests {
    use super::*;

    // A month that takes part or not, by its usage days.
    #[derive(Clone, Copy, PartialEq, Eq, Debug)]
    struct Month {
        missed: bool,
        usage_days: u32,
        kwh: u32,
    }

    impl Shares for Month {
        ghost part = { λ m. m.missed };

        ghost weighs = { λ m. m.usage_days };

        ghost given = { λ m s. record { missed = m.missed; usage_days = m.usage_days; kwh = s } };

        ghost holds = { λ m. m.kwh };

        ghost same_part = { Prim.search rules };

        ghost same_weight = { Prim.search rules };

        ghost takes = { Prim.search rules };

        fn takes_part(&self) -> bool {
            self.missed
        }

        fn weight(&self) -> u32 {
            self.usage_days
        }

        fn take_share(&mut self, share: u32) {
            self.kwh = share;
        }
    }

    const fn missed(usage_days: u32, kwh: u32) -> Month {
        Month {
            missed: true,
            usage_days,
            kwh,
        }
    }

    const fn read(usage_days: u32, kwh: u32) -> Month {
        Month {
            missed: false,
            usage_days,
            kwh,
        }
    }

    #[test]
    fn by_usage_days(rt: HostRuntime) {
        let mut year = [missed(30, 0), missed(30, 7), missed(31, 0)];
        assert_eq!(rt; share_out(100, &mut year), Ok(()));
        assert_eq!(rt; year, [missed(30, 32), missed(30, 33), missed(31, 35)]);
        let mut one = [missed(9, 5)];
        assert_eq!(rt; share_out(1_000_000_000, &mut one), Ok(()));
        assert_eq!(rt; one, [missed(9, 1_000_000_000)], "one record");
    }

    #[test]
    fn others_stay(rt: HostRuntime) {
        let mut year = [missed(0, 9), read(4_000_000, 8), missed(1, 9), missed(2, 9)];
        assert_eq!(rt; share_out(10, &mut year), Ok(()));
        assert_eq!(rt;
            year,
            [missed(0, 0), read(4_000_000, 8), missed(1, 3), missed(2, 7)]
        );
    }

    #[test]
    fn nothing_to_weigh_by(rt: HostRuntime) {
        let mut year = [missed(0, 5), read(3, 6), missed(0, 7)];
        assert_eq!(rt; share_out(1, &mut year), Err(28));
        assert_eq!(rt; year, [missed(0, 5), read(3, 6), missed(0, 7)]);
        assert_eq!(rt; share_out(0, &mut year), Ok(()));
        assert_eq!(rt; year, [missed(0, 0), read(3, 6), missed(0, 0)]);
        let mut none: [Month; 0] = [];
        assert_eq!(rt; share_out(1, &mut none), Err(28));
        assert_eq!(rt; share_out(0, &mut none), Ok(()));
    }

    #[test]
    fn at_the_limits(rt: HostRuntime) {
        let mut most = [missed(1_000_000, 0); 3_360];
        assert_eq!(rt; share_out(1_000_000_000, &mut most), Ok(()));
        assert_eq!(rt; most[0].kwh, 297_619);
        assert_eq!(rt; most[3_359].kwh, 297_620);
        let mut sum: u64 = 0;
        for month in most.iter() {
            sum = sum.saturating_add(u64::from(month.kwh));
        }
        assert_eq!(rt; sum, 1_000_000_000);
    }

    #[test]
    fn beyond_the_limits(rt: HostRuntime) {
        let mut year = [missed(1_000_001, 5), missed(3, 6)];
        assert_eq!(rt; share_out(1, &mut year), Err(29), "a weight");
        assert_eq!(rt; year, [missed(1_000_001, 5), missed(3, 6)]);
        let mut pair = [missed(0, 5), missed(0, 6)];
        assert_eq!(rt;
            share_out(1_000_000_001, &mut pair),
            Err(29),
            "a total, before no weight"
        );
        assert_eq!(rt; pair, [missed(0, 5), missed(0, 6)]);
        let mut many = [missed(0, 4); 3_361];
        assert_eq!(rt; share_out(0, &mut many), Err(29), "a list");
        assert_eq!(rt; many[0].kwh, 4);
    }
}
