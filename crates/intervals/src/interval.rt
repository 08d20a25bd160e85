// One interval of the meter: its Wh, the weight that it was filled by, and its mark.
ghost use Rattle.std.specs.Prelude.{◌≡◌};
ghost use Rattle.intervals.specs.Intervals.{mark_number, mark_of, valid, missing, lacking, with_share, weight_of, wh_of};
ghost use Rattle.std.proofs.Common.{rules};

use sharing::record::Shares;

// The most Wh of a valid interval, and of a slot of a reference day.
pub const MOST_WH: u32 = 1_000_000;

// How an interval came by its Wh.
#[derive(Clone, Copy, PartialEq, Eq, Debug)]
pub enum Mark {
    Valid,
    Missing,
    Filled,
}

// The number that stands for a mark, from 0 to 2.
impl From<Mark> for u8 {
    ghost from_gives = { λ mark r. r ≡ mark_number mark };

    fn from(mark: Mark) -> u8 {
        match mark {
            Mark::Valid => 0,
            Mark::Missing => 1,
            Mark::Filled => 2,
        }
    }
}

// The mark that a number stands for: 0, 1, and any other for a filled interval.
impl From<u32> for Mark {
    ghost from_gives = { λ number r. r ≡ mark_of number };

    fn from(number: u32) -> Mark {
        match number {
            0 => Mark::Valid,
            1 => Mark::Missing,
            _ => Mark::Filled,
        }
    }
}

#[derive(Clone, Copy, PartialEq, Eq, Debug)]
pub struct Interval {
    pub wh: u32,
    pub weight: u32,
    pub mark: Mark,
}

impl Interval {
    // What stands at a place of a list that is not in use.
    pub const BLANK: Interval = Interval {
        wh: 0,
        weight: 0,
        mark: Mark::Valid,
    };

    pub fn is_valid(&self) -> bool
        ensures answer { result ≡ valid self.now }
    {
        self.mark == Mark::Valid
    }

    pub fn is_missing(&self) -> bool
        ensures answer { result ≡ missing self.now }
    {
        self.mark == Mark::Missing
    }
}

// An interval takes part unless it is valid, so that a filled one still does.
impl Shares for Interval {
    ghost part = { lacking };

    ghost weighs = { weight_of };

    ghost given = { with_share };

    ghost holds = { wh_of };

    ghost same_part = { Prim.search rules };

    ghost same_weight = { Prim.search rules };

    ghost takes = { Prim.search rules };

    fn takes_part(&self) -> bool {
        !self.is_valid()
    }

    fn weight(&self) -> u32 {
        self.weight
    }

    fn take_share(&mut self, share: u32) {
        self.wh = share;
        if !self.is_valid() {
            self.mark = Mark::Filled;
        }
    }
}

#[cfg(test)]
mod tests {
    use super::*;

    #[test]
    fn numbers(rt: HostRuntime) {
        assert_eq!(rt; u8::from(Mark::Valid), 0);
        assert_eq!(rt; u8::from(Mark::Missing), 1);
        assert_eq!(rt; u8::from(Mark::Filled), 2);
        assert_eq!(rt; Mark::from(0), Mark::Valid);
        assert_eq!(rt; Mark::from(1), Mark::Missing);
        assert_eq!(rt; Mark::from(2), Mark::Filled);
        assert_eq!(rt; Mark::from(4_294_967_295), Mark::Filled);
    }
}
