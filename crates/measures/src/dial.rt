// The dial of a meter: the registers that it shows, and how far it went from one read to another.
ghost use Rattle.std.specs.Prelude.{◌≡◌};
ghost use Rattle.measures.specs.Dial.{turn_of, dial_of, advance_on, advance_of, Shows, Advances, Advanced};

use crate::refusal;

// A dial, by how many digits it has.
#[derive(Clone, Copy, PartialEq, Eq, Debug)]
pub enum Dial {
    Four,
    Five,
    Six,
    Seven,
    Eight,
}

// The dial that has so many digits.
impl TryFrom<u32> for Dial {
    type Error = u8;

    ghost try_from_gives = { λ digits r. (r ≡ dial_of digits) × Shows digits r };

    fn try_from(digits: u32) -> Result<Dial, u8>
        ensures answer { result ≡ dial_of digits }
        ensures shows { Shows digits result }
    {
        match digits {
            4 => Ok(Dial::Four),
            5 => Ok(Dial::Five),
            6 => Ok(Dial::Six),
            7 => Ok(Dial::Seven),
            8 => Ok(Dial::Eight),
            _ => Err(refusal::DIGITS),
        }
    }
}

impl Dial {
    // The number at which the dial is back at 0: its registers are those below.
    pub fn turn(self) -> u32
        ensures answer { result ≡ turn_of self }
    {
        match self {
            Dial::Four => 10_000,
            Dial::Five => 100_000,
            Dial::Six => 1_000_000,
            Dial::Seven => 10_000_000,
            Dial::Eight => 100_000_000,
        }
    }

    // How far the dial went from one register to another, past all nines if need be.
    pub fn advance(self, from: u32, to: u32) -> Result<u32, u8>
        ensures answer { result ≡ advance_on self from to }
        ensures brings { Advances self from to result }
    {
        let turn = self.turn();
        if from >= turn || to >= turn {
            return Err(refusal::REGISTER);
        }
        Ok((turn - from + to) % turn)
    }
}

// How far a dial of so many digits went from one register to another.
pub fn advance(digits: u32, from: u32, to: u32) -> Result<u32, u8>
    ensures answer { result ≡ advance_of digits from to }
    ensures brings { Advanced digits from to result }
{
    Dial::try_from(digits)?.advance(from, to)
}

#[cfg(test)]
mod tests {
    use super::*;

    #[test]
    fn past_all_nines(rt: HostRuntime) {
        assert_eq!(rt; advance(5, 99_500, 800), Ok(1_300));
        assert_eq!(rt; advance(4, 9_999, 0), Ok(1));
        assert_eq!(rt; advance(8, 99_999_999, 99_999_998), Ok(99_999_999));
    }

    #[test]
    fn straight_on(rt: HostRuntime) {
        assert_eq!(rt; advance(6, 120, 999_999), Ok(999_879));
        assert_eq!(rt; advance(7, 4_321, 4_321), Ok(0), "equal registers");
    }

    #[test]
    fn refusals(rt: HostRuntime) {
        assert_eq!(rt; advance(3, 0, 0), Err(1));
        assert_eq!(rt; advance(9, 0, 0), Err(1));
        assert_eq!(rt; advance(4, 10_000, 0), Err(3));
        assert_eq!(rt; advance(4, 0, 10_000), Err(3));
        assert_eq!(rt;
            advance(9, 4_294_967_295, 0),
            Err(1),
            "the digits come first"
        );
    }
}
