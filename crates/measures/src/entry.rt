// The entries of a book: one billing period of a premise each.
ghost use Rattle.std.specs.Prelude.{◌≡◌};
ghost use Rattle.measures.specs.Entry.{kind_number};

// How an entry was billed.
#[derive(Clone, Copy, PartialEq, Eq, Debug)]
pub enum Kind {
    Actual,
    TrueUp,
    Estimated,
    PutOff,
    Corrected,
}

// The number that stands for a kind, from 1 to 5.
impl From<Kind> for u8 {
    ghost from_gives = { λ kind r. r ≡ kind_number kind };

    fn from(kind: Kind) -> u8 {
        match kind {
            Kind::Actual => 1,
            Kind::TrueUp => 2,
            Kind::Estimated => 3,
            Kind::PutOff => 4,
            Kind::Corrected => 5,
        }
    }
}

// One billing period of a premise. Its types are narrow, so that the printed line of an entry has at most 44 bytes.
#[derive(Clone, Copy, PartialEq, Eq, Debug)]
pub struct Entry {
    pub customer: u32,
    // The last day of the period.
    pub end_day: u16,
    // How long the period is.
    pub days: u8,
    // Its days and those of a put-off entry directly before it; 0 for a put-off entry.
    pub usage_days: u8,
    pub kind: Kind,
    // The rung that an estimated entry was found on; 0 for any other.
    pub rung: u8,
    // Whether this is the first entry after the opening or a move.
    pub initial: bool,
    pub kwh: u32,
}

impl Entry {
    // What stands at a place of a book that is not in use.
    pub const BLANK: Entry = Entry {
        customer: 0,
        end_day: 0,
        days: 0,
        usage_days: 0,
        kind: Kind::Actual,
        rung: 0,
        initial: false,
        kwh: 0,
    };
}

#[cfg(test)]
mod tests {
    use super::*;

    #[test]
    fn numbers(rt: HostRuntime) {
        assert_eq!(rt; u8::from(Kind::Actual), 1);
        assert_eq!(rt; u8::from(Kind::TrueUp), 2);
        assert_eq!(rt; u8::from(Kind::Estimated), 3);
        assert_eq!(rt; u8::from(Kind::PutOff), 4);
        assert_eq!(rt; u8::from(Kind::Corrected), 5);
    }
}
