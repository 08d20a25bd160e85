// A rate as a field of a line names it.
ghost use Rattle.std.specs.Prelude.{◌≡◌};
ghost use Rattle.fields.specs.Rates.{rate_of, Names};

use measures::rate::Rate;

const RATES: [Rate; 9] = [
    Rate::E12,
    Rate::Et1,
    Rate::Et2,
    Rate::EtSp,
    Rate::Ect1R,
    Rate::Ect2,
    Rate::NrS,
    Rate::NrL,
    Rate::Other,
];

// The rate whose name the field is.
pub fn rate_of(field: &[u8]) -> Option<Rate>
    ensures answer { result ≡ rate_of field.now }
    ensures name { Names field.now result }
{
    named(field)
}

fn named(field: &[u8]) -> Option<Rate>
    ensures { result ≡ rate_of field.now }
{
    RATES
        .iter()
        .copied()
        .find(|rate| field == rate.name().as_bytes())
}

#[cfg(test)]
mod tests {
    use super::*;

    #[test]
    fn names(rt: HostRuntime) {
        assert_eq!(rt; rate_of(b"E-12"), Some(Rate::E12));
        assert_eq!(rt; rate_of(b"ET-SP"), Some(Rate::EtSp));
        assert_eq!(rt; rate_of(b"ECT-1R"), Some(Rate::Ect1R));
        assert_eq!(rt; rate_of(b"OTHER"), Some(Rate::Other));
    }

    #[test]
    fn no_names(rt: HostRuntime) {
        assert_eq!(rt; rate_of(b""), None);
        assert_eq!(rt; rate_of(b"e-12"), None);
        assert_eq!(rt; rate_of(b"E-1"), None);
        assert_eq!(rt; rate_of(b"E-12 "), None);
        assert_eq!(rt; rate_of(b"E-123"), None);
    }
}
