// A number as a field of a line writes it.
ghost use Rattle.std.specs.Prelude.{◌≡◌};
ghost use Rattle.fields.specs.Numbers.{number_of, Tells};

// The number of 32 bits that the field writes: digits alone, and no leading zero.
pub fn number_of(field: &[u8]) -> Option<u32>
    ensures answer { result ≡ number_of field.now }
    ensures text { Tells field.now result }
{
    written(field)
}

fn written(field: &[u8]) -> Option<u32>
    ensures { Tells field.now result }
{
    if let [] | [b'0', _, ..] = field {
        return None;
    }
    let mut number: u32 = 0;
    for byte in field {
        if !byte.is_ascii_digit() {
            return None;
        }
        let digit = u32::from(*byte - b'0');
        number = number.checked_mul(10)?.checked_add(digit)?;
    }
    Some(number)
}

#[cfg(test)]
mod tests {
    use super::*;

    #[test]
    fn numbers(rt: HostRuntime) {
        assert_eq!(rt; number_of(b"0"), Some(0));
        assert_eq!(rt; number_of(b"9"), Some(9));
        assert_eq!(rt; number_of(b"36524"), Some(36_524));
        assert_eq!(rt; number_of(b"4294967295"), Some(4_294_967_295));
    }

    #[test]
    fn no_numbers(rt: HostRuntime) {
        assert_eq!(rt; number_of(b""), None);
        assert_eq!(rt; number_of(b"00"), None);
        assert_eq!(rt; number_of(b"07"), None);
        assert_eq!(rt; number_of(b"+7"), None);
        assert_eq!(rt; number_of(b"7 "), None);
        assert_eq!(rt; number_of(b"7a"), None);
        assert_eq!(rt; number_of(b"7/"), None);
        assert_eq!(rt; number_of(b"7:"), None);
        assert_eq!(rt; number_of(b"4294967296"), None);
        assert_eq!(rt; number_of(b"42949672950"), None);
    }
}
