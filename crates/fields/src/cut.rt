// Bytes parted at a separator.
ghost use Rattle.std.specs.Prelude.{◌≡◌, ◌==◌};
ghost use Rattle.std.specs.List.{position};
ghost use Rattle.fields.specs.Pieces.{Cut};

// What stands before the first separator, and what behind it; none where there is no separator.
pub fn cut<'a>(bytes: &'a [u8], separator: u8) -> Option<(&'a [u8], &'a [u8])>
    ensures { Cut separator bytes.now result }
{
    let at = place_of(bytes, separator)?;
    Some((&bytes[..at], &bytes[at + 1..]))
}

// Where the first separator stands. Not inlined: within a reader of lines, what it counts would be kept in memory.
#[inline(never)]
fn place_of(bytes: &[u8], separator: u8) -> Option<usize>
    ensures { result ≡ position (λ b. b == separator) bytes.now }
{
    bytes.iter().position(|b| *b == separator)
}

#[cfg(test)]
mod tests {
    use super::*;

    #[test]
    fn cuts(rt: HostRuntime) {
        assert!(rt; cut(b"M 108", b' ') == Some((b"M", b"108")));
        assert!(rt; cut(b"M 108 ", b' ') == Some((b"M", b"108 ")));
        assert!(rt; cut(b" 108", b' ') == Some((b"", b"108")));
        assert!(rt; cut(b"M ", b' ') == Some((b"M", b"")));
        assert!(rt; cut(b"M", b' ') == None);
        assert!(rt; cut(b"", b' ') == None);
    }
}
