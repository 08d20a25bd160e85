// The pieces that some bytes fall into, one after the other.
ghost use Rattle.std.specs.Prelude.{◌≡◌};
ghost use Rattle.std.specs.Iterator.{YieldsFirstRef, item_count};
ghost use Rattle.fields.specs.Pieces.{pieces};
ghost use Rattle.desk.specs.Left.{left, without_last_end};

use fields::cut::cut;

// The pieces that are left, between the separators; none once the last one came.
#[derive(Clone, Copy)]
pub struct Pieces<'a> {
    rest: Option<&'a [u8]>,
    separator: u8,
}

impl<'a> Iterator for Pieces<'a> {
    type Item = &'a [u8];

    ghost next_gives = { YieldsFirstRef left };

    ghost remaining = { item_count left };

    fn next(&mut self) -> Option<&'a [u8]> {
        let bytes = self.rest?;
        match cut(bytes, self.separator) {
            Some((piece, rest)) => {
                self.rest = Some(rest);
                Some(piece)
            }
            None => {
                self.rest = None;
                Some(bytes)
            }
        }
    }
}

// The fields of a line, with one space between.
pub fn fields_in<'a>(line: &'a [u8]) -> Pieces<'a>
    ensures { left result ≡ pieces 32 line.now }
{
    Pieces {
        rest: Some(line),
        separator: b' ',
    }
}

// The lines of an input. The LF at its end may be left out.
pub fn lines_in<'a>(input: &'a [u8]) -> Pieces<'a>
    ensures { left result ≡ pieces 10 (without_last_end input.now) }
{
    Pieces {
        rest: Some(input.strip_suffix(b"\n").unwrap_or(input)),
        separator: b'\n',
    }
}

#[cfg(test)]
mod tests {
    use super::*;

    #[test]
    fn fields(rt: HostRuntime) {
        let mut fields = fields_in(b"M  108");
        assert!(rt; fields.next() == Some(b"M"));
        assert!(rt; fields.next() == Some(b""));
        assert!(rt; fields.next() == Some(b"108"));
        assert!(rt; fields.next() == None);
        assert!(rt; fields_in(b"").next() == Some(b""));
        assert_eq!(rt; fields_in(b" 7 ").count(), 3);
    }

    #[test]
    fn lines(rt: HostRuntime) {
        assert_eq!(rt; lines_in(b"").count(), 1);
        assert_eq!(rt; lines_in(b"7\n8").count(), 2);
        assert_eq!(rt; lines_in(b"7\n8\n").count(), 2);
        assert_eq!(rt; lines_in(b"7\n8\n\n").count(), 3);
    }
}
