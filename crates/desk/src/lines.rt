// The lines of an input that is not too long, each with its number.
ghost use Rattle.std.specs.Prelude.{◌≡◌, ◌<◌, ◌≤◌, ◌∷◌, length, IfOk, MatchResult};
ghost use Rattle.std.specs.Iterator.Adapters.{zip_first, zip_second};
ghost use Rattle.fields.specs.Pieces.{pieces};
ghost use Rattle.desk.specs.Left.{left, without_last_end};
ghost use Rattle.desk.specs.declared.fault.Fault.TheVariants.{Line};

use crate::fault::Fault;
use crate::pieces::{Pieces, lines_in};
use std::iter::Zip;
use std::ops::RangeFrom;

// The first line of an input, which may be empty, and the others with their numbers; a fault where it has more bytes than so many.
pub fn head_and_lines<'a, W: Drop>(
    input: &'a [u8],
    most_bytes: usize,
    long: W,
) -> Result<(&'a [u8], Zip<RangeFrom<usize>, Pieces<'a>>), Fault<W>>
    ensures fits { MatchResult result (λ _. length input.now ≤ most_bytes) (λ fault. (most_bytes < length input.now) × (fault ≡ Line 1 long)) }
    ensures lines { IfOk result (λ r. r.0.now ∷ left (zip_second r.1) ≡ pieces 10 (without_last_end input.now)) }
    ensures numbers { IfOk result (λ r. (zip_first r.1).start ≡ 2) }
{
    if input.len() > most_bytes {
        return Err(Fault::Line(1, long));
    }
    let (head, others) = parted(input);
    Ok((head, (2usize..).zip(others)))
}

fn parted<'a>(input: &'a [u8]) -> (&'a [u8], Pieces<'a>)
    ensures { result.0.now ∷ left result.1 ≡ pieces 10 (without_last_end input.now) }
{
    let mut lines = lines_in(input);
    let head = lines.next().unwrap_or(b"");
    (head, lines)
}

#[cfg(test)]
mod tests {
    use super::*;

    #[test]
    fn numbers_the_lines(rt: HostRuntime) {
        let Ok((head, mut lines)) = head_and_lines(b"7 8\n\n9\n", 7, 0u8) else {
            unreachable()
        };
        assert!(rt; head == b"7 8".as_slice());
        assert!(rt; lines.next() == Some((2, b"")));
        assert!(rt; lines.next() == Some((3, b"9")));
        assert!(rt; lines.next() == None);
    }
}
