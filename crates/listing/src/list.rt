// A whole listing.
ghost use Rattle.std.specs.Prelude.{◌≡◌, ◌+◌, ◌≤◌, ◌++◌, length, is_ok, IfOk, if◌then◌else◌, decimal};
ghost use Rattle.listing.specs.Listing.{listing, listed, in_front};
ghost use Rattle.listing.specs.Put.{Wrote};

use crate::line::put_lines;
use crate::page::Page;
use measures::entry::Entry;
use measures::refusal;
use premise::happening::Happening;

// The least bytes of a buffer for a listing.
pub const LEAST_BUFFER: usize = 16_384;

// The most answers, and the most entries, of a listing.
pub const MOST_LINES: usize = 240;

// Writes what happened and the entries to the front of a buffer, and answers how many bytes that is.
// Not inlined: in one function with the play of the calls, the loops of both are slower.
#[inline(never)]
pub fn list(happened: &[Happening], entries: &[Entry], buffer: &mut [u8]) -> Result<usize, u8>
    ensures answer { result ≡ listed happened.now entries.now (length buffer.old) }
    ensures after { buffer.new ≡ (if is_ok result then in_front (listing happened.now entries.now) buffer.old else buffer.old) }
    ensures room { IfOk result (λ n. n ≤ 15624) }
{
    if buffer.len() < LEAST_BUFFER || happened.len() > MOST_LINES || entries.len() > MOST_LINES {
        return Err(refusal::LISTING);
    }
    let mut page = Page { buffer, end: 0 };
    put_count(&mut page, happened.len(), b" ANSWERS\n");
    put_lines(&mut page, happened);
    put_count(&mut page, entries.len(), b" ENTRIES\n");
    put_lines(&mut page, entries);
    Ok(page.end)
}

// Writes a line that says how many of a name follow.
fn put_count(page: &mut Page, count: usize, name: &[u8])
    requires count { count ≤ 240 }
    requires room { page.old.end + (3 + length name.now) ≤ length page.old.buffer.now }
    ensures text { Wrote (decimal count ++ name.now) page.old page.new }
    ensures few { page.new.end ≤ page.old.end + (3 + length name.now) }
{
    page.number(count as u32);
    page.text(name);
}

#[cfg(test)]
mod tests {
    use super::*;
    use measures::entry::Kind;
    use std::process::Abort;
    use std::test::Fail;

    const UNUSED: u8 = 170;

    const fn entry(
        customer: u32,
        end_day: u16,
        days: u8,
        usage_days: u8,
        kind: Kind,
        rung: u8,
        initial: bool,
        kwh: u32,
    ) -> Entry {
        Entry {
            customer,
            end_day,
            days,
            usage_days,
            kind,
            rung,
            initial,
            kwh,
        }
    }

    // The listing is the text, and the bytes after it are as they were.
    fn lists(
        rt: &impl Abort,
        happened: &[Happening],
        entries: &[Entry],
        text: &[u8],
    ) -> Result<(), Fail> {
        let mut buffer = [UNUSED; 16_384];
        let n = list(happened, entries, &mut buffer)?;
        assert_eq!(rt; n, text.len());
        assert!(rt; buffer.starts_with(text));
        for byte in buffer[text.len()..].iter() {
            assert_eq!(rt; *byte, UNUSED);
        }
        Ok(())
    }

    #[test]
    fn worked_history(rt: HostRuntime) -> Result<(), Fail> {
        let happened = [
            Happening::Miss(108, Ok((4, 0, 0))),
            Happening::Miss(138, Ok((3, 7, 950))),
            Happening::Read(168, 800, Ok((2, 350, 0))),
            Happening::Miss(198, Ok((3, 1, 350))),
            Happening::Read(228, 900, Ok((1, 50, 1))),
            Happening::Move(8, Ok(())),
            Happening::Miss(259, Ok((3, 4, 51))),
            Happening::Read(259, 950, Err(12)),
            Happening::Read(290, 1_000, Ok((1, 50, 1))),
        ];
        let entries = [
            entry(7, 108, 8, 0, Kind::PutOff, 0, true, 0),
            entry(7, 138, 30, 38, Kind::Estimated, 7, false, 950),
            entry(7, 168, 30, 30, Kind::TrueUp, 0, false, 350),
            entry(7, 198, 30, 30, Kind::Corrected, 0, false, 50),
            entry(7, 228, 30, 30, Kind::Actual, 0, false, 50),
            entry(8, 259, 31, 31, Kind::Corrected, 0, true, 50),
            entry(8, 290, 31, 31, Kind::Actual, 0, false, 50),
        ];
        lists(
            &rt,
            &happened,
            &entries,
            b"9 ANSWERS\nM 4 0 0\nM 3 7 950\nR 2 350 0\nM 3 1 350\nR 1 50 1\nC\nM 3 4 51\nN 12\nR 1 50 1\n7 ENTRIES\n7 108 8 0 4 0 1 0\n7 138 30 38 3 7 0 950\n7 168 30 30 2 0 0 350\n7 198 30 30 5 0 0 50\n7 228 30 30 1 0 0 50\n8 259 31 31 5 0 1 50\n8 290 31 31 1 0 0 50\n",
        )
    }

    #[test]
    fn nothing(rt: HostRuntime) -> Result<(), Fail> {
        lists(&rt, &[], &[], b"0 ANSWERS\n0 ENTRIES\n")
    }

    #[test]
    fn refused_calls(rt: HostRuntime) -> Result<(), Fail> {
        let happened = [
            Happening::Miss(1, Err(255)),
            Happening::Move(7, Err(17)),
            Happening::Read(1, 2, Err(3)),
        ];
        lists(
            &rt,
            &happened,
            &[],
            b"3 ANSWERS\nN 255\nN 17\nN 3\n0 ENTRIES\n",
        )
    }

    // 240 lines of 21 bytes and 240 of 44, and two of 12.
    #[test]
    fn longest_lines(rt: HostRuntime) -> Result<(), Fail> {
        let answer = Happening::Read(1, 2, Ok((255, 4_294_967_295, 255)));
        let widest = entry(
            4_294_967_295,
            65_535,
            255,
            255,
            Kind::Corrected,
            255,
            true,
            4_294_967_295,
        );
        lists(
            &rt,
            &[answer],
            &[widest],
            b"1 ANSWERS\nR 255 4294967295 255\n1 ENTRIES\n4294967295 65535 255 255 5 255 1 4294967295\n",
        )?;
        let mut buffer = [UNUSED; 16_384];
        assert_eq!(rt;
            list(&[answer; 240], &[widest; 240], &mut buffer),
            Ok(15_624)
        );
        Ok(())
    }

    #[test]
    fn refusals(rt: HostRuntime) {
        let answer = Happening::Move(7, Ok(()));
        let blank = entry(0, 0, 0, 0, Kind::Actual, 0, false, 0);
        let mut short = [UNUSED; 16_383];
        assert_eq!(rt; list(&[], &[], &mut short), Err(10));
        assert!(rt; short == [UNUSED; 16_383]);
        let mut buffer = [UNUSED; 16_384];
        assert_eq!(rt; list(&[answer; 241], &[], &mut buffer), Err(10));
        assert_eq!(rt; list(&[], &[blank; 241], &mut buffer), Err(10));
        assert!(rt; buffer == [UNUSED; 16_384]);
    }
}
