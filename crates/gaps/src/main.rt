// Fills the missing intervals of a month, from standard input to standard output.
//
// The month in `stdin` has three days of 24 slots: Sunday 4 July 2010, which is day 3,837, the Monday after it, a holiday, and a
// Tuesday. The valid intervals have 1,000 Wh each on the Sunday, 1,100 on the Monday and 900 on the Tuesday, which comes to
// 22 × 1,000 + 23 × 1,100 + 22 × 900 = 67,100, so 7,000 of the 74,100 Wh are left. They are shared out by the weekend reference at
// slots 2 and 3 of the Sunday and 18 of the Monday, and the weekday reference at slots 7 and 18 of the Tuesday:
//
//     weight   so far   7,000 × so far / 6,900   share
//        800      800                      811     811
//        700    1,500                    1,521     710
//      2,000    3,500                    3,550   2,029
//      1,200    4,700                    4,768   1,218
//      2,200    6,900                    7,000   2,232
#![tactic(auto)]

mod input;

use desk::fault::Fault;
use input::{MOST_BYTES, Wrong};
use intervals::fill::fill;
use intervals::interval::Interval;
use std::alloc::{AllocError, Global};
use std::process::ExitCode;

// What the program prints for the bytes of its input: the filled month, or N and the refusal's number.
fn listing(heap: Global, bytes: &[u8]) -> Result<String, Fault<Wrong>> {
    let mut job = input::read_job(heap, bytes)?;
    match fill(&job.month.as_month(), job.intervals.as_mut_slice()) {
        Ok(filled) => Ok(written(heap, filled, job.intervals.as_slice())?),
        Err(number) => Ok(format!(in heap; "N {number}\n")?),
    }
}

// The number of filled intervals, and each interval as the input has it.
fn written(heap: Global, filled: u32, intervals: &[Interval]) -> Result<String, AllocError> {
    let mut text = format!(in heap; "{filled}\n")?;
    for interval in intervals {
        let Interval { wh, weight, mark } = *interval;
        let mark = u8::from(mark);
        writeln!(text, "{wh} {weight} {mark}")?;
    }
    Ok(text)
}

fn main(rt: HostRuntime) -> ExitCode {
    desk::program::run(&rt, MOST_BYTES, |bytes| listing(rt.alloc(), bytes))
}

#[cfg(test)]
mod tests {
    use super::*;
    use std::process::Abort;
    use std::test::*;

    // Weekday and weekend reference, each of 24 slots.
    const REFERENCES: &str =
        "3 1 0 0 0 0 0 0 0 0 0 0 0 0 0 0 0 0 0 0 0 0 0 0\n1 2 0 0 0 0 0 0 0 0 0 0 0 0 0 0 0 0 0 0 0 0 0 0\n";

    // A month of one day: what stands on its first line, its holidays, its first two intervals, and 22 of 6 Wh, 132 together.
    fn day(rt: &HostRuntime, month: &str, holidays: &str, two: &str) -> Result<String, Fail> {
        let mut text = format!(in rt.alloc(); "{month}\n{REFERENCES}{holidays}\n")?;
        text.push_str(rest(rt, two)?.as_str())?;
        Ok(text)
    }

    // The two intervals, and then the 22.
    fn rest(rt: &impl AllocGlobal, two: &str) -> Result<String, Fail> {
        let mut text = String::from_str(rt.alloc(), two)?;
        for _ in 0..22 {
            text.push_str("6 5 0\n")?;
        }
        Ok(text)
    }

    fn fills(rt: &(impl Abort + AllocGlobal), text: &str, two: &str) -> Result<(), Fail> {
        let listing = listing(rt.alloc(), text.as_bytes())?;
        let after = rest(rt, two)?;
        assert!(rt; listing.as_str() == format!(in rt.alloc(); "2\n{after}")?.as_str());
        Ok(())
    }

    fn refuses(rt: &(impl Abort + AllocGlobal), text: &str, expected: &str) -> Result<(), Fail> {
        let listing = listing(rt.alloc(), text.as_bytes())?;
        assert!(rt; listing.as_str() == expected);
        Ok(())
    }

    fn names(
        rt: &(impl Abort + AllocGlobal),
        bytes: &[u8],
        line: usize,
        wrong: Wrong,
    ) -> Result<(), Fail> {
        assert_eq!(rt;
            listing(rt.alloc(), bytes).err(),
            Some(Fault::Line(line, wrong))
        );
        Ok(())
    }

    // Of 142 Wh 10 are left: 3 and 7 by weights 1 and 2 on the Sunday and on the holiday, 7 and 3 by weights 3 and 1 on a Monday.
    #[test]
    fn fills_a_day(rt: HostRuntime) -> Result<(), Fail> {
        let two = "8 9 1\n0 0 1\n";
        fills(
            &rt,
            day(&rt, "24 8 142", "", two)?.as_str(),
            "3 1 2\n7 2 2\n",
        )?;
        fills(
            &rt,
            day(&rt, "24 9 142", "", two)?.as_str(),
            "7 3 2\n3 1 2\n",
        )?;
        fills(
            &rt,
            day(&rt, "24 9 142", "2 9", two)?.as_str(),
            "3 1 2\n7 2 2\n",
        )
    }

    #[test]
    fn tells_the_refusal(rt: HostRuntime) -> Result<(), Fail> {
        let two = "8 9 1\n0 0 1\n";
        refuses(&rt, day(&rt, "48 8 142", "", two)?.as_str(), "N 21\n")?;
        refuses(&rt, "24 8 142\n\n\n\n", "N 22\n")?;
        refuses(&rt, day(&rt, "96 8 142", "", two)?.as_str(), "N 22\n")?;
        refuses(&rt, day(&rt, "24 8 142", "9 9", two)?.as_str(), "N 24\n")?;
        refuses(
            &rt,
            day(&rt, "24 8 142", "", "8 9 1\n0 0 2\n")?.as_str(),
            "N 25\n",
        )?;
        refuses(
            &rt,
            day(&rt, "24 8 142", "", "8 9 1\n0 0 3\n")?.as_str(),
            "N 25\n",
        )?;
        refuses(&rt, day(&rt, "24 8 131", "", two)?.as_str(), "N 27\n")
    }

    #[test]
    fn names_the_line(rt: HostRuntime) -> Result<(), Fail> {
        names(&rt, b"", 1, Wrong::Month)?;
        names(&rt, b"24 8\n1\n1\n\n", 1, Wrong::Month)?;
        names(&rt, b"24 8 142\n", 2, Wrong::Reference)?;
        names(&rt, b"24 8 142\n1  2\n1\n\n", 2, Wrong::Reference)?;
        names(&rt, b"24 8 142\n1\n1 \n\n", 3, Wrong::Reference)?;
        names(&rt, b"24 8 142\n1\n1\n", 4, Wrong::Holidays)?;
        names(&rt, b"24 8 142\n1\n1\n09\n", 4, Wrong::Holidays)?;
        names(&rt, b"24 8 142\n1\n1\n\n6 5 0\n6 5\n", 6, Wrong::Interval)?;
        names(
            &rt,
            b"24 8 142\n1\n1\n\n6 5 0\n\n6 5 0\n",
            6,
            Wrong::Interval,
        )?;
        names(&rt, b"24 8 142\n1\n1\n\n6 \xff 0\n", 5, Wrong::Interval)
    }

    #[test]
    fn refuses_too_much(rt: HostRuntime) -> Result<(), Fail> {
        let mut text = String::from_str(rt.alloc(), "24 8 142\n\n\n\n")?;
        for _ in 0..24_998 {
            text.push_str("6 5 0\n")?;
        }
        assert_eq!(rt; text.len(), MOST_BYTES);
        refuses(&rt, text.as_str(), "N 22\n")?;
        text.push_str("6")?;
        names(&rt, text.as_bytes(), 1, Wrong::Long)
    }
}
