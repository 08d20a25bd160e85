// Tells the demand of a period without a reading, from standard input to standard output.
#![tactic(auto)]

mod input;

use demand::demand_of;
use demand::question::DemandAnswer;
use desk::fault::Fault;
use input::{MOST_BYTES, Wrong};
use std::alloc::Global;
use std::process::ExitCode;

// What the program prints for the bytes of its input: the answer's number and tenths of a kW, or N and the refusal's number.
fn listing(heap: Global, bytes: &[u8]) -> Result<String, Fault<Wrong>> {
    let job = input::read_job(heap, bytes)?;
    match demand_of(job.book.as_slice(), &job.question) {
        Ok(DemandAnswer { number, tenths }) => Ok(format!(in heap; "{number} {tenths}\n")?),
        Err(number) => Ok(format!(in heap; "N {number}\n")?),
    }
}

fn main(rt: HostRuntime) -> ExitCode {
    desk::program::run(&rt, MOST_BYTES, |bytes| listing(rt.alloc(), bytes))
}

#[cfg(test)]
mod tests {
    use super::*;
    use std::process::Abort;
    use std::test::Fail;

    // What is printed for an input, or the line and what is wrong with it.
    fn prints(rt: &(impl Abort + AllocGlobal), bytes: &[u8], expected: &str) -> Result<(), Fail> {
        let listing = listing(rt.alloc(), bytes)?;
        assert!(rt; listing.as_str() == expected);
        Ok(())
    }

    fn refuses(
        rt: &(impl Abort + AllocGlobal),
        bytes: &[u8],
        line: usize,
        wrong: Wrong,
    ) -> Result<(), Fail> {
        assert_eq!(rt;
            listing(rt.alloc(), bytes).err(),
            Some(Fault::Line(line, wrong))
        );
        Ok(())
    }

    #[test]
    fn answers(rt: HostRuntime) -> Result<(), Fail> {
        prints(&rt, b"7 424 600 30 ECT-1R 0\n7 59 48 2 0\n", "1 48\n")?;
        prints(&rt, b"7 424 600 10 OTHER 1", "0 0\n")?;
        prints(&rt, b"7 424 600 30 OTHER 0\n7 59 48 9 0\n", "N 14\n")?;
        prints(&rt, b"7 4294967295 600 30 E-12 0\n", "N 32\n")
    }

    #[test]
    fn names_the_line(rt: HostRuntime) -> Result<(), Fail> {
        refuses(&rt, b"", 1, Wrong::Question)?;
        refuses(&rt, b"7 424 600 30 ect-1r 0\n", 1, Wrong::Question)?;
        refuses(&rt, b"7 424 600 30 E-12 0 \n", 1, Wrong::Question)?;
        refuses(
            &rt,
            b"7 424 600 30 E-12 0\n7 59 48 2 0\n7 59 48 2 2\n",
            3,
            Wrong::Entry,
        )?;
        refuses(
            &rt,
            b"7 424 600 30 E-12 0\n7 59 \xff 2 0\n",
            2,
            Wrong::Entry,
        )?;
        refuses(&rt, b"7 424 600 30 E-12 0\n\n", 2, Wrong::Entry)
    }
}
