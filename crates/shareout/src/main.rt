// Shares the advance of a dial out over the months that missed their read, from standard input to standard output.
#![tactic(auto)]

ghost use Rattle.std.specs.Prelude.{◌^◌, ◌<◌};
ghost use Rattle.shareout.specs.Months.{kwh_of};

mod input;
mod months;

use desk::fault::Fault;
use input::{MOST_BYTES, Wrong};
use months::Month;
use std::alloc::{AllocError, Global};
use std::process::ExitCode;

// What the program prints for the bytes of its input.
fn listing(heap: Global, text: &[u8]) -> Result<String, Fault<Wrong>> {
    let mut job = input::read_job(heap, text)?;
    let advance = job.settle()?;
    Ok(written(heap, advance, job.months.as_slice())?)
}

// The advance, each month's share of it, and what the shares come to.
fn written(heap: Global, advance: u32, months: &[Month]) -> Result<String, AllocError>
    requires { kwh_of months.now < 2 ^ 64 }
{
    let mut text = format!(in heap; "the dial went {advance} kWh\n")?;
    for (place, month) in (1usize..).zip(months) {
        let Month { usage_days, kwh } = *month;
        writeln!(text, "month {place}: {usage_days} usage days, {kwh} kWh")?;
    }
    let sum = months::sum(months);
    writeln!(text, "the months come to {sum} kWh")?;
    Ok(text)
}

fn main(rt: HostRuntime) -> ExitCode {
    desk::program::run(&rt, MOST_BYTES, |text| listing(rt.alloc(), text))
}

#[cfg(test)]
mod tests {
    use super::*;
    use std::process::Abort;
    use std::test::Fail;

    // What is printed for a text, or the line and what is wrong with it.
    fn prints(rt: &(impl Abort + AllocGlobal), text: &[u8], expected: &str) -> Result<(), Fail> {
        let listing = listing(rt.alloc(), text)?;
        assert!(rt; listing.as_str() == expected);
        Ok(())
    }

    fn refuses(
        rt: &(impl Abort + AllocGlobal),
        text: &[u8],
        line: usize,
        wrong: Wrong,
    ) -> Result<(), Fail> {
        assert_eq!(rt;
            listing(rt.alloc(), text).err(),
            Some(Fault::Line(line, wrong))
        );
        Ok(())
    }

    #[test]
    fn shares(rt: HostRuntime) -> Result<(), Fail> {
        prints(
            &rt,
            b"4 9950 50\n30\n30\n31",
            "the dial went 100 kWh\nmonth 1: 30 usage days, 32 kWh\nmonth 2: 30 usage days, 33 kWh\nmonth 3: 31 usage days, 35 kWh\nthe months come to 100 kWh\n",
        )?;
        prints(
            &rt,
            b"8 7 7\n",
            "the dial went 0 kWh\nthe months come to 0 kWh\n",
        )
    }

    #[test]
    fn refuses_the_dial(rt: HostRuntime) -> Result<(), Fail> {
        refuses(&rt, b"3 0 1\n30\n", 1, Wrong::Digits)?;
        refuses(&rt, b"9 0 1\n30\n", 1, Wrong::Digits)?;
        refuses(&rt, b"4 10000 1\n30\n", 1, Wrong::Register)?;
        refuses(&rt, b"4 0 10000\n30\n", 1, Wrong::Register)?;
        refuses(&rt, b"", 1, Wrong::DialFields)?;
        refuses(&rt, b"4  0 1\n30\n", 1, Wrong::DialFields)?;
        refuses(&rt, b"4 0 1 2\n30\n", 1, Wrong::DialFields)?;
        refuses(&rt, b"4 0 01\n30\n", 1, Wrong::DialFields)
    }

    #[test]
    fn refuses_a_month(rt: HostRuntime) -> Result<(), Fail> {
        refuses(&rt, b"4 0 1\n30\n\n31\n", 3, Wrong::MonthField)?;
        refuses(&rt, b"4 0 1\n30\n30 31\n", 3, Wrong::MonthField)?;
        refuses(&rt, b"4 0 1\n30\r\n", 2, Wrong::MonthField)?;
        refuses(&rt, b"4 0 1\n30\n+5\n", 3, Wrong::MonthField)?;
        refuses(&rt, b"4 0 1\n30\n4294967296\n", 3, Wrong::MonthField)?;
        refuses(&rt, b"4 0 1\n30\n1000001\n", 3, Wrong::UsageDays)?;
        refuses(&rt, b"4 0 1\n30\n\xff\n", 3, Wrong::NotText)?;
        refuses(&rt, b"4 0 1\n0\n0\n", 2, Wrong::NoUsageDays)?;
        refuses(&rt, b"4 0 1\n", 2, Wrong::NoUsageDays)
    }

    #[test]
    fn refuses_too_much(rt: HostRuntime) -> Result<(), Fail> {
        let mut text = String::from_str(rt.alloc(), "8 0 99999999\n")?;
        for _ in 0..3_360 {
            text.push_str("30\n")?;
        }
        let printed = listing(rt.alloc(), text.as_bytes())?;
        assert!(rt;
            printed.as_str().ends_with(
                "month 3360: 30 usage days, 29762 kWh\nthe months come to 99999999 kWh\n",
            )
        );
        text.push_str("30\n")?;
        refuses(&rt, text.as_bytes(), 3_362, Wrong::Months)?;
        for _ in 0..12_000 {
            text.push_str("30\n")?;
        }
        refuses(&rt, text.as_bytes(), 1, Wrong::Long)
    }
}
