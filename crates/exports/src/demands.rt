// The demand of a period without a reading, for C.
ghost use Rattle.std.specs.Prelude.{◌≡◌, ◌≤◌, map, length};
ghost use Rattle.demand.specs.Demand.{demand_of};
ghost use Rattle.exports.specs.Answers.{answered};
ghost use Rattle.exports.specs.Demands.{entry_of, demanded, number_in, tenths_in, too_long};

use crate::answer::number_of;
use crate::copy::copy_from;
use demand::entry::{DemandEntry, Mark};
use demand::question::{DemandAnswer, DemandQuestion};
use demand::{MOST_ENTRIES, demand_of};
use fields::rate::rate_of;
use measures::refusal;

// One entry of a demand book. Mark 1 is read and reset, 2 read and not reset, and any other estimated.
#[repr(C)]
#[derive(Clone, Copy)]
pub struct Reading {
    pub customer: u32,
    pub end_day: u32,
    pub tenths: u32,
    pub mark: u32,
    // 0 for an entry that is not initial.
    pub initial: u32,
}

// A period without a reading of its demand.
#[repr(C)]
#[derive(Clone, Copy)]
pub struct Period {
    pub customer: u32,
    pub end_day: u32,
    pub kwh: u32,
    pub usage_days: u32,
    // 0 for a period that is not initial.
    pub initial: u32,
}

impl From<Reading> for DemandEntry {
    ghost from_gives = { λ reading entry. entry ≡ entry_of reading };

    fn from(reading: Reading) -> DemandEntry {
        DemandEntry {
            customer: reading.customer,
            end_day: reading.end_day,
            tenths: reading.tenths,
            mark: Mark::from(reading.mark),
            initial: reading.initial != 0,
        }
    }
}

// The demand of a period on the rate of that name. It answers the answer's number, and writes its tenths of a kW.
pub fn pekstuvna_demand(book: &[Reading], period: &Period, rate: &[u8], tenths: &mut u64) -> i64
    ensures answer { result ≡ answered (number_in (demanded (map entry_of book.now) period.now rate.now)) }
    ensures after { tenths.new ≡ tenths_in (demanded (map entry_of book.now) period.now rate.now) tenths.old }
{
    let outcome = demanded(book, period, rate);
    if let Ok(answer) = outcome {
        *tenths = answer.tenths;
    }
    number_of(outcome.map(|answer| u64::from(answer.number)))
}

fn demanded(book: &[Reading], period: &Period, rate: &[u8]) -> Result<DemandAnswer, u8>
    ensures { result ≡ demanded (map entry_of book.now) period.now rate.now }
{
    let rate = rate_of(rate).ok_or(refusal::FIELD)?;
    let question = DemandQuestion {
        customer: period.customer,
        end_day: period.end_day,
        kwh: period.kwh,
        usage_days: period.usage_days,
        rate,
        initial: period.initial != 0,
    };
    if book.len() > MOST_ENTRIES {
        return Err(too_long(period.customer));
    }
    demand_in(book, &question)
}

// The refusal of a book with too many entries, which is not copied.
fn too_long(customer: u32) -> u8
    ensures { result ≡ too_long customer }
{
    match customer {
        0 => refusal::CUSTOMER,
        _ => refusal::DEMAND_BOOK,
    }
}

fn demand_in(book: &[Reading], question: &DemandQuestion) -> Result<DemandAnswer, u8>
    requires { length book.now ≤ 240 }
    ensures { result ≡ demand_of (map entry_of book.now) question.now }
{
    let mut copy = [DemandEntry::BLANK; MOST_ENTRIES];
    let entries = &mut copy[..book.len()];
    copy_from(book, entries);
    demand_of(entries, question)
}
