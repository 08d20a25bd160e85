// What stands on standard input: a line for the question, and a line for each entry of the demand book.
use demand::entry::{DemandEntry, Mark};
use demand::question::DemandQuestion;
use desk::fault::Fault;
use desk::lines::head_and_lines;
use desk::numbers::numbers_of;
use desk::pieces::fields_in;
use fields::number::number_of;
use fields::rate::rate_of;
use std::alloc::Global;
use thiserror::Error;

// The most bytes that are looked at; the longest good input has fewer.
pub const MOST_BYTES: usize = 40_000;

#[derive(Drop)]
pub struct Job {
    pub question: DemandQuestion,
    pub book: Vec<DemandEntry>,
}

// What is wrong with a line of the input.
#[derive(Clone, Copy, PartialEq, Eq, Debug, Error)]
pub enum Wrong {
    #[error("the input has more than 40,000 bytes")]
    Long,
    #[error("expected customer, end day, kWh, usage days, the name of a rate and an initial mark of 0 or 1, with one space between")]
    Question,
    #[error("expected customer, end day, tenths of a kW, mark and an initial mark of 0 or 1, with one space between")]
    Entry,
}

// The job that the bytes ask for. The LF at their end may be left out.
pub fn read_job(heap: Global, bytes: &[u8]) -> Result<Job, Fault<Wrong>> {
    let (head, lines) = head_and_lines(bytes, MOST_BYTES, Wrong::Long)?;
    let question = question_of(head).ok_or(Fault::Line(1, Wrong::Question))?;
    let book = lines
        .map(|(place, line)| entry_of(line).ok_or(Fault::Line(place, Wrong::Entry)))
        .try_collect(heap)?;
    Ok(Job { question, book })
}

fn question_of(line: &[u8]) -> Option<DemandQuestion> {
    let mut fields = fields_in(line);
    let question = DemandQuestion {
        customer: number_of(fields.next()?)?,
        end_day: number_of(fields.next()?)?,
        kwh: number_of(fields.next()?)?,
        usage_days: number_of(fields.next()?)?,
        rate: rate_of(fields.next()?)?,
        initial: initial_of(number_of(fields.next()?)?)?,
    };
    fields.next().is_none().then_some(question)
}

fn entry_of(line: &[u8]) -> Option<DemandEntry> {
    let [customer, end_day, tenths, mark, initial] = numbers_of::<5>(line)?;
    Some(DemandEntry {
        customer,
        end_day,
        tenths,
        mark: Mark::from(mark),
        initial: initial_of(initial)?,
    })
}

// The initial mark with a number.
fn initial_of(number: u32) -> Option<bool> {
    match number {
        0 => Some(false),
        1 => Some(true),
        _ => None,
    }
}
