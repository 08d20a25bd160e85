// What the ladder, or one of its rungs, answers: `ladder CUSTOMER END_DAY RATE` or `rung NUMBER CUSTOMER END_DAY RATE`, and then
// a line `CUSTOMER END_DAY USAGE_DAYS INITIAL KWH` for each entry of the book. The answer is the rung, kWh and days of a basis.
use crate::answers::line;
use crate::words::{numbers_in, rate_in, wrong};
use estimating::basis::{Basis, Question};
use estimating::method::Method;
use ladder::rungs::{ClassFigure, LastEntry, Seasonal, YearBack};
use ladder::standard::standard_answer;
use lookup::fit::Whose::{Anyone, Customer};
use measures::entry::{Entry, Kind};
use std::alloc::Global;

pub(crate) fn on_ladder(heap: Global, words: &str, entries: &[&str]) -> anyhow::Result<String> {
    let book = book_in(heap, entries)?;
    basis_or_none(heap, standard_answer(book.as_slice(), &question_in(words)?))
}

pub(crate) fn on_rung(heap: Global, words: &str, entries: &[&str]) -> anyhow::Result<String> {
    let (number, words) = words.split_once(' ').ok_or_else(wrong)?;
    let [number] = numbers_in::<1>(number)?;
    let book = book_in(heap, entries)?;
    basis_or_none(
        heap,
        basis_on(number, book.as_slice(), &question_in(words)?),
    )
}

fn basis_or_none(heap: Global, basis: Option<Basis>) -> anyhow::Result<String> {
    match basis {
        Some(Basis { rung, kwh, days }) => line(heap, format_args!("{rung} {kwh} {days}")),
        None => line(heap, "none"),
    }
}

fn question_in(words: &str) -> anyhow::Result<Question> {
    let (numbers, rate) = words.rsplit_once(' ').ok_or_else(wrong)?;
    let [customer, end_day] = numbers_in::<2>(numbers)?;
    Ok(Question {
        customer,
        start_day: 0,
        end_day: u16::try_from(end_day).map_err(|_| wrong())?,
        rate: rate_in(rate)?,
    })
}

fn book_in(heap: Global, lines: &[&str]) -> anyhow::Result<Vec<Entry>> {
    lines.iter().map(|line| entry_in(line)).try_collect(heap)
}

fn entry_in(line: &str) -> anyhow::Result<Entry> {
    let [customer, end_day, usage_days, initial, kwh] = numbers_in::<5>(line)?;
    Ok(Entry {
        customer,
        end_day: u16::try_from(end_day).map_err(|_| wrong())?,
        days: 30,
        usage_days: u8::try_from(usage_days).map_err(|_| wrong())?,
        kind: Kind::Estimated,
        rung: 1,
        initial: initial != 0,
        kwh,
    })
}

fn basis_on(rung: u32, book: &[Entry], asked: &Question) -> Option<Basis> {
    match rung {
        1 => LastEntry { whose: Customer }.answer(book, asked),
        2 => YearBack { whose: Customer }.answer(book, asked),
        3 => Seasonal { whose: Customer }.answer(book, asked),
        4 => LastEntry { whose: Anyone }.answer(book, asked),
        5 => YearBack { whose: Anyone }.answer(book, asked),
        6 => Seasonal { whose: Anyone }.answer(book, asked),
        _ => ClassFigure.answer(book, asked),
    }
}
