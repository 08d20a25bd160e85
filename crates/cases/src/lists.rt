// Totals shared out, demands and filled intervals, from the lines of a case to the lines of the answer. A refusal is `N` and its
// number.
use crate::answers::{line, refused};
use crate::words::{numbers_in, some_numbers, wrong};
use exports::demands::{Period, Reading, pekstuvna_demand};
use exports::gaps::{Metered, Span, pekstuvna_fill};
use exports::portions::{Portion, pekstuvna_share_out};
use std::alloc::Global;

// A total, and then whether it takes part, the weight and the share of each record. The answer is the shares.
pub fn share(heap: Global, lines: &[&str]) -> anyhow::Result<String> {
    let [total, records @ ..] = lines else {
        return Err(wrong());
    };
    let [total] = numbers_in::<1>(total)?;
    let mut portions: Vec<Portion> = records
        .iter()
        .map(|line| portion_in(line))
        .try_collect(heap)?;
    let refusal = pekstuvna_share_out(total, portions.as_mut_slice());
    if refusal < 0 {
        return refused(heap, refusal.unsigned_abs());
    }
    let mut text = String::new(heap);
    for portion in portions.iter() {
        let share = portion.share;
        writeln!(text, "{share}")?;
    }
    Ok(text)
}

fn portion_in(line: &str) -> anyhow::Result<Portion> {
    let [takes_part, weight, share] = numbers_in::<3>(line)?;
    Ok(Portion {
        takes_part,
        weight,
        share,
    })
}

// A period, and the entries of a demand book. The answer is its number and its tenths.
pub fn demand(heap: Global, lines: &[&str]) -> anyhow::Result<String> {
    let [asked, entries @ ..] = lines else {
        return Err(wrong());
    };
    let (words, initial) = asked.rsplit_once(' ').ok_or_else(wrong)?;
    let (words, rate) = words.rsplit_once(' ').ok_or_else(wrong)?;
    let period = period_in(words, initial)?;
    let book: Vec<Reading> = entries
        .iter()
        .map(|line| reading_in(line))
        .try_collect(heap)?;
    let mut tenths: u64 = 0;
    let number = pekstuvna_demand(book.as_slice(), &period, rate.as_bytes(), &mut tenths);
    if number < 0 {
        return refused(heap, number.unsigned_abs());
    }
    line(heap, format_args!("{number} {tenths}"))
}

fn period_in(words: &str, initial: &str) -> anyhow::Result<Period> {
    let [customer, end_day, kwh, usage_days] = numbers_in::<4>(words)?;
    let [initial] = numbers_in::<1>(initial)?;
    Ok(Period {
        customer,
        end_day,
        kwh,
        usage_days,
        initial,
    })
}

fn reading_in(line: &str) -> anyhow::Result<Reading> {
    let [customer, end_day, tenths, mark, initial] = numbers_in::<5>(line)?;
    Ok(Reading {
        customer,
        end_day,
        tenths,
        mark,
        initial,
    })
}

// A month, its reference days, its holidays, and then the intervals. The answer is how many were filled, and the intervals.
pub fn fill(heap: Global, lines: &[&str]) -> anyhow::Result<String> {
    let [month, weekday, weekend, holidays, list @ ..] = lines else {
        return Err(wrong());
    };
    let span = span_in(month)?;
    let weekday = some_numbers(heap, weekday)?;
    let weekend = some_numbers(heap, weekend)?;
    let holidays = some_numbers(heap, holidays)?;
    let mut intervals: Vec<Metered> = list.iter().map(|line| interval_in(line)).try_collect(heap)?;
    let filled = pekstuvna_fill(
        &span,
        weekday.as_slice(),
        weekend.as_slice(),
        holidays.as_slice(),
        intervals.as_mut_slice(),
    );
    if filled < 0 {
        return refused(heap, filled.unsigned_abs());
    }
    let mut text = format!(in heap; "{filled}\n")?;
    for interval in intervals.iter() {
        let Metered { wh, weight, mark } = *interval;
        writeln!(text, "{wh} {weight} {mark}")?;
    }
    Ok(text)
}

fn span_in(line: &str) -> anyhow::Result<Span> {
    let [slots, first_day, total] = numbers_in::<3>(line)?;
    Ok(Span {
        slots,
        first_day,
        total,
    })
}

fn interval_in(line: &str) -> anyhow::Result<Metered> {
    let [wh, weight, mark] = numbers_in::<3>(line)?;
    Ok(Metered { wh, weight, mark })
}
