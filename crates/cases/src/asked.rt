// One call of the library, by its name and its words, and what it answers as text: a number, yes or no, `none`, or `N` and the
// number of a refusal.
use crate::answers::{line, line_or_none, line_or_refused, yes_or_no};
use crate::rungs::{on_ladder, on_rung};
use crate::words::{numbers_in, rate_in, wrong};
use calendar::Season;
use estimating::fixed::Fixed;
use exports::estimates::pekstuvna_estimate;
use fields::number::number_of;
use fields::rate::rate_of;
use judging::{ByDay, ByHalf, Judgement, Never};
use measures::dial::advance;
use measures::rate::Rate;
use std::alloc::Global;

pub fn answer(heap: Global, lines: &[&str]) -> anyhow::Result<String> {
    let [asked, entries @ ..] = lines else {
        return Err(wrong());
    };
    let (name, words) = asked.split_once(' ').ok_or_else(wrong)?;
    match name {
        "ladder" => on_ladder(heap, words, entries),
        "rung" => on_rung(heap, words, entries),
        "month" => line_or_none(heap, calendar::month_of(day_in(words)?)),
        "season" => line_or_none(heap, calendar::season_of(day_in(words)?).map(season_name)),
        "weekend" => line(heap, yes_or_no(calendar::is_weekend(day_in(words)?))),
        "year-before" => year_before(heap, words),
        "half" => line(heap, yes_or_no(is_higher(&ByHalf, numbers_in::<3>(words)?))),
        "day" => by_day(heap, words),
        "never" => line(heap, yes_or_no(is_higher(&Never, numbers_in::<3>(words)?))),
        "number" => line_or_none(heap, number_of(words.as_bytes())),
        "rate" => line_or_none(heap, rate_of(words.as_bytes()).map(Rate::name)),
        "advance" => advanced(heap, words),
        "estimate" => estimated(heap, words),
        "fixed" => fixed(heap, words),
        "class" => line_or_none(heap, rate_in(words)?.class_kwh_a_day()),
        "load-factor" => line_or_none(heap, rate_in(words)?.load_factor()),
        _ => Err(wrong()),
    }
}

fn day_in(words: &str) -> anyhow::Result<u32> {
    let [day] = numbers_in::<1>(words)?;
    Ok(day)
}

fn season_name(season: Season) -> &'static str {
    match season {
        Season::Summer => "summer",
        Season::Winter => "winter",
    }
}

fn year_before(heap: Global, words: &str) -> anyhow::Result<String> {
    let [earlier, later] = numbers_in::<2>(words)?;
    line(heap, yes_or_no(calendar::is_year_before(earlier, later)))
}

// Whether an advance is considerably higher than an open sum over so many usage days.
fn is_higher<J: Judgement>(judgement: &J, [advance, sum, days]: [u32; 3]) -> bool {
    judgement.is_higher(u64::from(advance), u64::from(sum), u64::from(days))
}

// By day, the limit comes first.
fn by_day(heap: Global, words: &str) -> anyhow::Result<String> {
    let [limit, advance, sum, days] = numbers_in::<4>(words)?;
    let higher = ByDay::new(limit).map(|by_day| is_higher(&by_day, [advance, sum, days]));
    line_or_refused(heap, higher.map(yes_or_no))
}

fn advanced(heap: Global, words: &str) -> anyhow::Result<String> {
    let [digits, from, to] = numbers_in::<3>(words)?;
    line_or_refused(heap, advance(digits, from, to))
}

fn estimated(heap: Global, words: &str) -> anyhow::Result<String> {
    let [basis_kwh, days, usage_days] = numbers_in::<3>(words)?;
    line(heap, pekstuvna_estimate(basis_kwh, days, usage_days))
}

// Whether a fixed basis is taken.
fn fixed(heap: Global, words: &str) -> anyhow::Result<String> {
    let [kwh, days] = numbers_in::<2>(words)?;
    let days = u16::try_from(days).map_err(|_| wrong())?;
    line_or_refused(heap, Fixed::new(kwh, days).map(|_| "yes"))
}
