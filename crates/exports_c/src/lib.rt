// The door for C: an export for each function of `exports`, with the same clauses.
#![tactic(auto)]

ghost use Rattle.std.specs.Prelude.{◌≡◌, true, map, is_ok, if◌then◌else◌};
ghost use Rattle.sharing.specs.Sharing.{shared, verdict, SharedOut};
ghost use Rattle.intervals.specs.Intervals.{answer, filled};
ghost use Rattle.clerk.specs.Jobs.{sheet_listing, LawfulSheet};
ghost use Rattle.exports.specs.Answers.{answered};
ghost use Rattle.exports.specs.Demands.{entry_of, demanded, number_in, tenths_in};
ghost use Rattle.exports.specs.Estimates.{estimated};
ghost use Rattle.exports.specs.Gaps.{interval_of, metered_of, month_of};
ghost use Rattle.exports.specs.Portions.{portion_takes_part, portion_weight, portion_given, portion_share, nothing_more};
ghost use Rattle.exports.specs.Sheets.{ListedFor};

use exports::demands::{Period, Reading};
use exports::gaps::{Metered, Span};
use exports::portions::Portion;
use exports::{demands, estimates, gaps, portions, sheet};
use std::alloc::Global;

#[unsafe(no_mangle)]
pub extern "C" fn pekstuvna_list_sheet(heap: Global, sheet: &[u8], listing: &mut [u8]) -> i64
    ensures answer { ListedFor (sheet_listing sheet.now) listing.old listing.new result }
    ensures history { LawfulSheet sheet.now }
{
    sheet::pekstuvna_list_sheet(heap, sheet, listing)
}

#[unsafe(no_mangle)]
pub extern "C" fn pekstuvna_share_out(total: u32, portions: &mut [Portion]) -> i64
    ensures answer { result ≡ answered (nothing_more (verdict portion_takes_part portion_weight total portions.old)) }
    ensures after { portions.new ≡ (if is_ok (verdict portion_takes_part portion_weight total portions.old) then shared portion_takes_part portion_weight portion_given total portions.old else portions.old) }
    ensures promise { is_ok (verdict portion_takes_part portion_weight total portions.old) ≡ true → SharedOut portion_takes_part portion_weight portion_share total portions.old portions.new }
{
    portions::pekstuvna_share_out(total, portions)
}

#[unsafe(no_mangle)]
pub extern "C" fn pekstuvna_estimate(kwh: u32, days: u32, usage_days: u32) -> i64
    ensures { result ≡ answered (estimated kwh days usage_days) }
{
    estimates::pekstuvna_estimate(kwh, days, usage_days)
}

#[unsafe(no_mangle)]
pub extern "C" fn pekstuvna_fill<'a>(
    month: &Span,
    weekday: &'a [u32],
    weekend: &'a [u32],
    holidays: &'a [u32],
    intervals: &mut [Metered],
) -> i64
    ensures answer { result ≡ answered (answer (month_of month.now weekday.entry weekend.entry holidays.entry) (map interval_of intervals.old)) }
    ensures after { intervals.new ≡ (if is_ok (answer (month_of month.now weekday.entry weekend.entry holidays.entry) (map interval_of intervals.old)) then map metered_of (filled (month_of month.now weekday.entry weekend.entry holidays.entry) (map interval_of intervals.old)) else intervals.old) }
{
    gaps::pekstuvna_fill(month, weekday, weekend, holidays, intervals)
}

#[unsafe(no_mangle)]
pub extern "C" fn pekstuvna_demand(
    book: &[Reading],
    period: &Period,
    rate: &[u8],
    tenths: &mut u64,
) -> i64
    ensures answer { result ≡ answered (number_in (demanded (map entry_of book.now) period.now rate.now)) }
    ensures after { tenths.new ≡ tenths_in (demanded (map entry_of book.now) period.now rate.now) tenths.old }
{
    demands::pekstuvna_demand(book, period, rate, tenths)
}
