// Compares single calls of the library with what was worked out elsewhere: sheets that are refused, cases worked by hand, and lists
// shared out, told and filled. It prints a line for each case that differs, one for each group and one for all of them.
#![tactic(auto)]

mod answers;
mod asked;
mod cases;
mod lists;
mod rungs;
mod words;

use cases::{Kind, compare_cases};
use comparing::{cases_of, compare_sheets};
use tallies::report::{Group, add_group, end};
use tallies::tally::Tally;

// The folder of sheets, each of which is refused.
const SHEETS: &str = "refused";

// The files of cases, and what they ask.
const FILES: [(&str, Kind); 7] = [
    ("worked.txt", Kind::Call),
    ("worked-sharing.txt", Kind::Share),
    ("worked-demand.txt", Kind::Demand),
    ("worked-intervals.txt", Kind::Fill),
    ("sharing.txt", Kind::Share),
    ("demand.txt", Kind::Demand),
    ("intervals.txt", Kind::Fill),
];

fn run(rt: &HostRuntime) -> anyhow::Result<()> {
    let mut all = Tally::default();
    let sheets = Group {
        name: SHEETS,
        cases: "sheets",
        tally: compare_sheets(rt, &cases_of(rt, SHEETS)?)?,
    };
    add_group(rt, &mut all, sheets)?;
    for (name, kind) in FILES {
        let cases = Group {
            name,
            cases: "cases",
            tally: compare_cases(rt, name, kind)?,
        };
        add_group(rt, &mut all, cases)?;
    }
    end(rt, all)
}

fn main(rt: HostRuntime) -> anyhow::Result<()> {
    run(&rt)
}
