// Compares figures: plays every sheet of the data and holds its listing to what is expected, byte for byte. It prints a
// line for each case that differs, one for each group and one for all of them.
#![tactic(auto)]

use anyhow::anyhow;
use comparing::{cases_of, compare_sheets};
use tallies::report::{Group, add_group, end};
use tallies::tally::Tally;

// The groups of sheets.
const SHEETS: [&str; 3] = ["forms", "histories", "damaged"];

// A group that cannot be read, or has no cases, is a case that differs.
fn compare_group(rt: &HostRuntime, name: &str) -> anyhow::Result<Tally> {
    match some_cases_of(rt, name) {
        Ok(cases) => Ok(compare_sheets(rt, &cases)?),
        Err(fault) => {
            let mut tally = Tally::default();
            tally.count(rt, name, Err(fault))?;
            Ok(tally)
        }
    }
}

fn some_cases_of(rt: &HostRuntime, name: &str) -> anyhow::Result<Vec<String>> {
    let cases = cases_of(rt, name)?;
    if cases.is_empty() {
        return Err(anyhow!("there are no cases"));
    }
    Ok(cases)
}

fn run(rt: &HostRuntime) -> anyhow::Result<()> {
    let mut all = Tally::default();
    for name in SHEETS {
        let tally = compare_group(rt, name)?;
        let group = Group {
            name,
            cases: "sheets",
            tally,
        };
        add_group(rt, &mut all, group)?;
    }
    end(rt, all)
}

fn main(rt: HostRuntime) -> anyhow::Result<()> {
    run(&rt)
}
