// The groups of cases that stand in one file. A case has a line `# NAME`, a line `< ..` for each line of what is asked, and
// a line `> ..` for each line that is expected.
use crate::{asked, lists};
use anyhow::anyhow;
use std::alloc::Global;
use std::fs;
use tallies::tally::Tally;

// What the cases of a file ask.
#[derive(Clone, Copy)]
pub enum Kind {
    Call,
    Share,
    Demand,
    Fill,
}

impl Kind {
    fn answer(self, heap: Global, lines: &[&str]) -> anyhow::Result<String> {
        match self {
            Kind::Call => asked::answer(heap, lines),
            Kind::Share => lists::share(heap, lines),
            Kind::Demand => lists::demand(heap, lines),
            Kind::Fill => lists::fill(heap, lines),
        }
    }
}

// Compares each case of the file.
pub fn compare_cases(rt: &HostRuntime, file: &str, kind: Kind) -> anyhow::Result<Tally> {
    let text = fs::read_to_string(rt, file)?;
    let text = text.as_str();
    let mut tally = Tally::default();
    for case in text.strip_prefix("# ").unwrap_or(text).split("\n# ") {
        let name = case.lines().next().unwrap_or("");
        let name = format!(in rt.alloc(); "{file}: {name}")?;
        tally.count(rt, name.as_str(), compare_case(rt.alloc(), case, kind))?;
    }
    Ok(tally)
}

// Compares one case, from the line of its name on.
fn compare_case(heap: Global, case: &str, kind: Kind) -> anyhow::Result<()> {
    let mut lines = Vec::new(heap);
    let mut expected = String::new(heap);
    for line in case.lines().skip(1) {
        if let Some(input) = line.strip_prefix("< ") {
            lines.push(input)?;
        } else if let Some(output) = line.strip_prefix("> ") {
            writeln!(expected, "{output}")?;
        } else {
            return Err(anyhow!("a line begins neither with < nor with >"));
        }
    }
    let answer = kind.answer(heap, lines.as_slice())?;
    if answer.as_str() != expected.as_str() {
        return Err(anyhow!(format!(in heap; "the answer is {answer}")?));
    }
    Ok(())
}
