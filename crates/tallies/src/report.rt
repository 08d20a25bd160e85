// What a program tells of the cases that it compared.
ghost use Rattle.std.specs.Prelude.{◌≡◌, true, Some, is_ok, IfOk, if◌then◌else◌};
ghost use Rattle.tallies.specs.Tallies.{sum_of, is_good};
ghost use Rattle.tallies.specs.Reports.{line_of};

use crate::tally::Tally;
use anyhow::anyhow;
use std::{fmt, io};

// A group of cases, which are sheets or others, and how many of them are as expected.
#[derive(Clone, Copy)]
pub struct Group<'a> {
    pub name: &'a str,
    pub cases: &'a str,
    pub tally: Tally,
}

impl fmt::Display for Group<'_> {
    ghost output = { λ group. Some (line_of group) };

    fn fmt<W: fmt::Write>(&self, f: &mut fmt::Formatter<W>) -> fmt::Result {
        let Group { name, cases, tally } = *self;
        let Tally {
            compared,
            differing,
        } = tally;
        if tally.is_good() {
            write!(f, "{name}: {compared} {cases}, all as expected")
        } else {
            write!(f, "{name}: {compared} {cases}, {differing} not as expected")
        }
    }
}

// The end of a group: a line for it, and its cases added to all.
pub fn add_group(rt: &HostRuntime, all: &mut Tally, group: Group<'_>) -> io::Result<()>
    ensures { all.new ≡ (if is_ok result then sum_of all.old group.entry.tally else all.old) }
{
    println!(rt; "{group}")?;
    *all += group.tally;
    Ok(())
}

// The end of a program that compared cases: a line for all of them, and an error unless they are as expected.
pub fn end(rt: &HostRuntime, all: Tally) -> anyhow::Result<()>
    ensures { IfOk result (λ _. is_good all ≡ true) }
{
    let group = Group {
        name: "in all",
        cases: "cases",
        tally: all,
    };
    println!(rt; "{group}")?;
    if !all.is_good() {
        return Err(anyhow!("not all is as expected"));
    }
    Ok(())
}
