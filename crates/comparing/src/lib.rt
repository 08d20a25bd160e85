// Sheets played, and their listings compared with the expected ones. A case is a folder with the file `sheet` and its expected
// `listing`; a group is a folder of cases.
#![tactic(auto)]

ghost use Rattle.std.specs.Prelude.{◌≡◌, ◌-◌, ◌^◌, IfOk, Decides, IsSorted, min, vec_len};
ghost use Rattle.clerk.specs.Jobs.{sheet_listing};

use anyhow::anyhow;
use clerk::{Unlisted, list_sheet};
use listing::list::LEAST_BUFFER;
use std::alloc::Global;
use std::{fs, io};
use tallies::tally::Tally;

// The cases of a group, in the order of their names.
pub fn cases_of(rt: &HostRuntime, group: &str) -> anyhow::Result<Vec<String>>
    ensures { IfOk result (λ cases. IsSorted ⟦<String as Ord>⟧.cmp cases.items) }
{
    let mut cases: Vec<String> = fs::read_dir(rt, group)?
        .map(|case| -> anyhow::Result<String> {
            Ok(String::from_str(rt.alloc(), case?.path().as_str())?)
        })
        .try_collect(rt.alloc())?;
    cases.sort()?;
    Ok(cases)
}

// Compares each of the cases.
pub fn compare_sheets(rt: &HostRuntime, cases: &Vec<String>) -> io::Result<Tally>
    ensures { IfOk result (λ tally. tally.compared ≡ min (vec_len cases.now) (2 ^ 32 - 1)) }
{
    let mut tally = Tally::default();
    for case in cases.iter() {
        tally.count(rt, case.as_str(), compare_sheet(rt, case.as_str()))?;
    }
    Ok(tally)
}

fn compare_sheet(rt: &HostRuntime, case: &str) -> anyhow::Result<()> {
    let sheet = fs::read(rt, format!(in rt.alloc(); "{case}/sheet")?.as_str())?;
    let expected = fs::read(rt, format!(in rt.alloc(); "{case}/listing")?.as_str())?;
    match has_listing(rt.alloc(), sheet.as_slice(), expected.as_slice()) {
        Ok(true) => Ok(()),
        Ok(false) => Err(anyhow!("the listing differs")),
        Err(_) => Err(anyhow!("there is no listing, for want of memory")),
    }
}

// Whether the listing of a sheet is the expected one.
#[tactic(auto, using(crate::proofs::Fronts::front_compared))]
pub fn has_listing(heap: Global, sheet: &[u8], expected: &[u8]) -> Result<bool, Unlisted>
    ensures { IfOk result (λ same. Decides same (sheet_listing sheet.now ≡ expected.now)) }
{
    let mut buffer = [0; LEAST_BUFFER];
    let count = list_sheet(heap, sheet, &mut buffer)?;
    Ok(&buffer[..count] == expected)
}

#[cfg(test)]
mod tests {
    use super::*;
    use std::test::Fail;

    #[test]
    fn compares(rt: HostRuntime) -> Result<(), Fail> {
        assert!(rt; has_listing(rt.alloc(), b"", b"X P 1 0 8\n") == Ok(true));
        assert!(rt; has_listing(rt.alloc(), b"", b"") == Ok(false));
        Ok(())
    }

    // The cases of a group come in the order of their names, and one that has no sheet differs.
    #[test]
    fn cases_without_a_sheet(rt: HostRuntime) -> anyhow::Result<()> {
        fs::create_dir_all(&rt, "comparing-group/b")?;
        fs::create_dir_all(&rt, "comparing-group/a")?;
        let cases = cases_of(&rt, "comparing-group")?;
        fs::remove_dir_all(&rt, "comparing-group")?;
        assert!(rt; cases.len() == 2);
        assert!(rt; cases[0].as_str() == "comparing-group/a");
        assert!(rt; cases[1].as_str() == "comparing-group/b");
        let tally = compare_sheets(&rt, &cases)?;
        assert_eq!(rt; tally.compared, 2);
        assert_eq!(rt; tally.differing, 2);
        Ok(())
    }
}
