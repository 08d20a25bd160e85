// How many cases were compared, and how many of them were not as expected.
ghost use Rattle.std.specs.Prelude.{◌≡◌, is_ok};
ghost use Rattle.tallies.specs.Tallies.{counted, sum_of, is_good};

use std::io;
use std::ops::AddAssign;

#[derive(Clone, Copy, Default)]
pub struct Tally {
    pub compared: u32,
    pub differing: u32,
}

impl Tally {
    // Counts a case, and names it with its fault if it has one.
    pub fn count(
        &mut self,
        rt: &HostRuntime,
        case: &str,
        outcome: anyhow::Result<()>,
    ) -> io::Result<()>
        ensures { self.new ≡ counted self.old (is_ok outcome) }
    {
        self.compared = self.compared.saturating_add(1);
        match outcome {
            Ok(()) => Ok(()),
            Err(fault) => {
                self.differing = self.differing.saturating_add(1);
                println!(rt; "{case}: {fault}")
            }
        }
    }

    // Whether there are cases, and none differs.
    pub fn is_good(&self) -> bool
        ensures { result ≡ is_good self.now }
    {
        self.compared > 0 && self.differing == 0
    }
}

impl AddAssign for Tally {
    ghost add_assign_gives = { λ t u r. r ≡ sum_of t u };

    fn add_assign(&mut self, more: Tally) {
        self.compared = self.compared.saturating_add(more.compared);
        self.differing = self.differing.saturating_add(more.differing);
    }
}
