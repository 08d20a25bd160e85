// The figures at the edges of the rules, each proved of the definitions that the contracts cite.
#![tactic(auto)]

ghost use Rattle.edges.specs.Figures.{Figures};

// That the figures stand. It answers how many rows their table has.
#[tactic(auto, using(crate::proofs::Table::figures))]
pub fn figures_stand() -> u8
    ensures { Figures }
{
    12
}
