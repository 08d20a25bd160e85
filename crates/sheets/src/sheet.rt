// A whole sheet.
ghost use Rattle.std.specs.Prelude.{◌≡◌, List, IfOk, MatchResult};
ghost use Rattle.premise.specs.declared.play.Call.{Call};
ghost use Rattle.premise.specs.declared.opening.Opening.{Opening};
ghost use Rattle.sheets.specs.declared.fault.SectionFault.TheVariants.{Memory};
ghost use Rattle.sheets.specs.declared.fault.SheetFault.TheVariants.{Calls};
ghost use Rattle.sheets.specs.Sections.{SheetRead, SheetRefused};
ghost use Rattle.sheets.specs.Texts.{TextOf, NoTwoAlike};

use crate::fault::SheetFault;
use crate::reader::Reader;
use premise::opening::Opening;
use premise::play::Call;
use std::alloc::Global;

// The most bytes of a sheet.
pub const MOST_BYTES: usize = 8_192;

// A premise's opening and its calls.
#[derive(Drop)]
pub struct Sheet {
    pub opening: Opening,
    pub calls: Vec<Call>,
}

// The opening and the calls whose text the bytes are.
pub fn read_sheet(heap: Global, bytes: &[u8]) -> Result<Sheet, SheetFault>
    ensures answer { MatchResult result (λ s. SheetRead bytes.now s.opening s.calls.items) (SheetRefused bytes.now) }
    ensures text { IfOk result (λ s. TextOf bytes.now s.opening s.calls.items) }
    ensures back { (o : Opening) (cs : List Call) → TextOf bytes.now o cs → MatchResult result (λ s. (s.opening ≡ o) × (s.calls.items ≡ cs)) (λ e. e ≡ Calls Memory) }
    ensures alike { NoTwoAlike }
{
    read_lines(heap, bytes)
}

fn read_lines(heap: Global, bytes: &[u8]) -> Result<Sheet, SheetFault>
    ensures { MatchResult result (λ s. SheetRead bytes.now s.opening s.calls.items) (SheetRefused bytes.now) }
{
    if bytes.len() > MOST_BYTES {
        return Err(SheetFault::Long);
    }
    let mut reader = Reader {
        rest: bytes,
        line: 0,
    };
    let opening = reader.premise().map_err(SheetFault::Premise)?;
    let calls = reader.calls(heap).map_err(SheetFault::Calls)?;
    if !reader.at_end() {
        return Err(SheetFault::Rest);
    }
    Ok(Sheet { opening, calls })
}

#[cfg(test)]
mod tests;
