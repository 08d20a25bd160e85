// The sections of a sheet.
use crate::fault::SectionFault;
use crate::reader::Reader;
use premise::opening::Opening;
use premise::play::Call;
use std::alloc::Global;

// The most calls of a sheet.
pub const MOST_CALLS: u32 = 240;

impl Reader<'_> {
    ghost use Rattle.std.specs.Prelude.{◌≡◌, ◌+◌};
    ghost use Rattle.sheets.specs.Sections.{lines_left, premise_section, next_call, calls_of, calls_section, SectionRead, CallsRead, Back};

    // The opening of the premise. A refusal puts the reader back.
    pub(crate) fn premise(&mut self) -> Result<Opening, SectionFault>
        ensures found { SectionRead self.new (self.old.line + 1 + 1) (premise_section (self.old.line + 1) (lines_left self.old)) result }
        ensures back { Back result self.old self.new }
    {
        self.all_or_none(Reader::premise_lines)
    }

    // The premise's count line and its line.
    fn premise_lines(&mut self) -> Result<Opening, SectionFault>
        ensures found { SectionRead self.new (self.old.line + 1 + 1) (premise_section (self.old.line + 1) (lines_left self.old)) result }
    {
        self.next_line()?.count(b"PREMISE", 1, 1)?;
        Ok(self.next_line()?.opening()?)
    }

    // The calls. A refusal puts the reader back.
    pub(crate) fn calls(&mut self, heap: Global) -> Result<Vec<Call>, SectionFault>
        ensures found { CallsRead self.new (calls_section (self.old.line + 1) (lines_left self.old)) result }
        ensures back { Back result self.old self.new }
    {
        self.all_or_none(|reader| reader.counted_calls(heap))
    }

    // The calls' count line and their lines.
    fn counted_calls(&mut self, heap: Global) -> Result<Vec<Call>, SectionFault>
        ensures found { CallsRead self.new (calls_section (self.old.line + 1) (lines_left self.old)) result }
    {
        let count = self.next_line()?.count(b"CALLS", 0, MOST_CALLS)?;
        self.call_lines(heap, count)
    }

    // So many calls, each on its line.
    fn call_lines(&mut self, heap: Global, count: u32) -> Result<Vec<Call>, SectionFault>
        ensures found { CallsRead self.new (calls_of count (self.old.line + 1) (lines_left self.old)) result }
    {
        let mut calls = Vec::with_capacity(heap, count as usize)?;
        for _ in 0..count {
            let call = self.one_call()?;
            calls.push_reserved(call);
        }
        Ok(calls)
    }

    // The call on the next line.
    fn one_call(&mut self) -> Result<Call, SectionFault>
        ensures found { SectionRead self.new (self.old.line + 1) (next_call (self.old.line + 1) (lines_left self.old)) result }
    {
        Ok(self.next_line()?.call()?)
    }
}
