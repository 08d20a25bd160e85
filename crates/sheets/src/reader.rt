// What is left of a sheet as it is read.
ghost use Rattle.std.specs.Prelude.{◌≡◌, ◌+◌, ◌≤◌, length};

use crate::fault::SectionFault;
use crate::line::Line;
use fields::cut::cut;

#[derive(Clone, Copy)]
pub(crate) struct Reader<'a> {
    // The bytes that are left.
    pub(crate) rest: &'a [u8],
    // How many lines are read.
    pub(crate) line: u32,

    // each line that was read took a byte at least, and a sheet has at most 8,192
    ghost few: { line + length rest.now ≤ 8192 },
}

impl<'a> Reader<'a> {
    ghost use Rattle.std.specs.Prelude.{IfOk, MatchResult};
    ghost use Rattle.std.specs.Fn.{FnOnceReturnsAtMut};
    ghost use Rattle.sheets.specs.Sections.{lines_left, line_at, line_held, SectionRead, nothing_left, Back};

    // The next line, which is then read.
    pub(crate) fn next_line(&mut self) -> Result<Line<'a>, SectionFault>
        ensures text { SectionRead self.new (self.old.line + 1) (line_at (self.old.line + 1) (lines_left self.old)) (line_held result) }
        ensures number { IfOk result (λ l. l.number ≡ self.old.line + 1) }
    {
        let number = self.line + 1;
        let (text, rest) = cut(self.rest, b'\n').ok_or(SectionFault::Missing(number))?;
        *self = Reader { rest, line: number };
        Ok(Line { text, number })
    }

    // Whether the whole sheet is read.
    pub(crate) fn at_end(&self) -> bool
        ensures { result ≡ nothing_left (lines_left self.now) }
    {
        self.rest.is_empty()
    }

    // Takes a step, and is put back where the step is refused.
    pub(crate) fn all_or_none<T, F: FnOnce(&mut Reader<'a>) -> Result<T, SectionFault>>(
        &mut self,
        step: F,
    ) -> Result<T, SectionFault>
        requires { F.IsAlwaysCallable step }
        ensures found { MatchResult result (λ _. FnOnceReturnsAtMut F.FnOnce step self.old result self.new) (λ _. (after : _) × FnOnceReturnsAtMut F.FnOnce step self.old result after) }
        ensures back { Back result self.old self.new }
    {
        let start = *self;
        let guard = Rewind {
            reader: self,
            start,
        };
        let value = step(guard.reader)?;
        guard.accept();
        Ok(value)
    }
}

// Puts the reader back to the start of a section, unless the section is accepted.
struct Rewind<'r, 'a> {
    reader: &'r mut Reader<'a>,
    start: Reader<'a>,
}

impl Rewind<'_, '_> {
    // Leaves the reader behind the section: a guard that is taken apart is not dropped.
    fn accept(self)
        ensures { self.exit.0.now ≡ self.entry.reader.now }
    {
        let Rewind {
            reader: _,
            start: _,
        } = self;
    }
}

impl Drop for Rewind<'_, '_> {
    fn drop(self)
        ensures { self.exit.0.now ≡ self.entry.start }
    {
        let Rewind { reader, start } = self;
        *reader = start;
    }
}
