//! What a reader is asked.
ghost use Rattle.std.specs.Prelude.{◌≡◌};
ghost use Rattle.records.specs.Exact.{Exactly};
ghost use Rattle.records.specs.Outcome.{next_of};
ghost use Rattle.records.specs.Progress.{Begun, Moved, left, line_at};

use super::Reader;
use crate::body::{Taken, next_record};
use crate::fault::TextFault;
use crate::lines::Lines;

impl<'t> Reader<'t> {
    /// A reader at the beginning of a text.
    pub fn new(text: &'t [u8]) -> Reader<'t>
        ensures { Begun text.now result }
    {
        Reader {
            text,
            bytes: 0,
            lines: 0,
        }
    }

    /// The lines that are left.
    fn lines_left(&self) -> Lines<'t>
        ensures text { result.text.now ≡ left self.now }
        ensures line { result.line ≡ line_at self.now }
    {
        let text = self.text;
        Lines {
            text: &text[self.bytes..],
            line: self.lines + 1,
        }
    }

    /// The next record, if anything is left. At a fault the reader stays where it is.
    pub fn next(&mut self) -> Result<Option<Taken>, TextFault>
        ensures answer { result ≡ next_of (left self.old) (line_at self.old) }
        ensures exact { Exactly (left self.old) (line_at self.old) result }
        ensures moved { Moved result self.old self.new }
    {
        let Some(taken) = next_record(self.lines_left())? else {
            return Ok(None);
        };
        self.bytes += taken.bytes;
        self.lines += taken.lines;
        Ok(Some(taken))
    }
}
