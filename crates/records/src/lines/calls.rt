//! How the lines of a text are taken off, one by one.
ghost use Rattle.std.specs.Prelude.{◌≡◌, ◌≤◌, [], length};
ghost use Rattle.records.specs.Lines.{Keyed, Parted, texts};
ghost use Rattle.records.specs.Outcome.{Fields, Kinded};

use super::Lines;
use crate::fault::TextFault;
use crate::field::{Field, split};
use crate::kind::{Kind, MOST_KEYS};
use arrayvec::ArrayVec;

impl<'t> Lines<'t> {
    /// The first line, and the lines after it.
    fn first_field(self) -> Result<(Field<'t>, Lines<'t>), TextFault>
        ensures { Parted self.entry result }
    {
        let line = self.line;
        // The split of a line is taken apart by `let .. else`, as the book's rules for code ask.
        let Some((first, text)) = split(self.text, b'\n') else {
            return Err(TextFault::WrongKey { line });
        };
        let Some((key, value)) = split(first, b'=') else {
            return Err(TextFault::WrongKey { line });
        };
        let rest = Lines {
            text,
            line: line + 1,
        };
        if key == b"kind".as_slice() {
            return Ok((Field::Kind { line, value }, rest));
        }
        Ok((Field::Number { line, key, value }, rest))
    }

    /// The same, where the line has to have the key `wanted`.
    fn keyed_field(self, wanted: &[u8]) -> Result<(Field<'t>, Lines<'t>), TextFault>
        ensures { Keyed wanted.now self.entry result }
    {
        let (field, rest) = self.first_field()?;
        if field.has_key(wanted) {
            return Ok((field, rest));
        }
        Err(TextFault::WrongKey { line: self.line })
    }

    /// The kind that the first line says, and the lines after it.
    pub(crate) fn kind(self) -> Result<(Kind, Lines<'t>), TextFault>
        ensures { Kinded self.entry result }
    {
        let line = self.line;
        let (field, rest) = self.first_field()?;
        // A case of a field, and no Option that `ok_or` could take.
        let Field::Kind { value, .. } = field else {
            return Err(TextFault::WrongKey { line });
        };
        let kind = Kind::try_from(value).map_err(|_| TextFault::UnknownKind { line })?;
        Ok((kind, rest))
    }

    /// Lists the lines with these keys, and gives the lines after them.
    // The list is lent, since one that is handed out is copied several times on its way.
    pub(crate) fn fields(
        self,
        keys: &[&[u8]],
        found: &mut ArrayVec<Field<'t>, MOST_KEYS>,
    ) -> Result<Lines<'t>, TextFault>
        requires few { length keys.now ≤ MOST_KEYS }
        requires none { found.old.items ≡ [] }
        ensures { Fields (texts keys.now) self.entry found.new result }
    {
        let mut rest = self;
        for key in keys {
            let (field, after) = rest.keyed_field(key)?;
            found.push(field);
            rest = after;
        }
        Ok(rest)
    }
}
