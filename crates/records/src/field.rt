//! A line of a record, split into its key and its value.
ghost use Rattle.std.specs.Prelude.{◌==◌, ◌≡◌, position};
ghost use Rattle.std.specs.Str.{bytes_eq};
ghost use Rattle.records.specs.Text.{Split};
ghost use Rattle.records.specs.Lines.{key_of, seen};

/// A line's number, and the parts of the text before and after its first equals sign.
#[derive(Clone, Copy, Debug, PartialEq, Eq)]
pub enum Field<'t> {
    /// The line whose key is `kind`.
    Kind {
        line: usize,
        value: &'t [u8],
    },
    /// A line with any other key: its value is to write a number.
    Number {
        line: usize,
        key: &'t [u8],
        value: &'t [u8],
    },
}

impl<'t> Default for Field<'t> {
    /// What a list of lines holds in the places that no line takes.
    fn default() -> Field<'t> {
        Field::Kind {
            line: 0,
            value: &[],
        }
    }
}

impl<'t> Field<'t> {
    /// The number of the line.
    pub(crate) fn line(self) -> usize
        ensures { result ≡ (seen self.entry).0 }
    {
        match self {
            Field::Kind { line, .. } | Field::Number { line, .. } => line,
        }
    }

    /// What stands after the equals sign.
    pub(crate) fn value(self) -> &'t [u8]
        ensures { result.now ≡ (seen self.entry).1 }
    {
        match self {
            Field::Kind { value, .. } | Field::Number { value, .. } => value,
        }
    }

    /// Whether the key is `wanted`.
    pub(crate) fn has_key(self, wanted: &[u8]) -> bool
        ensures { result ≡ bytes_eq (key_of self.entry) wanted.now }
    {
        match self {
            Field::Kind { .. } => b"kind".as_slice() == wanted,
            Field::Number { key, .. } => key == wanted,
        }
    }
}

/// The place of the first byte `b`.
fn place_of(text: &[u8], b: u8) -> Option<usize>
    ensures { result ≡ position (λ x. x == b) text.now }
{
    text.iter().position(|x| *x == b)
}

/// What stands before and after the first byte `b`.
pub(crate) fn split(text: &[u8], b: u8) -> Option<(&[u8], &[u8])>
    ensures { Split b text.now result }
{
    let i = place_of(text, b)?;
    Some((&text[..i], &text[i + 1..]))
}
