//! Why and where a text is refused.
ghost use Rattle.std.specs.Prelude.{◌≡◌};
ghost use Rattle.records.specs.Faults.{number_of_fault, line_of_fault, layer_of_fault};

use ledger::Layer;

/// A text's refusal, with the line that is bad or missing, counted from 1 over the whole text.
#[derive(Clone, Copy, Debug, PartialEq, Eq)]
pub enum TextFault {
    /// The line has the wrong key or no equals sign, or the text ends before it.
    WrongKey { line: usize },
    /// The kind is none of the letters.
    UnknownKind { line: usize },
    /// The value is not the text of a number.
    MalformedValue { line: usize },
}

impl TextFault {
    /// The refusal's number.
    pub fn number(self) -> u8
        ensures { result ≡ number_of_fault self }
    {
        match self {
            TextFault::WrongKey { .. } => 1,
            TextFault::UnknownKind { .. } => 2,
            TextFault::MalformedValue { .. } => 3,
        }
    }

    /// The line that is bad or missing.
    pub fn line(self) -> usize
        ensures { result ≡ line_of_fault self }
    {
        match self {
            TextFault::WrongKey { line }
            | TextFault::UnknownKind { line }
            | TextFault::MalformedValue { line } => line,
        }
    }

    /// The layer of the refusal.
    pub fn layer(self) -> Layer
        ensures { result ≡ layer_of_fault self }
    {
        match self {
            TextFault::WrongKey { .. }
            | TextFault::UnknownKind { .. }
            | TextFault::MalformedValue { .. } => Layer::Text,
        }
    }
}
