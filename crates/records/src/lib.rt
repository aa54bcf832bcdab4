//! The exact text reader: records as lines of text, and the faults of a text.
#![tactic(auto)]

ghost use Rattle.records.specs.Exact.{Apart};
ghost use Rattle.records.specs.Examples.{Examples};

mod body;
mod fault;
mod field;
mod kind;
mod lines;
mod numeral;
mod reader;
#[cfg(test)]
mod tests;

pub use body::Taken;
pub use fault::TextFault;
pub use kind::{Kind, Record, UnknownKind};
pub use reader::Reader;

/// Two records never have the same text, and none's text is the front of another's.
pub fn texts_stand_apart()
    ensures { Apart }
{}

/// The definitions say what they should of a dozen texts.
pub fn examples_stand()
    ensures { Examples }
{}
