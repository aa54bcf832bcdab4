//! Where a refusal comes from.

/// The part of a program that refuses.
#[derive(Clone, Copy, Debug, PartialEq, Eq)]
pub enum Layer {
    Text,
    Register,
    Rule,
    Book,
}
