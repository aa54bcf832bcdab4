//! What is left of a text, with the number of its first line.
ghost use Rattle.std.specs.Prelude.{◌+◌, ◌^◌, ◌≤◌, length};

/// What is left of a text, and the number of its first line, counted over the whole text.
#[derive(Clone, Copy, Debug, PartialEq, Eq)]
pub(crate) struct Lines<'t> {
    pub(crate) text: &'t [u8],
    pub(crate) line: usize,
    ghost near: { line + length text.now ≤ 2 ^ 63 },
}

mod calls;
