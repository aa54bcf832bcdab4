//! A reader that goes over a text, record by record.
ghost use Rattle.std.specs.Prelude.{◌*◌, ◌≤◌, length};

/// A text, and how many of its bytes and lines are read.
#[derive(Drop)]
pub struct Reader<'t> {
    text: &'t [u8],
    bytes: usize,
    lines: usize,
    ghost inside: { bytes ≤ length text.now },
    ghost sparse: { 2 * lines ≤ bytes },
}

mod calls;
