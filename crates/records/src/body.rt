//! A record from its lines.
ghost use Rattle.std.specs.Prelude.{◌≡◌, ◌≤◌, [], length};
ghost use Rattle.records.specs.Exact.{Exactly};
ghost use Rattle.records.specs.Outcome.{Body, Numbers, next_of, outcome, sights};

use crate::fault::TextFault;
use crate::field::Field;
use crate::kind::{Kind, MOST_KEYS, Record};
use crate::lines::Lines;
use crate::numeral::number;
use arrayvec::ArrayVec;

/// A record, with the number of its first line, and the bytes and lines of its text.
#[derive(Clone, Copy, Debug, PartialEq, Eq)]
pub struct Taken {
    pub read: Record,
    pub line: usize,
    pub bytes: usize,
    pub lines: usize,
}

/// Lists the numbers that the values of these lines write.
fn numbers(fields: &[Field<'_>], found: &mut ArrayVec<i64, MOST_KEYS>) -> Result<(), TextFault>
    requires few { length fields.now ≤ MOST_KEYS }
    requires none { found.old.items ≡ [] }
    ensures { Numbers (sights fields.now) found.new result }
{
    for field in fields {
        let fault = TextFault::MalformedValue { line: field.line() };
        found.push(number(field.value()).ok_or(fault)?);
    }
    Ok(())
}

/// The record of a kind, from the lines after the first, and the lines after it.
fn body(lines: Lines<'_>, kind: Kind) -> Result<(Record, Lines<'_>), TextFault>
    ensures { Body kind lines.entry result }
{
    let mut fields = ArrayVec::new();
    let mut found = ArrayVec::new();
    let rest = lines.fields(kind.keys(), &mut fields)?;
    numbers(&fields, &mut found)?;
    Ok((Record::of(kind, &found), rest))
}

/// The record that the lines begin with.
fn record_at(lines: Lines<'_>) -> Result<Taken, TextFault>
    ensures { result ≡ outcome lines.entry.text.now lines.entry.line }
{
    let (kind, rest) = lines.kind()?;
    let (read, left) = body(rest, kind)?;
    Ok(Taken {
        read,
        line: lines.line,
        bytes: lines.text.len() - left.text.len(),
        lines: left.line - lines.line,
    })
}

/// The record that comes next, if any line is left.
pub(crate) fn next_record(lines: Lines<'_>) -> Result<Option<Taken>, TextFault>
    ensures answer { result ≡ next_of lines.entry.text.now lines.entry.line }
    ensures exact { Exactly lines.entry.text.now lines.entry.line result }
{
    if lines.text.is_empty() {
        return Ok(None);
    }
    record_at(lines).map(Some)
}
