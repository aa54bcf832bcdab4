//! gasbook: reads records from standard input into a book, and prints a line for each one that is refused. How many
//! were accepted and refused goes to standard error, apart from the listing.
#![tactic(auto)]

mod desk;
mod store;

use desk::Desk;
use records::Reader;
use settlement::{Fault, Tables};
use std::io::Read;
use std::{fmt, io};
use store::Store;

/// A refused record: the number of the ground, the record's own, and the line where it begins.
#[derive(Clone, Copy, Debug, PartialEq, Eq)]
struct Refusal {
    number: u8,
    record: usize,
    line: usize,
}

impl Refusal {
    fn new(fault: Fault, record: usize, line: usize) -> Refusal {
        Refusal {
            number: fault.number(),
            record,
            line,
        }
    }
}

impl fmt::Display for Refusal {
    fn fmt<W: fmt::Write>(&self, f: &mut fmt::Formatter<W>) -> fmt::Result {
        write!(
            f,
            "refused={} record={} line={}",
            self.number, self.record, self.line
        )
    }
}

/// Takes every record of a text, and prints the refused. A fault of the text ends the run.
fn run(rt: &HostRuntime, text: &[u8], t: &mut Tables<'_>) -> io::Result<()> {
    let mut reader = Reader::new(text);
    let mut desk = Desk::new();
    let mut accepted: usize = 0;
    let mut refused: usize = 0;
    // a record takes at least a byte, so that the bytes bound the records, and the run is seen to end
    for record in 1..=text.len() {
        match reader.next() {
            Ok(Some(taken)) => match desk.take(t, taken.read) {
                Ok(()) => accepted = accepted.saturating_add(1),
                Err(fault) => {
                    refused = refused.saturating_add(1);
                    let refusal = Refusal::new(fault, record, taken.line);
                    println!(rt; "{refusal}")?;
                }
            },
            Ok(None) => break,
            Err(fault) => {
                refused = refused.saturating_add(1);
                let refusal = Refusal::new(Fault::from(fault), record, fault.line());
                println!(rt; "{refusal}")?;
                break;
            }
        }
    }
    eprintln!(rt; "records: {accepted} accepted, {refused} refused")
}

fn main(rt: HostRuntime) -> anyhow::Result<()> {
    let mut text = Vec::new(rt.alloc());
    rt.stdin().read_to_end(&mut text)?;
    let mut store = Store::new(rt.alloc())?;
    run(&rt, &text, &mut store.tables())?;
    Ok(())
}
