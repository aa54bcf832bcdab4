//! Texts, and what is read from them, worked out by hand.
use crate::numeral::number;
use crate::{Reader, Record};
use ledger::Layer;
use std::test::Fail;

/// The number and the line of the first refusal among a text's first records, if there is one.
fn first_fault(text: &[u8]) -> Option<(u8, usize)> {
    let mut reader = Reader::new(text);
    for _ in 0..4 {
        match reader.next() {
            Ok(Some(_)) => {}
            Ok(None) => return None,
            Err(fault) => return Some((fault.number(), fault.line())),
        }
    }
    None
}

/// One text of each letter: the numbers come in the order of the keys.
#[test]
fn letters(rt: HostRuntime) -> Result<(), Fail> {
    let texts: [(&[u8], Record); 13] = [
        (
            b"kind=B\nyear=1\nmonth=2\ndays=3\nusers=4\nentries=5\nzones=6\n",
            Record::Book {
                year: 1,
                month: 2,
                days: 3,
                users: 4,
                entries: 5,
                zones: 6,
            },
        ),
        (
            b"kind=P\nzone=1\nuser=2\nclass=3\nread=4\nband=5\naq=6\nindex=7\n",
            Record::Point {
                zone: 1,
                user: 2,
                class: 3,
                read: 4,
                band: 5,
                aq: 6,
                index: 7,
            },
        ),
        (b"kind=G\n", Record::Start),
        (
            b"kind=E\nday=1\nentry=2\nquantity=3\n",
            Record::EntryMeasurement {
                day: 1,
                entry: 2,
                quantity: 3,
            },
        ),
        (
            b"kind=Z\nday=1\nzone=2\nquantity=3\n",
            Record::ZoneMeasurement {
                day: 1,
                zone: 2,
                quantity: 3,
            },
        ),
        (
            b"kind=W\nday=1\nzone=2\ncv=3\nwcf=4\n",
            Record::Weather {
                day: 1,
                zone: 2,
                cv: 3,
                wcf: 4,
            },
        ),
        (
            b"kind=A\nday=1\nband=2\nalp=3\ndaf=4\n",
            Record::Profile {
                day: 1,
                band: 2,
                alp: 3,
                daf: 4,
            },
        ),
        (
            b"kind=S\nday=1\nentry=2\nuser=3\nquantity=4\n",
            Record::Statement {
                day: 1,
                entry: 2,
                user: 3,
                quantity: 4,
            },
        ),
        (
            b"kind=Q\nday=1\npoint=2\nquantity=3\n",
            Record::DailyQuantity {
                day: 1,
                point: 2,
                quantity: 3,
            },
        ),
        (
            b"kind=T\nday=1\nseller=2\nbuyer=3\nquantity=4\n",
            Record::Trade {
                day: 1,
                seller: 2,
                buyer: 3,
                quantity: 4,
            },
        ),
        (b"kind=C\n", Record::CloseDay),
        (
            b"kind=R\npoint=1\nday=2\nindex=3\n",
            Record::Reading {
                point: 1,
                day: 2,
                index: 3,
            },
        ),
        (b"kind=M\n", Record::CloseMonth),
    ];
    for (text, record) in texts.iter() {
        let mut reader = Reader::new(text);
        // the pattern asks for a record that was read and that is there, in one step
        let Ok(Some(taken)) = reader.next() else {
            return Err(Fail::new("refused"));
        };
        assert_eq!(rt; taken.read, *record);
        assert_eq!(rt; taken.bytes, text.len());
    }
    Ok(())
}

/// What is a number's text, and what is not.
#[test]
fn numbers(rt: HostRuntime) {
    let values: [(&[u8], i64); 7] = [
        (b"0", 0),
        (b"7", 7),
        (b"-7", -7),
        (b"10", 10),
        (b"-10", -10),
        (b"99999999999", 99_999_999_999),
        (b"-99999999999", -99_999_999_999),
    ];
    for (value, n) in values.iter() {
        assert_eq!(rt; number(value), Some(*n));
    }
    let malformed: [&[u8]; 14] = [
        b"",
        b"-",
        b"-0",
        b"+1",
        b"01",
        b"-01",
        b"00",
        b"--1",
        b"100000000000",
        b"-100000000000",
        b" 1",
        b"1\r",
        b"1=2",
        b"\xd9\xa3",
    ];
    for value in malformed.iter() {
        assert_eq!(rt; number(value), None);
    }
}

/// The refusals: the number and the line of each.
#[test]
fn faults(rt: HostRuntime) {
    let texts: [(&[u8], Option<(u8, usize)>); 32] = [
        (b"", None),
        (b"kind=C\nkind=M\n", None),
        // the first line
        (b"\n", Some((1, 1))),
        (b"kind\n", Some((1, 1))),
        (b"Kind=C\n", Some((1, 1))),
        (b"kinds=C\n", Some((1, 1))),
        (b"=C\n", Some((1, 1))),
        (b"kind=X\n", Some((2, 1))),
        (b"kind=c\n", Some((2, 1))),
        (b"kind=\n", Some((2, 1))),
        (b"kind=CC\n", Some((2, 1))),
        (b"kind=C\r\n", Some((2, 1))),
        (b"kind==C\n", Some((2, 1))),
        (b"kind=\xc3\n", Some((2, 1))),
        (b"kind=C\n\nkind=C\n", Some((1, 2))),
        // the text ends in a record
        (b"kind=E", Some((1, 1))),
        (b"kind=E\n", Some((1, 2))),
        (b"kind=E\nday=1", Some((1, 2))),
        (b"kind=E\nday=1\n", Some((1, 3))),
        (b"kind=E\nday=1\nentry=2\n", Some((1, 4))),
        (b"kind=E\nday=1\nentry=2\nquantity=3", Some((1, 4))),
        // a wrong key
        (b"kind=E\nday=1\nentry\nquantity=3\n", Some((1, 3))),
        (b"kind=E\nday=1\n\nquantity=3\n", Some((1, 3))),
        (b"kind=E\nday=1\nquantity=3\nentry=2\n", Some((1, 3))),
        (b"kind=E\ndays=1\nentry=2\nquantity=3\n", Some((1, 2))),
        (b"kind=E\nkind=1\nentry=2\nquantity=3\n", Some((1, 2))),
        (
            b"kind=B\nyear=1\nmonth=2\nday=3\nusers=4\nentries=5\nzones=6\n",
            Some((1, 4)),
        ),
        // a malformed value, and two bad lines
        (
            b"kind=M\nkind=E\nday=1\nentry=2\nquantity=3=4\n",
            Some((3, 5)),
        ),
        (b"kind=E\nday=1\r\nentry=2\nquantity=3\n", Some((3, 2))),
        (b"kind=E\nday=1\nentry=x\nquantity=\n", Some((3, 3))),
        (b"kind=E\nday=x\nentry=2\nquantities=3\n", Some((1, 4))),
        (b"kind=X\nday\n", Some((2, 1))),
    ];
    for (text, fault) in texts.iter() {
        assert_eq!(rt; first_fault(text), *fault);
    }
}

/// A long line is a line like any other.
#[test]
fn long_line(rt: HostRuntime) {
    let mut text = [b'1'; 300];
    text[4] = b'=';
    text[299] = b'\n';
    assert_eq!(rt; first_fault(&text), Some((1, 1)));
    text[0] = b'k';
    text[1] = b'i';
    text[2] = b'n';
    text[3] = b'd';
    assert_eq!(rt; first_fault(&text), Some((2, 1)));
}

/// The reader goes on after a record, and stays at a fault.
#[test]
fn goes_on(rt: HostRuntime) -> Result<(), Fail> {
    let mut reader = Reader::new(b"kind=Z\nday=1\nzone=2\nquantity=3\nkind=C\nkind=x\n");
    // the pattern asks for a record that was read and that is there, in one step
    let Ok(Some(first)) = reader.next() else {
        return Err(Fail::new("first"));
    };
    assert_eq!(rt; first.line, 1);
    assert_eq!(rt; first.lines, 4);
    let Ok(Some(second)) = reader.next() else {
        return Err(Fail::new("second"));
    };
    assert_eq!(rt; second.line, 5);
    assert_eq!(rt; second.bytes, 7);
    for _ in 0..2 {
        let fault = reader.next().err().ok_or_else(|| Fail::new("third"))?;
        assert_eq!(rt; fault.line(), 6);
        assert_eq!(rt; fault.layer(), Layer::Text);
    }
    Ok(())
}
