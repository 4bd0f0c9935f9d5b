// The lines that the program prints.
use print::{field, text};
use segment_format::{Good, Record};
use std::io;
use std::io::Write;
use wal_types::Refusal;

pub(crate) fn opened<W: Write>(out: &mut W, length: usize) -> io::Result<()> {
    text(out, b"segment")?;
    field(out, length as u64)?;
    text(out, b"\n")
}

pub(crate) fn yielded<W: Write>(out: &mut W, record: Record) -> io::Result<()> {
    text(out, b"record")?;
    field(out, record.start.0 as u64)?;
    field(out, record.length as u64)?;
    field(out, record.next.0 as u64)
}

pub(crate) fn refused<W: Write>(out: &mut W, why: Refusal) -> io::Result<()> {
    text(out, b"refused")?;
    let n = wal_types::number(why);
    field(out, n as u64)?;
    let place = wal_types::place(why);
    field(out, place.0 as u64)
}

// The good length, which every line ends with.
pub(crate) fn good<W: Write>(out: &mut W, good: Good) -> io::Result<()> {
    text(out, b" good")?;
    field(out, good.records as u64)?;
    field(out, good.offset.0 as u64)?;
    text(out, b"\n")
}
