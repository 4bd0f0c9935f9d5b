// The lines on standard output. Every number is decimal, with one space before it.
use body_samples::Sample;
use print::{field, signed, text};
use std::io;
use std::io::Write;
use wal_types::Refusal;

// What filling from a body of `length` bytes answered.
pub(crate) fn answered<W: Write>(
    out: &mut W,
    length: usize,
    answer: Result<usize, Refusal>,
) -> io::Result<()> {
    text(out, b"fill")?;
    field(out, length as u64)?;
    text(out, b" ->")?;
    let refusal = body_samples::fill_number(answer);
    if refusal == 0 {
        text(out, b" filled")?;
    } else {
        text(out, b" refused")?;
        field(out, u64::from(refusal))?;
    }
    field(out, body_samples::fill_value(answer) as u64)?;
    text(out, b"\n")
}

pub(crate) fn sample<W: Write>(out: &mut W, sample: Sample) -> io::Result<()> {
    text(out, b"sample")?;
    field(out, sample.id.0)?;
    text(out, b" ")?;
    signed(out, varint::zigzag_of(sample.time.0))?;
    field(out, sample.bits)?;
    text(out, b"\n")
}
