// Fills a list of four samples from sixteen bodies and prints each answer and the whole list
// afterwards. Before each, all four samples are nines: these must be left after a refusal, and
// after the samples of a body that has fewer than four.
//
// For each body it prints one of
//     fill LENGTH -> filled COUNT
//     fill LENGTH -> refused NUMBER PLACE
// where LENGTH is the body's length in bytes, and then a line for each of the four samples:
//     sample ID TIME BITS
// All numbers are decimal.
#![tactic(auto)]

mod lines;
mod list;

use std::io;
use std::io::Write;

fn main(rt: HostRuntime) -> io::Result<()> {
    let mut out = io::writer(&rt);
    types(&mut out)?;
    switches(&mut out)?;
    deltas(&mut out)?;
    rows(&mut out)?;
    others(&mut out)?;
    long_and_cut(&mut out)
}

// No byte; an unknown type; a series body; a samples body without an entry; one that ends before
// its first time.
fn types<W: Write>(out: &mut W) -> io::Result<()> {
    show(out, b"")?;
    show(out, b"\x05")?;
    show(out, b"\x01")?;
    show(out, b"\x02")?;
    show(out, b"\x02\0\0\0\0\0\0\0\0")
}

// The switch of FORMAT 13, at time 1000 id 7 to 0 and id 8 to 1.0: without its rows, whole, and
// without its last byte.
fn switches<W: Write>(out: &mut W) -> io::Result<()> {
    show(out, b"\x02\0\0\0\0\0\0\0\x07\0\0\0\0\0\0\x03\xE8")?;
    show(
        out,
        b"\x02\0\0\0\0\0\0\0\x07\0\0\0\0\0\0\x03\xE8\
        \0\0\0\0\0\0\0\0\0\0\
        \x02\0\x3F\xF0\0\0\0\0\0\0",
    )?;
    show(
        out,
        b"\x02\0\0\0\0\0\0\0\x07\0\0\0\0\0\0\x03\xE8\
        \0\0\0\0\0\0\0\0\0\0\
        \x02\0\x3F\xF0\0\0\0\0\0",
    )
}

// An id delta whose tenth byte is above 1, and a row whose id and time are one less than the first.
fn deltas<W: Write>(out: &mut W) -> io::Result<()> {
    show(
        out,
        b"\x02\0\0\0\0\0\0\0\x07\0\0\0\0\0\0\x03\xE8\
        \xFF\xFF\xFF\xFF\xFF\xFF\xFF\xFF\xFF\xFF",
    )?;
    show(
        out,
        b"\x02\0\0\0\0\0\0\0\x07\0\0\0\0\0\0\x03\xE8\
        \0\0\0\0\0\0\0\0\0\x01\
        \x01\x01\0\0\0\0\0\0\0\x02",
    )
}

// Four rows, which the list just holds, and five, which it does not.
fn rows<W: Write>(out: &mut W) -> io::Result<()> {
    show(
        out,
        b"\x02\0\0\0\0\0\0\0\x07\0\0\0\0\0\0\x03\xE8\
        \0\0\0\0\0\0\0\0\0\x01\
        \0\0\0\0\0\0\0\0\0\x02\
        \0\0\0\0\0\0\0\0\0\x03\
        \0\0\0\0\0\0\0\0\0\x04",
    )?;
    show(
        out,
        b"\x02\0\0\0\0\0\0\0\x07\0\0\0\0\0\0\x03\xE8\
        \0\0\0\0\0\0\0\0\0\x01\
        \0\0\0\0\0\0\0\0\0\x02\
        \0\0\0\0\0\0\0\0\0\x03\
        \0\0\0\0\0\0\0\0\0\x04\
        \0\0\0\0\0\0\0\0\0\x05",
    )
}

// Bodies of the other types, the first and the last of which end inside a field: the type is tested
// before the fields.
fn others<W: Write>(out: &mut W) -> io::Result<()> {
    show(out, b"\x03\x01")?;
    show(out, b"\x04")?;
    show(out, b"\x06\x80")
}

// Five rows, and a sixth that ends after its id delta: the fault is reported, not that the list is
// too short.
fn long_and_cut<W: Write>(out: &mut W) -> io::Result<()> {
    show(
        out,
        b"\x02\0\0\0\0\0\0\0\x07\0\0\0\0\0\0\x03\xE8\
        \0\0\0\0\0\0\0\0\0\x01\
        \0\0\0\0\0\0\0\0\0\x02\
        \0\0\0\0\0\0\0\0\0\x03\
        \0\0\0\0\0\0\0\0\0\x04\
        \0\0\0\0\0\0\0\0\0\x05\
        \0",
    )
}

fn show<W: Write>(out: &mut W, body: &[u8]) -> io::Result<()> {
    let filled = list::fill(body, list::nines());
    lines::answered(out, body.len(), filled.answer)?;
    for sample in filled.list {
        lines::sample(out, sample)?;
    }
    Ok(())
}
