// Reads every segment of the table of named damage from the start, and prints its case with the
// answer of this library. The table is tests/damage.txt, whose head gives its form; what this has
// to print is the table without its comments.
#![tactic(auto)]

mod items;
mod search;

use full_read::read_full;
use items::SEGMENT_MAX;
use print::text;
use std::io;
use std::io::Write;

fn main(rt: HostRuntime) -> io::Result<()> {
    let mut table = [0u8; 32768];
    let mut segment = [0u8; SEGMENT_MAX];
    let mut input = rt.reader();
    let mut out = io::writer(&rt);
    let (got, ended) = read_full(&mut input, &mut table);
    ended?;
    // Whether more bytes follow: the segment is unused until the first case.
    let (more, ended) = read_full(&mut input, &mut segment);
    ended?;
    if 0 < more {
        return text(&mut out, b"the table is too long\n");
    }
    answer_cases(&mut out, &table[..got], &mut segment)
}

// Every line that is no comment. A line is taken with its newline.
fn answer_cases<W: Write>(out: &mut W, table: &[u8], segment: &mut [u8]) -> io::Result<()> {
    for line in table.split_inclusive(|b| *b == b'\n') {
        if !line.starts_with(b"#") {
            answer_case(out, line, segment)?;
        }
    }
    Ok(())
}

// Prints the line with the answer of this library in place of its own. A malformed line is printed
// with words before it, so that it differs from the table.
fn answer_case<W: Write>(out: &mut W, line: &[u8], segment: &mut [u8]) -> io::Result<()> {
    let name = search::behind_first(line, b';');
    let bytes = search::behind_last(line);
    match items::expand(&line[bytes..], segment) {
        Some(n) => {
            text(out, &line[..name])?;
            text(out, b" ")?;
            listing::list(out, &segment[..n], b"; ")?;
            text(out, &line[bytes..])
        }
        None => {
            text(out, b"malformed or too long: ")?;
            text(out, line)
        }
    }
}
