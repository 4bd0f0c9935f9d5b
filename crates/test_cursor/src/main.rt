// Writes eight records into a segment of four pages and reads them with the cursor: once the whole
// segment, and once its first 100,000 bytes, which end in the last fragment of the sixth record.
//
// The records have 1, 1, 37, 32697, 32754, 40000, 25507 and 1 bytes; byte i of a record is i modulo
// 256. Each is written at the place that the write before returned. After the fourth 4 bytes are
// left in its page, which are filler; after the fifth 7, so the sixth begins with a fragment of
// length 0; and the last ends where the segment ends.
//
// For each reading it prints a line `segment N`, where N is the length in bytes, and then a line
// for each of ten reads:
//     record START LENGTH NEXT good RECORDS OFFSET
//     end good RECORDS OFFSET
//     refused NUMBER PLACE good RECORDS OFFSET
// All numbers are decimal, with one space before each. After the first read that gives no record
// the others answer the same.
#![tactic(auto)]

mod lines;

use print::text;
use segment_cursor::Spot;
use segment_format::Good;
use std::io;
use std::io::Write;
use wal_types::{Offset, Version};

const LENGTHS: [usize; 8] = [1, 1, 37, 32697, 32754, 40000, 25507, 1];

// One read for each record, one that finds no more, and one that answers the same again.
const READS: usize = 10;

const CUT: usize = 100000;

fn main(rt: HostRuntime) -> io::Result<()> {
    let mut out = io::writer(&rt);
    let mut bytes = [0u8; 65536];
    count_up(&mut bytes);
    let mut segment = [0u8; 131072];
    write_records(&mut segment, &bytes);
    let mut buffer = [0u8; 65536];
    read_records(&mut out, &segment, &mut buffer)?;
    read_cut(&mut out, &segment, CUT, &mut buffer)
}

// Byte i becomes i modulo 256.
fn count_up(bytes: &mut [u8]) {
    for (i, byte) in bytes.iter_mut().enumerate() {
        *byte = (i % 256) as u8;
    }
}

fn write_records(segment: &mut [u8], bytes: &[u8]) {
    let mut place = Offset(0);
    for length in LENGTHS {
        place = write_record(segment, place, bytes, length);
    }
}

// Writes the first `length` bytes as a record, and returns the place for the next write; where
// there is no room, the place given.
fn write_record(segment: &mut [u8], place: Offset, bytes: &[u8], length: usize) -> Offset {
    let Some(record) = bytes.get(..length) else {
        return place;
    };
    segment_writer::write(Version::One, segment, place, record).unwrap_or(place)
}

// Reads the segment cut after `length` bytes.
fn read_cut<W: Write>(
    out: &mut W,
    segment: &[u8],
    length: usize,
    buffer: &mut [u8],
) -> io::Result<()> {
    match segment.get(..length) {
        Some(front) => read_records(out, front, buffer),
        None => Ok(()),
    }
}

fn read_records<W: Write>(out: &mut W, segment: &[u8], buffer: &mut [u8]) -> io::Result<()> {
    lines::opened(out, segment.len())?;
    let mut spot = Spot {
        version: Version::One,
        place: Offset(0),
        good: Good {
            records: 0,
            offset: Offset(0),
        },
    };
    for _ in 0..READS {
        let step = segment_cursor::read_on(segment, spot, buffer);
        spot = print_step(out, step)?;
    }
    Ok(())
}

// Prints what a read answered and its good length, and returns where the next one is.
fn print_step<W: Write>(out: &mut W, step: segment_cursor::Advance) -> io::Result<Spot> {
    let read = step.read;
    match read.answer {
        Ok(Some(record)) => lines::yielded(out, record)?,
        Ok(None) => text(out, b"end")?,
        Err(why) => lines::refused(out, why)?,
    }
    lines::good(out, read.good)?;
    Ok(step.spot)
}
