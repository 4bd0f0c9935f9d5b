// The numbers of FORMAT 13 and 14 on segments: writes to fresh slices, type bytes that are refused
// (FORMAT 6.3, 6.4), and the cuts of the switch segment.
ghost use Rattle.std.specs.Prelude.{◌≡◌, ◌<◌, length};

use crate::fields::checksum_digits;
use segment_format::{Good, Record};
use std::io;
use std::io::Write;
use wal_types::{Offset, Refusal, Version};

// ---- writes; a record of 0 bytes is Hollow (FORMAT 5.1)

pub(crate) fn writes<W: Write>(out: &mut W) -> io::Result<()> {
    one_page(out)?;
    seven_left(out, 1, 32776, 5)?;
    seven_left(out, 0, 32768, 1)?;
    then_one(out, 32755, 32768)?;
    then_one(out, 32761, 32768)?;
    then_one(out, 32762, 32776)?;
    three_pages(out)?;
    full(out)?;
    one_too_many(out)?;
    places(out)
}

fn one_page<W: Write>(out: &mut W) -> io::Result<()> {
    let mut slice = [0u8; 32768];
    slice_line(out, 1)?;
    write(out, &mut slice, 0, 0)?;
    write(out, &mut slice, 7, 37)?;
    write(out, &mut slice, 51, 0)?;
    sum_line(out, &slice)
}

// A record of 32,754 bytes leaves 7.
fn seven_left<W: Write>(out: &mut W, second: usize, place: usize, third: usize) -> io::Result<()> {
    let mut slice = [0u8; 65536];
    slice_line(out, 2)?;
    write(out, &mut slice, 0, 32754)?;
    write(out, &mut slice, 32761, second)?;
    write(out, &mut slice, place, third)?;
    sum_line(out, &slice)
}

fn then_one<W: Write>(out: &mut W, first: usize, place: usize) -> io::Result<()> {
    let mut slice = [0u8; 65536];
    slice_line(out, 2)?;
    write(out, &mut slice, 0, first)?;
    write(out, &mut slice, place, 1)?;
    sum_line(out, &slice)
}

fn three_pages<W: Write>(out: &mut W) -> io::Result<()> {
    let mut slice = [0u8; 98304];
    slice_line(out, 3)?;
    write(out, &mut slice, 0, 65536)?;
    write(out, &mut slice, 65557, 1)?;
    sum_line(out, &slice)
}

// Two pages hold 65,522.
fn full<W: Write>(out: &mut W) -> io::Result<()> {
    let mut slice = [0u8; 65536];
    slice_line(out, 2)?;
    write(out, &mut slice, 0, 65522)?;
    write(out, &mut slice, 65536, 0)?;
    write(out, &mut slice, 65536, 65537)?;
    sum_line(out, &slice)
}

fn one_too_many<W: Write>(out: &mut W) -> io::Result<()> {
    let mut slice = [0u8; 65536];
    slice_line(out, 2)?;
    write(out, &mut slice, 0, 65523)?;
    write(out, &mut slice, 0, 65537)?;
    sum_line(out, &slice)
}

fn places<W: Write>(out: &mut W) -> io::Result<()> {
    let mut slice = [0u8; 65536];
    slice_line(out, 2)?;
    write(out, &mut slice, 65529, 1)?;
    write(out, &mut slice, 65529, 0)?;
    write(out, &mut slice, 32761, 32761)?;
    write(out, &mut slice, 32761, 32762)?;
    write(out, &mut slice, 32762, 0)?;
    write(out, &mut slice, 32767, 0)?;
    write(out, &mut slice, 65537, 0)?;
    sum_line(out, &slice)
}

fn slice_line<W: Write>(out: &mut W, pages: u64) -> io::Result<()> {
    print::text(out, b"slice ")?;
    print::number(out, pages)?;
    print::end_line(out)
}

fn sum_line<W: Write>(out: &mut W, slice: &[u8]) -> io::Result<()> {
    print::text(out, b"sum ")?;
    checksum_digits(out, slice)?;
    print::end_line(out)
}

// Byte i of every record is i modulo 256.
fn pattern() -> [u8; 65537]
    ensures { 65537 ≡ length result }
{
    let mut bytes = [0u8; 65537];
    for (i, byte) in bytes.iter_mut().enumerate() {
        *byte = (i % 256) as u8;
    }
    bytes
}

fn write<W: Write>(out: &mut W, slice: &mut [u8], place: usize, count: usize) -> io::Result<()> {
    let bytes = pattern();
    let Some(record) = bytes.get(..count) else {
        return Ok(());
    };
    print::text(out, b"write ")?;
    print::number(out, place as u64)?;
    print::space(out)?;
    print::number(out, count as u64)?;
    print::text(out, b" -> ")?;
    match segment_writer::write(Version::One, slice, Offset(place), record) {
        Ok(next) => {
            print::text(out, b"next ")?;
            print::number(out, next.0 as u64)?;
            print::end_line(out)?;
            fragments(out, slice, place)
        }
        Err(why) => refused(out, why),
    }
}

// ---- the headers of a record

#[derive(Clone, Copy)]
struct Header {
    kind: u8,
    count: usize,
    // The place after the fragment.
    next: usize,
}

// The header at a place, where the slice has room for its fragment.
fn header_at(slice: &[u8], place: usize) -> Option<Header> {
    let [kind, high, low, _, _, _, _, data @ ..] = slice.get(place..)? else {
        return None;
    };
    let count = usize::from(u16::from_be_bytes([*high, *low]));
    if data.len() < count {
        return None;
    }
    Some(Header {
        kind: *kind,
        count,
        next: place + 7 + count,
    })
}

// The headers from a place on, up to a full or last one; no record has more than four.
fn fragments<W: Write>(out: &mut W, slice: &[u8], place: usize) -> io::Result<()> {
    let mut at = place;
    for _ in 0..4u8 {
        let Some(header) = header_at(slice, at) else {
            break;
        };
        fragment_line(out, at, header)?;
        if matches!(header.kind, 1 | 4) {
            break;
        }
        at = header.next;
    }
    Ok(())
}

fn fragment_line<W: Write>(out: &mut W, place: usize, header: Header) -> io::Result<()> {
    print::text(out, b"fragment ")?;
    print::number(out, place as u64)?;
    print::space(out)?;
    print::number(out, u64::from(header.kind))?;
    print::space(out)?;
    print::number(out, header.count as u64)?;
    print::end_line(out)
}

fn refused<W: Write>(out: &mut W, why: Refusal) -> io::Result<()> {
    print::text(out, b"refused ")?;
    print::number(out, u64::from(wal_types::number(why)))?;
    print::space(out)?;
    print::number(out, wal_types::place(why).0 as u64)?;
    print::end_line(out)
}

// ---- types and cuts

pub(crate) fn types<W: Write>(out: &mut W) -> io::Result<()> {
    for kind in [0x09, 0x21, 0x29, 0x05, 0xE0, 0x18, 0x03, 0x04] {
        type_line(out, kind)?;
    }
    Ok(())
}

// The pair that a first read is given.
fn none_yet() -> Good {
    Good {
        records: 0,
        offset: Offset(0),
    }
}

fn type_line<W: Write>(out: &mut W, kind: u8) -> io::Result<()> {
    let segment = [kind, 0, 0, 0, 0, 0, 0];
    let mut buffer = [0u8; 65536];
    print::text(out, b"type ")?;
    print::byte(out, kind)?;
    print::text(out, b" -> ")?;
    let read = segment_reader::read(Version::One, &segment, Offset(0), &mut buffer, none_yet());
    answer_line(out, read.answer)
}

fn answer_line<W: Write>(out: &mut W, answer: Result<Option<Record>, Refusal>) -> io::Result<()> {
    match answer {
        Ok(Some(record)) => {
            print::text(out, b"record ")?;
            print::number(out, record.start.0 as u64)?;
            print::space(out)?;
            print::number(out, record.length as u64)?;
            print::space(out)?;
            print::number(out, record.next.0 as u64)?;
            print::end_line(out)
        }
        Ok(None) => print::text(out, b"end\n"),
        Err(why) => refused(out, why),
    }
}

// The switch of FORMAT 13: at time 1000, id 7 to 0 and id 8 to 1.0.
const SWITCH: [u8; 37] = [
    2, 0, 0, 0, 0, 0, 0, 0, 7, 0, 0, 0, 0, 0, 0, 0x03, 0xE8, 0, 0, 0, 0, 0, 0, 0, 0, 0, 0, 2, 0,
    0x3F, 0xF0, 0, 0, 0, 0, 0, 0,
];

pub(crate) fn cuts<W: Write>(out: &mut W) -> io::Result<()> {
    let mut slice = [0u8; 32768];
    let mut buffer = [0u8; 65536];
    let _ = segment_writer::write(Version::One, &mut slice, Offset(0), &SWITCH);
    for count in [44, 43, 7, 6, 1, 0] {
        cut(out, &slice, count, &mut buffer)?;
    }
    Ok(())
}

// Reads the first `count` bytes from the start: one record or none, and then how it ends.
fn cut<W: Write>(out: &mut W, slice: &[u8], count: usize, buffer: &mut [u8]) -> io::Result<()> {
    let Some(front) = slice.get(..count) else {
        return Ok(());
    };
    let read = segment_reader::read(Version::One, front, Offset(0), buffer, none_yet());
    cut_line(out, count, read.answer)?;
    let Ok(Some(record)) = read.answer else {
        return Ok(());
    };
    let then = segment_reader::read(Version::One, front, record.next, buffer, read.good);
    cut_line(out, count, then.answer)
}

fn cut_line<W: Write>(
    out: &mut W,
    count: usize,
    answer: Result<Option<Record>, Refusal>,
) -> io::Result<()> {
    print::text(out, b"cut ")?;
    print::number(out, count as u64)?;
    print::text(out, b" -> ")?;
    answer_line(out, answer)
}
