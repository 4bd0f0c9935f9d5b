// Types 2 and 4 (FORMAT 9.3): rows, after a first id and a first timestamp. Each is read at its
// place, or only walked over to its end: counting needs no more. What histograms share with them is
// here too: the head of a row, and where the row of a place is. Type 4 is `labelled`: a bool, as in
// the definition `rows_type` of the contracts.
#![tactic(auto)]

ghost use Rattle.std.specs.Prelude.{◌≡◌, Bool, true, Ok, ◌<◌, length};
ghost use Rattle.wal_types.specs.Deltas.{plus, to_bits, int_from_bits};
ghost use Rattle.varint.specs.Varint.{unzigzag};
ghost use Rattle.body_format.specs.Fields.{string_list_at};
ghost use Rattle.body_format.specs.Heads.{head_at};
ghost use Rattle.body_format.specs.Entries.{BodyType, samples, has_rows, known, first_at, row_at, entry_at};
ghost use Rattle.body_format.specs.Reading.{answer_entry, entry_known, place_or_end, first_place, entry_place};
ghost use Rattle.body_fields.specs.Readings.{string_list_read};
ghost use Rattle.body_fields.specs.Ends.{end_of};
ghost use Rattle.body_rows.specs.Rows.{rows_type, place_read, head_read};
ghost use Rattle.body_rows.specs.Forms.{BaseIn, row_read, row_got, is_short_row, exemplar_of, row_place};

use body_fields::ends::{fixed_end, list_end, uvarint_end};
use body_fields::{fixed_at, string_list_at, uvarint_at};
use body_format::{EXEMPLARS, EntryView, SAMPLES};
use delta::delta_of_zigzag;
use wal_types::{Offset, Refusal, SeriesId, Timestamp, id_plus, time_of_bits, time_plus};

// The place after the first id and the first timestamp.
const ROWS: usize = 17;

// The bytes of a row whose deltas have one byte each.
const SHORT_ROW: usize = 10;

// The first id and the first timestamp.
#[derive(Clone, Copy)]
struct Base {
    pub id: SeriesId,
    pub time: Timestamp,
}

// ---- a row

// Bytes 1 to 16; a field that is not there is 0.
fn base_of(body: &[u8]) -> Base
    ensures { BaseIn body.now result.id result.time }
{
    let id = big_endian::get_be8(body, 1);
    let time = big_endian::get_be8(body, 9);
    Base {
        id: SeriesId(id),
        time: time_of_bits(time),
    }
}

// Whether the row at a place has deltas of one byte each. Nearly every row has, and then needs one
// test of its length, not three.
pub fn is_short_row(body: &[u8], at: usize) -> bool
    ensures { result ≡ is_short_row body.now at }
{
    if body.len() < at {
        return false;
    }
    if body.len() - at < SHORT_ROW {
        return false;
    }
    if 128 <= body[at] {
        return false;
    }
    body[at + 1] < 128
}

// A row's time, by the zigzag of its delta. The rows of a record mostly have one time, and the
// delta 0 needs no work.
fn row_time(first: Timestamp, zigzag: u64) -> Timestamp
    ensures { result.0 ≡ int_from_bits (plus (to_bits first.0) (to_bits (unzigzag zigzag))) }
{
    if zigzag == 0 {
        return Timestamp(first.0);
    }
    time_plus(first, delta_of_zigzag(zigzag))
}

// A row by the zigzags of its deltas. The first id and the first time come as two numbers, not as a
// Base: that would be copied by one wide load right after two narrow stores, which stalls.
fn row_of(
    first_id: SeriesId,
    first_time: Timestamp,
    id_zigzag: u64,
    time_zigzag: u64,
    bits: u64,
    next: usize,
) -> (SeriesId, Timestamp, u64, usize)
    ensures { Ok result ≡ row_got first_id first_time id_zigzag time_zigzag bits next }
{
    (
        id_plus(first_id, delta_of_zigzag(id_zigzag)),
        row_time(first_time, time_zigzag),
        bits,
        next,
    )
}

// Id delta, timestamp delta and value, field by field.
fn long_row_at(
    body: &[u8],
    first_id: SeriesId,
    first_time: Timestamp,
    at: usize,
) -> Result<(SeriesId, Timestamp, u64, usize), Refusal>
    requires { BaseIn body.now first_id first_time }
    ensures { result ≡ row_read (row_at body.now at) }
{
    let (id_zigzag, second) = uvarint_at(body, at)?;
    let (time_zigzag, third) = uvarint_at(body, second)?;
    let (bits, next) = fixed_at(body, third)?;
    let row = row_of(first_id, first_time, id_zigzag, time_zigzag, bits, next);
    Ok(row)
}

// The place after such a row.
fn long_row_end(body: &[u8], at: usize) -> Result<usize, Refusal>
    ensures { result ≡ end_of (row_at body.now at) }
{
    let second = uvarint_end(body, Ok(at));
    let third = uvarint_end(body, second);
    fixed_end(body, third)
}

// What types 2 and 4 share: a row, short or long, by its id, its time, its value and the place
// after.
fn row_at(
    body: &[u8],
    first_id: SeriesId,
    first_time: Timestamp,
    at: usize,
) -> Result<(SeriesId, Timestamp, u64, usize), Refusal>
    requires { BaseIn body.now first_id first_time }
    ensures { result ≡ row_read (row_at body.now at) }
{
    if is_short_row(body, at) {
        let id_zigzag = body[at] as u64;
        let time_zigzag = body[at + 1] as u64;
        let bits = big_endian::get_be8(body, at + 2);
        let next = at + SHORT_ROW;
        let row = row_of(first_id, first_time, id_zigzag, time_zigzag, bits, next);
        return Ok(row);
    }
    long_row_at(body, first_id, first_time, at)
}

// The place after a row, short or long.
fn row_end(body: &[u8], at: usize) -> Result<usize, Refusal>
    ensures { result ≡ end_of (row_at body.now at) }
{
    if is_short_row(body, at) {
        return Ok(at + SHORT_ROW);
    }
    long_row_end(body, at)
}

// The head of a row alone, id delta and timestamp delta: the id, the time and the place after.
pub fn head_at(body: &[u8], at: usize) -> Result<(SeriesId, Timestamp, usize), Refusal>
    ensures { result ≡ head_read (head_at body.now at) }
{
    let (id_zigzag, second) = uvarint_at(body, at)?;
    let (time_zigzag, next) = uvarint_at(body, second)?;
    let base = base_of(body);
    Ok((
        id_plus(base.id, delta_of_zigzag(id_zigzag)),
        row_time(base.time, time_zigzag),
        next,
    ))
}

// ---- a row, and its labels

// An exemplar: a row, and the labels that follow it.
fn exemplar_of(
    body: &[u8],
    id: SeriesId,
    time: Timestamp,
    bits: u64,
    labels: usize,
) -> Result<Option<EntryView>, Refusal>
    ensures { result ≡ exemplar_of id time bits (string_list_read (string_list_at body.now labels)) }
{
    let (count, first, next) = string_list_at(body, labels)?;
    Ok(Some(EntryView {
        tag: EXEMPLARS,
        id,
        time,
        max: Timestamp(0),
        bits,
        strings: count,
        first: Offset(first),
        next: Offset(next),
    }))
}

// The entry at a place within the rows.
fn row_entry_at(
    body: &[u8],
    labelled: bool,
    first_id: SeriesId,
    first_time: Timestamp,
    at: usize,
) -> Result<Option<EntryView>, Refusal>
    requires { BaseIn body.now first_id first_time }
    ensures { result ≡ answer_entry (entry_at (rows_type labelled) body.now at) }
{
    let (id, time, bits, next) = row_at(body, first_id, first_time, at)?;
    if labelled {
        return exemplar_of(body, id, time, bits, next);
    }
    Ok(Some(EntryView {
        tag: SAMPLES,
        id,
        time,
        max: Timestamp(0),
        bits,
        strings: 0,
        first: Offset(next),
        next: Offset(next),
    }))
}

// The place after the entry at a place within the rows.
pub fn row_entry_end(body: &[u8], labelled: bool, at: usize) -> Result<usize, Refusal>
    ensures { result ≡ end_of (entry_at (rows_type labelled) body.now at) }
{
    let labels = row_end(body, at)?;
    if labelled {
        list_end(body, Ok(labels))
    } else {
        Ok(labels)
    }
}

// The same of a row without labels. A short one is told here, so that this has little code and is
// inlined in a loop over samples.
pub fn sample_end(body: &[u8], at: usize) -> Result<usize, Refusal>
    ensures { result ≡ end_of (entry_at samples body.now at) }
{
    if is_short_row(body, at) {
        return Ok(at + SHORT_ROW);
    }
    row_entry_end(body, false, at)
}

// ---- a place of a body

// Rows begin after the first id and the first timestamp, or at the body's end if nothing follows
// the tag (FORMAT 11.2).
pub fn rows_begin(body: &[u8]) -> Result<usize, Refusal>
    ensures { result ≡ place_read (first_at true body.now) }
{
    if body.len() == 1 {
        return Ok(1);
    }
    if body.len() < 9 {
        return Err(Refusal::Short(Offset(1)));
    }
    if body.len() < ROWS {
        return Err(Refusal::Short(Offset(9)));
    }
    Ok(ROWS)
}

// A body that ends before its rows (FORMAT 11.3). Only place 1 is good: it is the plain end if
// nothing follows the tag, else Short at the first id or the first timestamp. An empty body has no
// good place. The lengths are tested as in `rows_begin`: to take that one's answer apart was slower
// (docs/DECISIONS.md, 34).
fn no_row(body: &[u8], at: usize) -> Result<Option<EntryView>, Refusal>
    requires { length body.now < 17 }
    ensures { (labelled : Bool) → result ≡ entry_known (known (rows_type labelled)) body.now at }
{
    if at != 1 {
        return Err(Refusal::BadPlace);
    }
    if body.len() == 0 {
        return Err(Refusal::BadPlace);
    }
    if body.len() == 1 {
        return Ok(None);
    }
    if body.len() < 9 {
        return Err(Refusal::Short(Offset(1)));
    }
    Err(Refusal::Short(Offset(9)))
}

// Where the row of a place is: place 1 is the first row's.
fn row_place(at: usize) -> usize
    ensures { result ≡ row_place at }
{
    if at == 1 { ROWS } else { at }
}

// The row at a place of a body, with its labels, or the plain end at the body's end. Once there are
// 17 bytes, nothing tests again whether the first id and the first timestamp are there.
pub fn row_entry(body: &[u8], labelled: bool, at: usize) -> Result<Option<EntryView>, Refusal>
    ensures { result ≡ entry_known (known (rows_type labelled)) body.now at }
{
    if body.len() < ROWS {
        return no_row(body, at);
    }
    let from = row_place(at);
    if from < ROWS {
        return Err(Refusal::BadPlace);
    }
    if body.len() < from {
        return Err(Refusal::BadPlace);
    }
    if body.len() == from {
        return Ok(None);
    }
    let base = base_of(body);
    row_entry_at(body, labelled, base.id, base.time, from)
}

// An entry at a place, or the plain end at the body's end.
fn place_or_end(body: &[u8], at: usize) -> Option<Offset>
    ensures { Ok result ≡ place_or_end body.now at }
{
    if at == body.len() {
        None
    } else {
        Some(Offset(at))
    }
}

// Where the first entry of a body with rows is.
fn first_place(body: &[u8]) -> Result<Option<Offset>, Refusal>
    ensures { result ≡ first_place body.now (first_at true body.now) }
{
    let first = rows_begin(body)?;
    Ok(place_or_end(body, first))
}

// Where the entry of a place is (FORMAT 11.3), in a body of any type with rows.
pub fn row_entry_place(body: &[u8], at: usize) -> Result<Option<Offset>, Refusal>
    ensures { (k : BodyType) → has_rows k ≡ true → result ≡ entry_place k body.now at }
{
    if at == 0 {
        return Err(Refusal::BadPlace);
    }
    if body.len() < at {
        return Err(Refusal::BadPlace);
    }
    if at == 1 {
        return first_place(body);
    }
    if at < ROWS {
        return Err(Refusal::BadPlace);
    }
    Ok(place_or_end(body, at))
}
