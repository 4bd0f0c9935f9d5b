// Types 1, 3 and 6 (FORMAT 9.1): entries that stand alone. Each is read at its place, or only
// walked over to its end: counting needs no more.
#![tactic(auto)]

ghost use Rattle.std.specs.Prelude.{◌≡◌};
ghost use Rattle.body_format.specs.Entries.{known, series_at, tombstone_at, metadata_at, entry_at};
ghost use Rattle.body_format.specs.Reading.{answer_entry, entry_known};
ghost use Rattle.body_fields.specs.Ends.{end_of};
ghost use Rattle.body_plain.specs.Plain.{plain_in};

use body_fields::ends::{byte_end, fixed_end, list_end, uvarint_end, varint_end};
use body_fields::{byte_at, fixed_at, string_list_at, uvarint_at, varint_at};
use body_format::{EntryView, METADATA, SERIES, TOMBSTONES};
use wal_types::{Offset, Refusal, SeriesId, Timestamp};

// The types without rows.
#[derive(Clone, Copy)]
pub enum PlainType {
    Series,
    Tombstones,
    Metadata,
}

// ---- type 1: id, and its labels

fn series_at(body: &[u8], at: usize) -> Result<Option<EntryView>, Refusal>
    ensures { result ≡ answer_entry (series_at body.now at) }
{
    let (id, labels) = fixed_at(body, at)?;
    let (count, first, next) = string_list_at(body, labels)?;
    Ok(Some(EntryView {
        tag: SERIES,
        id: SeriesId(id),
        time: Timestamp(0),
        max: Timestamp(0),
        bits: 0,
        strings: count,
        first: Offset(first),
        next: Offset(next),
    }))
}

fn series_end(body: &[u8], at: usize) -> Result<usize, Refusal>
    ensures { result ≡ end_of (series_at body.now at) }
{
    let labels = fixed_end(body, Ok(at));
    list_end(body, labels)
}

// ---- type 3: id, minimum and maximum

fn tombstone_at(body: &[u8], at: usize) -> Result<Option<EntryView>, Refusal>
    ensures { result ≡ answer_entry (tombstone_at body.now at) }
{
    let (id, second) = fixed_at(body, at)?;
    let (min, third) = varint_at(body, second)?;
    let (max, next) = varint_at(body, third)?;
    Ok(Some(EntryView {
        tag: TOMBSTONES,
        id: SeriesId(id),
        time: Timestamp(min),
        max: Timestamp(max),
        bits: 0,
        strings: 0,
        first: Offset(next),
        next: Offset(next),
    }))
}

fn tombstone_end(body: &[u8], at: usize) -> Result<usize, Refusal>
    ensures { result ≡ end_of (tombstone_at body.now at) }
{
    let second = fixed_end(body, Ok(at));
    let third = varint_end(body, second);
    varint_end(body, third)
}

// ---- type 6: id, metric type, and its name and text strings

fn metadata_at(body: &[u8], at: usize) -> Result<Option<EntryView>, Refusal>
    ensures { result ≡ answer_entry (metadata_at body.now at) }
{
    let (id, second) = uvarint_at(body, at)?;
    let (metric, third) = byte_at(body, second)?;
    let (count, first, next) = string_list_at(body, third)?;
    Ok(Some(EntryView {
        tag: METADATA,
        id: SeriesId(id),
        time: Timestamp(0),
        max: Timestamp(0),
        bits: metric,
        strings: count,
        first: Offset(first),
        next: Offset(next),
    }))
}

fn metadata_end(body: &[u8], at: usize) -> Result<usize, Refusal>
    ensures { result ≡ end_of (metadata_at body.now at) }
{
    let second = uvarint_end(body, Ok(at));
    let third = byte_end(body, second);
    list_end(body, third)
}

// ---- an entry of any of them

// The entry at a place of a body, or the plain end at the body's end.
pub fn plain_entry(body: &[u8], plain: PlainType, at: usize) -> Result<Option<EntryView>, Refusal>
    ensures { result ≡ entry_known (known (plain_in plain)) body.now at }
{
    if at == 0 {
        return Err(Refusal::BadPlace);
    }
    if body.len() < at {
        return Err(Refusal::BadPlace);
    }
    if at == body.len() {
        return Ok(None);
    }
    match plain {
        PlainType::Series => series_at(body, at),
        PlainType::Tombstones => tombstone_at(body, at),
        PlainType::Metadata => metadata_at(body, at),
    }
}

// The place after the entry at a place.
pub fn plain_end(body: &[u8], plain: PlainType, at: usize) -> Result<usize, Refusal>
    ensures { result ≡ end_of (entry_at (plain_in plain) body.now at) }
{
    match plain {
        PlainType::Series => series_end(body, at),
        PlainType::Tombstones => tombstone_end(body, at),
        PlainType::Metadata => metadata_end(body, at),
    }
}
