// A record body in a caller-owned slice: checked whole, and read entry by entry, string by string,
// and of a histogram span by span and bucket by bucket. The answers are those of body_format's
// definitions (FORMAT 11).
#![tactic(auto)]

mod places;
pub mod samples;
pub mod tags;

ghost use Rattle.std.specs.Prelude.{◌≡◌, ◌||◌, ltb, eqb, length};
ghost use Rattle.body_format.specs.Reading.{check_body, read_entry, read_string, read_histogram, read_span, read_bucket};

use body_fields::string_field_at;
use body_format::{EntryView, HistogramView};
use body_histogram::{histogram_as_entry, histogram_entry};
use body_plain::plain_entry;
use body_rows::row_entry;
use places::{count_entries, entries_begin};
use tags::{BodyLayout, body_type, bucket_kind};
use wal_types::{Offset, Refusal};

// The number of entries of a body, or the refusal (FORMAT 11.2).
pub fn check(body: &[u8]) -> Result<usize, Refusal>
    ensures { result ≡ check_body body.now }
{
    let layout = body_type(body)?;
    let first = entries_begin(body, layout)?;
    count_entries(body, layout, first)
}

// The entry at a place of a body (FORMAT 11.3). Place 1 is the first entry's; every later place is
// the one that the entry before reported.
pub fn entry_at(body: &[u8], place: Offset) -> Result<Option<EntryView>, Refusal>
    ensures { result ≡ read_entry body.now place.0 }
{
    let at = place.0;
    let layout = body_type(body)?;
    match layout {
        BodyLayout::Rows { labelled } => row_entry(body, labelled, at),
        BodyLayout::Plain(plain) => plain_entry(body, plain, at),
        BodyLayout::Histograms(kind) => histogram_as_entry(body, kind, at),
    }
}

// The string at a place of a body (FORMAT 11.4).
pub fn string_at(body: &[u8], place: Offset) -> Result<(Offset, usize), Refusal>
    ensures { result ≡ read_string body.now place.0 }
{
    body_type(body)?;
    if is_outside(body, place.0) {
        return Err(Refusal::BadPlace);
    }
    let (start, length, _) = string_field_at(body, place.0)?;
    Ok((Offset(start), length))
}

// The histogram at a place of a body (FORMAT 11.6); its places are those of `entry_at`.
pub fn histogram_at(body: &[u8], place: Offset) -> Result<Option<HistogramView>, Refusal>
    ensures { result ≡ read_histogram body.now place.0 }
{
    let kind = bucket_kind(body)?;
    histogram_entry(body, kind, place.0)
}

// Whether a place is 0 or past the body.
fn is_outside(body: &[u8], at: usize) -> bool
    ensures { result ≡ eqb at 0 || ltb (length body.now) at }
{
    at == 0 || body.len() < at
}

// The span at a place of a body (FORMAT 11.7).
pub fn span_at(body: &[u8], place: Offset) -> Result<(i32, u32, Offset), Refusal>
    ensures { result ≡ read_span body.now place.0 }
{
    let at = place.0;
    bucket_kind(body)?;
    if is_outside(body, at) {
        return Err(Refusal::BadPlace);
    }
    body_histogram::fields::span_at(body, at)
}

// The bucket at a place of a body (FORMAT 11.7), of the body's kind.
pub fn bucket_at(body: &[u8], place: Offset) -> Result<(u64, Offset), Refusal>
    ensures { result ≡ read_bucket body.now place.0 }
{
    let at = place.0;
    let kind = bucket_kind(body)?;
    if is_outside(body, at) {
        return Err(Refusal::BadPlace);
    }
    body_histogram::fields::bucket_at(body, kind, at)
}
