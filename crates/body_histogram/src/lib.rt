// Types 7 and 8 (FORMAT 9.4): histograms, each read at its place with its lists by their counts and
// first places, or only walked over to its end. What the two types share is here once, with the
// bucket kind as an argument.
#![tactic(auto)]

pub mod fields;
mod lists;

ghost use Rattle.std.specs.Prelude.{◌≡◌};
ghost use Rattle.body_format.specs.Histograms.{numbers_at, histogram_at};
ghost use Rattle.body_format.specs.Entries.{histograms, type_byte, known, entry_at};
ghost use Rattle.body_format.specs.Reading.{entry_place, entry_known, histogram_there};
ghost use Rattle.body_fields.specs.Ends.{end_of};
ghost use Rattle.body_histogram.specs.Forms.{numbers_read, histogram_read, told};

use body_fields::fixed_at;
use body_format::{BucketKind, EntryView, FLOAT_HISTOGRAMS, HISTOGRAMS, HistogramView, Numbers};
use body_rows::{head_at, row_entry_place};
use fields::{count_at, int32_at};
use lists::lists_at;
use wal_types::{Offset, Refusal, Timestamp};

// Hint, schema, zero threshold, zero count, count and sum.
fn numbers_at(body: &[u8], kind: BucketKind, at: usize) -> Result<(Numbers, usize), Refusal>
    ensures { result ≡ numbers_read (numbers_at kind body.now at) }
{
    if body.len() <= at {
        return Err(Refusal::Short(Offset(at)));
    }
    let hint = body[at];
    let (schema, third) = int32_at(body, at + 1)?;
    let (threshold, fourth) = fixed_at(body, third)?;
    let (zeros, fifth) = count_at(body, kind, fourth)?;
    let (count, sixth) = count_at(body, kind, fifth)?;
    let (sum, next) = fixed_at(body, sixth)?;
    Ok((
        Numbers {
            hint,
            schema,
            threshold,
            zeros,
            count,
            sum,
        },
        next,
    ))
}

// The tag of a bucket kind.
fn tag_of(kind: BucketKind) -> u8
    ensures { result ≡ type_byte (histograms kind) }
{
    match kind {
        BucketKind::Whole => HISTOGRAMS,
        BucketKind::Float => FLOAT_HISTOGRAMS,
    }
}

// Head, numbers and lists.
fn histogram_at(body: &[u8], kind: BucketKind, at: usize) -> Result<HistogramView, Refusal>
    ensures { result ≡ histogram_read kind (histogram_at kind body.now at) }
{
    let (id, time, second) = head_at(body, at)?;
    let (numbers, third) = numbers_at(body, kind, second)?;
    let (spans, buckets, next) = lists_at(body, kind, third)?;
    Ok(HistogramView {
        tag: tag_of(kind),
        id,
        time,
        numbers,
        spans,
        buckets,
        next: Offset(next),
    })
}

// The place after the histogram at a place.
pub fn histogram_end(body: &[u8], kind: BucketKind, at: usize) -> Result<usize, Refusal>
    ensures { result ≡ end_of (entry_at (histograms kind) body.now at) }
{
    let view = histogram_at(body, kind, at)?;
    Ok(view.next.0)
}

// The histogram at a place of a body (FORMAT 11.6), or the plain end at the body's end.
pub fn histogram_entry(
    body: &[u8],
    kind: BucketKind,
    at: usize,
) -> Result<Option<HistogramView>, Refusal>
    ensures { result ≡ histogram_there kind body.now
        (entry_place (histograms kind) body.now at) }
{
    let place = row_entry_place(body, at)?;
    let Some(from) = place else {
        return Ok(None);
    };
    let view = histogram_at(body, kind, from.0)?;
    Ok(Some(view))
}

// A histogram as any entry is reported: with its sum (FORMAT 11.3).
fn as_entry(view: HistogramView) -> EntryView
    ensures { result ≡ told view }
{
    EntryView {
        tag: view.tag,
        id: view.id,
        time: view.time,
        max: Timestamp(0),
        bits: view.numbers.sum,
        strings: 0,
        first: view.next,
        next: view.next,
    }
}

// The entry at a place of a body.
pub fn histogram_as_entry(
    body: &[u8],
    kind: BucketKind,
    at: usize,
) -> Result<Option<EntryView>, Refusal>
    ensures { result ≡ entry_known (known (histograms kind)) body.now at }
{
    let there = histogram_entry(body, kind, at)?;
    Ok(there.map(as_entry))
}
