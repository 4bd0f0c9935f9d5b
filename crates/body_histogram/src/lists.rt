// The lists of a histogram: each is read as its count and the place of its first element, and
// walked over element by element to its end.
ghost use Rattle.std.specs.Prelude.{◌≡◌};
ghost use Rattle.body_format.specs.Histograms.{bucket_at, span_at, item_at, items_at, list_at, sides_at, lists_at};
ghost use Rattle.body_fields.specs.Ends.{end_of};
ghost use Rattle.body_histogram.specs.Forms.{list_read, sides_read, lists_read};

use crate::fields::{count_at, span_at};
use body_fields::uvarint_at;
use body_format::{BucketKind, Element, ListView, SidesView};
use wal_types::{Offset, Refusal};

// The place after a span.
fn span_end(body: &[u8], at: usize) -> Result<usize, Refusal>
    ensures { result ≡ end_of (span_at body.now at) }
{
    let (_, _, next) = span_at(body, at)?;
    Ok(next.0)
}

// The place after a bucket, which has the bytes of a count.
fn bucket_end(body: &[u8], kind: BucketKind, at: usize) -> Result<usize, Refusal>
    ensures { result ≡ end_of (bucket_at kind body.now at) }
{
    let (_, next) = count_at(body, kind, at)?;
    Ok(next)
}

// The place after an element.
fn item_end(body: &[u8], element: Element, at: usize) -> Result<usize, Refusal>
    ensures { result ≡ end_of (item_at element body.now at) }
{
    match element {
        Element::Span => span_end(body, at),
        Element::Bucket(kind) => bucket_end(body, kind, at),
    }
}

// The place after so many elements. They are walked over one by one: their number times their size
// need not fit 64 bits (FORMAT 9.4).
fn items_end(body: &[u8], element: Element, first: usize, count: u64) -> Result<usize, Refusal>
    ensures { result ≡ end_of (items_at element count body.now first) }
{
    let mut at = first;
    for _ in 0..count {
        at = item_end(body, element, at)?;
    }
    Ok(at)
}

// A count n, and then n elements.
fn list_at(body: &[u8], element: Element, at: usize) -> Result<(ListView, usize), Refusal>
    ensures { result ≡ list_read (list_at element body.now at) }
{
    let (count, first) = uvarint_at(body, at)?;
    let next = items_end(body, element, first, count)?;
    Ok((
        ListView {
            count,
            first: Offset(first),
        },
        next,
    ))
}

// A list for the positive side, and one for the negative.
fn sides_at(body: &[u8], element: Element, at: usize) -> Result<(SidesView, usize), Refusal>
    ensures { result ≡ sides_read (sides_at element body.now at) }
{
    let (positive, second) = list_at(body, element, at)?;
    let (negative, next) = list_at(body, element, second)?;
    Ok((SidesView { positive, negative }, next))
}

// The spans of both sides, and then the buckets of both.
pub(crate) fn lists_at(
    body: &[u8],
    kind: BucketKind,
    at: usize,
) -> Result<(SidesView, SidesView, usize), Refusal>
    ensures { result ≡ lists_read (lists_at kind body.now at) }
{
    let (spans, second) = sides_at(body, Element::Span, at)?;
    let (buckets, next) = sides_at(body, Element::Bucket(kind), second)?;
    Ok((spans, buckets, next))
}
