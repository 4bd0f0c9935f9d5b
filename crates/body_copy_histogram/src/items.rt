// The elements of a list of another body, spans or buckets: each is read at its place, and written
// as short as it can be. One that cannot be read has no bytes, and those after it have none; a
// histogram that was read has none such.
ghost use Rattle.std.specs.Prelude.{◌≡◌, ◌+◌, ◌≤◌, length, IfSome};
ghost use Rattle.byte_copy.specs.Put.{put_at};
ghost use Rattle.body_format.specs.Histograms.{item_at};
ghost use Rattle.body_builder.specs.Laws.Putting.{Put};
ghost use Rattle.body_builder.specs.Laws.Additions.{Sized};
ghost use Rattle.body_copy_histogram.specs.Forms.{bytes_of, measured_of, copied_of, items_from};

use body_builder_histogram::buckets::{bucket_size, put_bucket};
use body_builder_histogram::spans::{put_span_at, span_size};
use body_format::Element;
use body_histogram::fields::{bucket_at, span_at};
use wal_types::RECORD_LIMIT;

// The bytes that the element at a place takes, and the place after it in the other body.
fn item_measured(from: &[u8], element: Element, at: usize) -> Option<(usize, usize)>
    ensures { (result ≡ measured_of element (item_at element from.now at)) ×
        IfSome result (λ m. m.0 ≤ 20) }
{
    match element {
        Element::Span => {
            let (offset, length, next) = span_at(from, at).ok()?;
            Some((span_size(offset, length), next.0))
        }
        Element::Bucket(kind) => {
            let (bits, next) = bucket_at(from, kind, at).ok()?;
            Some((bucket_size(kind, bits), next.0))
        }
    }
}

// So many elements from a place on. Above 65,536 bytes, which no body has, one size does for all.
pub(crate) fn items_size(from: &[u8], element: Element, first: usize, count: u64) -> usize
    ensures { Sized result (length (items_from element count from.now first)) × (result ≤ 65537) }
{
    let mut at = first;
    let mut total = 0;
    for _ in 0..count {
        let Some((size, next)) = item_measured(from, element, at) else {
            return total;
        };
        total += size;
        if RECORD_LIMIT < total {
            return RECORD_LIMIT + 1;
        }
        at = next;
    }
    total
}

// The element at a place of the other body, at a place of the buffer; the places after both. Where
// it does not fit, nothing changes.
fn copy_item(
    from: &[u8],
    element: Element,
    at: usize,
    buffer: &mut [u8],
    place: usize,
) -> Option<(usize, usize)>
    ensures { (result ≡ copied_of element buffer.old place (item_at element from.now at)) ×
        (buffer.new ≡ put_at buffer.old place (bytes_of element (item_at element from.now at))) }
{
    match element {
        Element::Span => {
            let (offset, length, next) = span_at(from, at).ok()?;
            Some((put_span_at(buffer, place, offset, length), next.0))
        }
        Element::Bucket(kind) => {
            let (bits, next) = bucket_at(from, kind, at).ok()?;
            Some((put_bucket(buffer, kind, place, bits), next.0))
        }
    }
}

// So many elements from a place on, at a place that has room for them; the place after them.
pub(crate) fn put_items(
    from: &[u8],
    element: Element,
    first: usize,
    count: u64,
    buffer: &mut [u8],
    at: usize,
) -> usize
    requires { at + length (items_from element count from.now first) ≤ length buffer.old }
    ensures { Put buffer.old at (items_from element count from.now first)
        buffer.new result }
{
    let mut place = at;
    let mut from_place = first;
    for _ in 0..count {
        let Some((end, after)) = copy_item(from, element, from_place, buffer, place) else {
            return place;
        };
        place = end;
        from_place = after;
    }
    place
}
