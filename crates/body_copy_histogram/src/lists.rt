// The lists of a histogram of another body, each by its count and the place of its first element.
ghost use Rattle.std.specs.Prelude.{◌+◌, ◌≤◌, length};
ghost use Rattle.body_builder.specs.Laws.Putting.{Put};
ghost use Rattle.body_builder.specs.Laws.Additions.{Sized};
ghost use Rattle.body_copy_histogram.specs.Forms.{list_from, sides_from, lists_from};

use crate::items::{items_size, put_items};
use body_format::{BucketKind, Element, ListView, SidesView};

// ---- sizes

// A list: its count, and its elements.
fn list_size(from: &[u8], element: Element, list: ListView) -> usize
    ensures { Sized result (length (list_from element from.now list)) × (result ≤ 70000) }
{
    uvarint::uvarint_len(list.count) + items_size(from, element, list.first.0, list.count)
}

// The positive list, and the negative one.
fn sides_size(from: &[u8], element: Element, sides: SidesView) -> usize
    ensures { Sized result (length (sides_from element from.now sides)) × (result ≤ 140000) }
{
    list_size(from, element, sides.positive) + list_size(from, element, sides.negative)
}

// The spans, and the buckets.
pub(crate) fn lists_size(
    from: &[u8],
    kind: BucketKind,
    spans: SidesView,
    buckets: SidesView,
) -> usize
    ensures { Sized result (length (lists_from kind from.now spans buckets)) × (result ≤ 280000) }
{
    sides_size(from, Element::Span, spans) + sides_size(from, Element::Bucket(kind), buckets)
}

// ---- writing, at a place that has room; the place after

// A list: its count, and then its elements.
fn put_list(from: &[u8], element: Element, list: ListView, buffer: &mut [u8], at: usize) -> usize
    requires { at + length (list_from element from.now list) ≤ length buffer.old }
    ensures { Put buffer.old at (list_from element from.now list) buffer.new result }
{
    let items = uvarint::put_uvarint(buffer, at, list.count);
    put_items(from, element, list.first.0, list.count, buffer, items)
}

// The positive list, and then the negative one.
fn put_sides(from: &[u8], element: Element, sides: SidesView, buffer: &mut [u8], at: usize) -> usize
    requires { at + length (sides_from element from.now sides) ≤ length buffer.old }
    ensures { Put buffer.old at (sides_from element from.now sides) buffer.new result }
{
    let negative = put_list(from, element, sides.positive, buffer, at);
    put_list(from, element, sides.negative, buffer, negative)
}

// The spans of both sides, and then the buckets of both.
pub(crate) fn put_lists(
    from: &[u8],
    kind: BucketKind,
    spans: SidesView,
    buckets: SidesView,
    buffer: &mut [u8],
    at: usize,
) -> usize
    requires { at + length (lists_from kind from.now spans buckets) ≤ length buffer.old }
    ensures { Put buffer.old at (lists_from kind from.now spans buckets)
        buffer.new result }
{
    let second = put_sides(from, Element::Span, spans, buffer, at);
    put_sides(from, Element::Bucket(kind), buckets, buffer, second)
}
