// The lists of a histogram as the caller lends them: spans as two slices, or buckets as one. Both
// are measured and written alike: the count, and then the elements.
ghost use Rattle.std.specs.Prelude.{◌≡◌, false, ◌+◌, ◌*◌, ◌≤◌, ◌<◌, length, get_or, pos, IfSome};
ghost use Rattle.std.proofs.lemmas.List.Edits.{sets};
ghost use Rattle.body_format.specs.Histograms.{item_bytes, items_bytes};
ghost use Rattle.body_builder.specs.Laws.Additions.{Measures};
ghost use Rattle.body_builder.specs.Laws.Putting.{Put};
ghost use Rattle.body_builder_histogram.specs.Items.{element_of, items_of, item_of, bad_of, bytes_of, bad_sides, sides_of};

use crate::buckets::{bucket_size, put_bucket};
use crate::spans::{put_span, span_size};
use body_format::BucketKind;
use wal_types::RECORD_LIMIT;

// A list: the offsets and lengths of spans, or buckets of 64 bits each. The C interface lends spans
// as two slices.
#[derive(Clone, Copy)]
pub(crate) enum Items<'a> {
    Spans(&'a [i32], &'a [u32]),
    Buckets(BucketKind, &'a [u64]),
}

// The lists of both sides.
#[derive(Clone, Copy)]
pub(crate) struct Sides<'a> {
    pub positive: Items<'a>,
    pub negative: Items<'a>,
}

// The span at an index, and the bucket. Functions of their own: of slices in an enum it is not
// known that an index times an element's size fits.
fn span_at(offsets: &[i32], lengths: &[u32], i: usize) -> (i32, u32)
    requires { (i < length offsets.now) × (i < length lengths.now) }
    ensures { (result.0 ≡ get_or offsets.now i (pos 0)) × (result.1 ≡ get_or lengths.now i 0) }
{
    (offsets[i], lengths[i])
}

fn bucket_at(bits: &[u64], i: usize) -> u64
    requires { i < length bits.now }
    ensures { result ≡ get_or bits.now i 0 }
{
    bits[i]
}

impl Items<'_> {
    // BadList (FORMAT 10.5): not as many offsets as lengths.
    fn is_bad(self) -> bool
        ensures { result ≡ bad_of self.entry }
    {
        match self {
            Items::Spans(offsets, lengths) => offsets.len() != lengths.len(),
            Items::Buckets(_, _) => false,
        }
    }

    // How many elements.
    fn len(self) -> usize
        requires { bad_of self ≡ false }
        ensures { result ≡ length (items_of self.entry) }
    {
        match self {
            Items::Spans(_, lengths) => lengths.len(),
            Items::Buckets(_, bits) => bits.len(),
        }
    }

    // The bytes of an element.
    fn size_at(self, i: usize) -> usize
        requires { (bad_of self ≡ false) × (i < length (items_of self)) }
        ensures { (result ≡ length (item_bytes (element_of self.entry) (item_of self.entry i))) × (result ≤ 20) }
    {
        match self {
            Items::Spans(offsets, lengths) => {
                let (offset, length) = span_at(offsets, lengths, i);
                span_size(offset, length)
            }
            Items::Buckets(kind, bits) => bucket_size(kind, bucket_at(bits, i)),
        }
    }

    // An element at a place that has room for it; the place after it.
    fn put_at(self, i: usize, buffer: &mut [u8], place: usize) -> usize
        requires { (bad_of self ≡ false) × (i < length (items_of self)) ×
            (place + length (item_bytes (element_of self) (item_of self i)) ≤ length buffer.old) }
        ensures { Put buffer.old place (item_bytes (element_of self.entry) (item_of self.entry i)) buffer.new result }
    {
        match self {
            Items::Spans(offsets, lengths) => {
                let (offset, length) = span_at(offsets, lengths, i);
                put_span(buffer, place, offset, length)
            }
            Items::Buckets(kind, bits) => put_bucket(buffer, kind, place, bucket_at(bits, i)),
        }
    }

    // The bytes of its elements in a row.
    fn elements_size(self, count: usize) -> usize
        requires { (bad_of self ≡ false) × (count ≡ length (items_of self)) × (count ≤ 65536) }
        ensures { (result ≡ length (items_bytes (element_of self.entry) (items_of self.entry)))
            × (result ≤ 20 * count) }
    {
        let mut total = 0;
        for i in 0..count {
            total += self.size_at(i);
        }
        total
    }

    // The bytes that the list takes in a body. A list of more than 65,536 elements fits in no body;
    // all of them get one size, so that no sum wraps. A bad one has none.
    fn size(self) -> Option<usize>
        ensures { Measures result (bad_of self.entry) (length (bytes_of self.entry))
            × IfSome result (λ n. n ≤ 1500000) }
    {
        if self.is_bad() {
            return None;
        }
        let count = self.len();
        if RECORD_LIMIT < count {
            return Some(RECORD_LIMIT + 1);
        }
        Some(uvarint::uvarint_len(count as u64) + self.elements_size(count))
    }

    // The list at a place that has room for it: the count, and then the elements; the place after.
    fn put(self, buffer: &mut [u8], at: usize) -> usize
        requires { (bad_of self ≡ false) × (at + length (bytes_of self) ≤ length buffer.old) }
        ensures { Put buffer.old at (bytes_of self.entry) buffer.new result }
    {
        let count = self.len();
        let mut place = uvarint::put_uvarint(buffer, at, count as u64);
        for i in 0..count {
            place = self.put_at(i, buffer, place);
        }
        place
    }
}

impl Sides<'_> {
    // The bytes of both lists, unless one of them is bad.
    pub(crate) fn size(self) -> Option<usize>
        ensures { Measures result (bad_sides self.entry) (length (sides_of self.entry))
            × IfSome result (λ n. n ≤ 3000000) }
    {
        Some(self.positive.size()? + self.negative.size()?)
    }

    // Both lists at a place that has room for them; the place after them.
    pub(crate) fn put(self, buffer: &mut [u8], at: usize) -> usize
        requires { (bad_of self.positive ≡ false) × (bad_of self.negative ≡ false) ×
            (at + length (sides_of self) ≤ length buffer.old) }
        ensures { Put buffer.old at (sides_of self.entry) buffer.new result }
    {
        let negative = self.positive.put(buffer, at);
        self.negative.put(buffer, negative)
    }
}
