// Adding a histogram, of type 7 or 8, to a body that is being built in a caller-owned buffer. The
// answer, and every byte of the buffer afterwards, are those of body_format's definitions (FORMAT
// 10). What the two types share is written once, with the bucket kind as an argument.
#![tactic(auto)]

pub mod buckets;
pub mod front;
mod front_numbers;
mod heads;
mod items;
pub mod spans;

ghost use Rattle.std.specs.Prelude.{◌≡◌, false, ◌||◌, ◌++◌, ◌+◌, ◌≤◌, length};
ghost use Rattle.wal_types.specs.Deltas.{to_bits};
ghost use Rattle.body_format.specs.Entries.{histograms, type_byte};
ghost use Rattle.body_format.specs.Heads.{head_bytes};
ghost use Rattle.body_format.specs.Histograms.{numbers_bytes};
ghost use Rattle.body_format.specs.Calls.{builder};
ghost use Rattle.body_builder.specs.Answers.{added_of};
ghost use Rattle.body_builder.specs.Sizes.{deltas_in, zigzags_of};
ghost use Rattle.body_builder.specs.Laws.Additions.{Measures};
ghost use Rattle.body_builder.specs.Laws.Putting.{Put};
ghost use Rattle.body_builder_histogram.specs.Firsts.{head_size};
ghost use Rattle.body_builder_histogram.specs.Items.{bad_of, bad_sides, sides_of};
ghost use Rattle.body_builder_histogram.specs.Lent.{lent, addition};

use body_builder::Body;
use body_builder::admission::{Deltas, admit, deltas_of, zigzags};
use body_format::{BucketKind, FLOAT_HISTOGRAMS, HISTOGRAMS, Numbers};
use front_numbers::{numbers_size, put_numbers};
use heads::{head_size, put_head};
use items::{Items, Sides};
use wal_types::{Offset, Refusal, SeriesId, Timestamp};

// The type of a bucket kind.
fn tag_of(kind: BucketKind) -> u8
    ensures { result ≡ type_byte (histograms kind) }
{
    match kind {
        BucketKind::Whole => HISTOGRAMS,
        BucketKind::Float => FLOAT_HISTOGRAMS,
    }
}

// The bytes of a histogram after `used` bytes, by the zigzags of its row, unless a list of it is
// bad.
fn histogram_size(
    used: usize,
    row: Deltas,
    kind: BucketKind,
    numbers: Numbers,
    spans: Sides<'_>,
    buckets: Sides<'_>,
) -> Option<usize>
    ensures { Measures result (bad_sides spans.entry || bad_sides buckets.entry)
        (head_size used row + length (numbers_bytes kind numbers)
        + (length (sides_of spans.entry) + length (sides_of buckets.entry))) }
{
    let fixed = head_size(used, row) + numbers_size(kind, numbers);
    Some(fixed + (spans.size()? + buckets.size()?))
}

// A histogram at a place that has room for it: its head, its numbers and its lists; the place after
// it.
fn put_histogram(
    buffer: &mut [u8],
    kind: BucketKind,
    at: usize,
    id: SeriesId,
    time: Timestamp,
    row: Deltas,
    numbers: Numbers,
    spans: Sides<'_>,
    buckets: Sides<'_>,
) -> usize
    requires { (row ≡ zigzags_of (deltas_in buffer.old at id.0 (to_bits time.0)))
        × ((bad_of spans.positive ≡ false) × (bad_of spans.negative ≡ false))
        × ((bad_of buckets.positive ≡ false) × (bad_of buckets.negative ≡ false))
        × (at + length (head_bytes buffer.old at id.0 (to_bits time.0) ++ (numbers_bytes kind numbers
        ++ (sides_of spans ++ sides_of buckets))) ≤ length buffer.old) }
    ensures { Put buffer.old at (head_bytes buffer.old at id.0 (to_bits time.0)
        ++ (numbers_bytes kind numbers ++ (sides_of spans.entry ++ sides_of buckets.entry))) buffer.new result }
{
    let second = put_head(buffer, at, id, time, row);
    let third = put_numbers(buffer, kind, second, numbers);
    let fourth = spans.put(buffer, third);
    buckets.put(buffer, fourth)
}

// One histogram more: the spans of each side as offsets and lengths, a bucket as 64 bits, those of
// a signed number (type 7) or of a float (type 8). Slices by their first letters: p the positive
// side, m the negative; o offsets, l lengths, b buckets. The C interface lends these six slices.
pub fn add_histogram(
    body: Body,
    buffer: &mut [u8],
    kind: BucketKind,
    id: SeriesId,
    time: Timestamp,
    numbers: Numbers,
    po: &[i32],
    pl: &[u32],
    mo: &[i32],
    ml: &[u32],
    pb: &[u64],
    mb: &[u64],
) -> Result<Body, Refusal>
    ensures answer { result ≡ added_of body.tag
        (builder buffer.old body.tag body.used.0 (addition kind id.0 time.0 numbers
        (lent po.now pl.now mo.now ml.now pb.now mb.now))).outcome }
    ensures bytes { buffer.new ≡
        (builder buffer.old body.tag body.used.0 (addition kind id.0 time.0 numbers
        (lent po.now pl.now mo.now ml.now pb.now mb.now))).buffer }
{
    let spans = Sides {
        positive: Items::Spans(po, pl),
        negative: Items::Spans(mo, ml),
    };
    let buckets = Sides {
        positive: Items::Buckets(kind, pb),
        negative: Items::Buckets(kind, mb),
    };
    let at = body.used.0;
    let row = zigzags(deltas_of(buffer, at, id, time));
    let size = histogram_size(at, row, kind, numbers, spans, buckets);
    admit(buffer, body.tag, at, tag_of(kind), size)?;
    let next = put_histogram(buffer, kind, at, id, time, row, numbers, spans, buckets);
    Ok(Body {
        used: Offset(next),
        ..body
    })
}
