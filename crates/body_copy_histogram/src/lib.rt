// Adding a histogram, of type 7 or 8, that is taken out of another body (FORMAT 24.3): its lists
// are read there, element by element, once to measure them and once to write them. What the two
// types share is here once, with the bucket kind as an argument.
#![tactic(auto)]

mod items;
mod lists;

ghost use Rattle.std.specs.Prelude.{◌≡◌, false, ◌+◌, ◌≤◌, length};
ghost use Rattle.body_format.specs.Entries.{histograms, type_byte, Entry, body_type_for};
ghost use Rattle.body_format.specs.Building.{entry_bytes, add, add_bytes};
ghost use Rattle.body_builder.specs.Answers.{added_of};
ghost use Rattle.body_builder.specs.Laws.Putting.{Put};
ghost use Rattle.body_copy_histogram.specs.Found.{entry_found, adding_found};
ghost use Rattle.body_copy_histogram.specs.Forms.{view_bytes};

use body_builder::Body;
use body_builder::admission::admit;
use body_builder_histogram::front::{front_len, put_front};
use body_format::{BucketKind, HistogramView};
use body_histogram::histogram_entry;
use lists::{lists_size, put_lists};
use wal_types::{Offset, Refusal};

// The histogram of a view at a place that has room for it: its front, and then its lists; the place
// after it.
fn put_view(
    from: &[u8],
    view: HistogramView,
    buffer: &mut [u8],
    kind: BucketKind,
    at: usize,
) -> usize
    requires { at + length (view_bytes buffer.old at kind from.now view) ≤ length buffer.old }
    ensures { Put buffer.old at (view_bytes buffer.old at kind from.now view)
        buffer.new result }
{
    let lists = put_front(buffer, kind, at, view.id, view.time, view.numbers);
    put_lists(from, kind, view.spans, view.buckets, buffer, lists)
}

// The histogram of a view is added: every entry that has its tag and its bytes.
fn add_view(
    body: Body,
    buffer: &mut [u8],
    from: &[u8],
    kind: BucketKind,
    view: HistogramView,
) -> Result<Body, Refusal>
    ensures { (e : Entry) → view.tag ≡ type_byte (body_type_for e)
        → entry_bytes buffer.old body.used.0 e
        ≡ view_bytes buffer.old body.used.0 kind from.now view
        → (result ≡ added_of body.tag (add buffer.old body.tag body.used.0 e false))
        × (buffer.new ≡
        add_bytes (add buffer.old body.tag body.used.0 e false) buffer.old body.used.0 e) }
{
    let at = body.used.0;
    let front = front_len(buffer, kind, at, view.id, view.time, view.numbers);
    let lists = lists_size(from, kind, view.spans, view.buckets);
    let size = front + lists;
    admit(buffer, body.tag, at, view.tag, Some(size))?;
    let next = put_view(from, view, buffer, kind, at);
    Ok(Body {
        used: Offset(next),
        ..body
    })
}

// One histogram more: the one that is read at a place of the body `from`, as `entry_at` of
// `body_reader` reads it.
pub fn add_histogram_from(
    body: Body,
    buffer: &mut [u8],
    from: &[u8],
    kind: BucketKind,
    place: Offset,
) -> Result<Body, Refusal>
    ensures answer { result ≡ added_of body.tag
        (adding_found buffer.old body.tag body.used.0
        (entry_found (histograms kind) from.now place.0)).outcome }
    ensures bytes { buffer.new ≡
        (adding_found buffer.old body.tag body.used.0
        (entry_found (histograms kind) from.now place.0)).buffer }
{
    let view = histogram_entry(from, kind, place.0)?.ok_or(Refusal::BadPlace)?;
    add_view(body, buffer, from, kind, view)
}
