// Adding an entry that is taken out of another body (FORMAT 24.3): its strings are read there, each
// at its place, and never pass through a list of lengths. The answers, and every byte of the buffer
// afterwards, are those of body_format's definitions (FORMAT 10). Samples and tombstones have no
// strings: they go through the methods of `Body`.
#![tactic(auto)]

mod strings;

ghost use Rattle.std.specs.Prelude.{◌≡◌, ◌∷◌, ◌++◌, ◌+◌, ◌≤◌, length};
ghost use Rattle.uvarint.specs.Uvarint.{uvarint as «uvarintBytes»};
ghost use Rattle.big_endian.specs.Fixed.{be8};
ghost use Rattle.wal_types.specs.Deltas.{to_bits};
ghost use Rattle.body_format.specs.Fields.{strings_at};
ghost use Rattle.body_format.specs.Building.{row_bytes};
ghost use Rattle.body_format.specs.Entries.{series_entry, exemplar_entry, metadata_entry};
ghost use Rattle.body_builder.specs.Answers.{added_of};
ghost use Rattle.body_builder.specs.Laws.Putting.{Put};
ghost use Rattle.body_copy.specs.Taking.{adding};
ghost use Rattle.body_copy.specs.Forms.{list_from};

use body_builder::Body;
use body_builder::admission::admit;
use body_builder::rows::{put_row_at, row_len};
use body_format::{EXEMPLARS, METADATA, SERIES};
use strings::{entry_size, put_list};
use wal_types::{Offset, Refusal, SeriesId, Timestamp};

// ---- series

// The id, and the list of labels, at a place that has room for them; the place after them.
fn put_series(
    from: &[u8],
    first: usize,
    count: usize,
    buffer: &mut [u8],
    at: usize,
    id: SeriesId,
) -> usize
    requires { at + length (be8 id.0 ++ list_from count from.now first) ≤ length buffer.old }
    ensures { Put buffer.old at (be8 id.0 ++ list_from count from.now first)
        buffer.new result }
{
    let list = big_endian::put_be8(buffer, at, id.0);
    put_list(from, first, count, buffer, list)
}

// One series more: its labels are the `count` strings of the body `from`, from place `first` on.
pub fn add_series_from(
    body: Body,
    buffer: &mut [u8],
    id: SeriesId,
    from: &[u8],
    first: Offset,
    count: usize,
) -> Result<Body, Refusal>
    ensures answer { result ≡ added_of body.tag
        (adding buffer.old body.tag body.used.0 (series_entry id.0) count
        (strings_at count from.now first.0)).outcome }
    ensures bytes { buffer.new ≡
        (adding buffer.old body.tag body.used.0 (series_entry id.0) count
        (strings_at count from.now first.0)).buffer }
{
    let at = body.used.0;
    let size = entry_size(8, from, first.0, count);
    admit(buffer, body.tag, at, SERIES, size)?;
    let next = put_series(from, first.0, count, buffer, at, id);
    Ok(Body {
        used: Offset(next),
        ..body
    })
}

// ---- exemplars

// The row, and the list of labels, likewise.
fn put_exemplar(
    from: &[u8],
    first: usize,
    count: usize,
    buffer: &mut [u8],
    at: usize,
    id: SeriesId,
    time: Timestamp,
    bits: u64,
) -> usize
    requires { at + length (row_bytes buffer.old at id.0 (to_bits time.0) bits ++ list_from count from.now first) ≤ length
        buffer.old }
    ensures { Put buffer.old at
        (row_bytes buffer.old at id.0 (to_bits time.0) bits ++ list_from count from.now first)
        buffer.new result }
{
    let list = put_row_at(buffer, at, id, time, bits);
    put_list(from, first, count, buffer, list)
}

// One exemplar more: its labels are the `count` strings of the body `from`, from place `first` on.
pub fn add_exemplar_from(
    body: Body,
    buffer: &mut [u8],
    id: SeriesId,
    time: Timestamp,
    bits: u64,
    from: &[u8],
    first: Offset,
    count: usize,
) -> Result<Body, Refusal>
    ensures answer { result ≡ added_of body.tag
        (adding buffer.old body.tag body.used.0 (exemplar_entry id.0 time.0 bits) count
        (strings_at count from.now first.0)).outcome }
    ensures bytes { buffer.new ≡
        (adding buffer.old body.tag body.used.0 (exemplar_entry id.0 time.0 bits) count
        (strings_at count from.now first.0)).buffer }
{
    let at = body.used.0;
    let row = row_len(buffer, at, id, time);
    let size = entry_size(row, from, first.0, count);
    admit(buffer, body.tag, at, EXEMPLARS, size)?;
    let next = put_exemplar(from, first.0, count, buffer, at, id, time, bits);
    Ok(Body {
        used: Offset(next),
        ..body
    })
}

// ---- metadata

// The id, the metric type, and the list of name and text strings, likewise.
fn put_metadata(
    from: &[u8],
    first: usize,
    count: usize,
    buffer: &mut [u8],
    at: usize,
    id: SeriesId,
    metric: u8,
) -> usize
    requires { at + length (uvarintBytes id.0 ++ (metric ∷ list_from count from.now first)) ≤ length buffer.old }
    ensures { Put buffer.old at
        (uvarintBytes id.0 ++ (metric ∷ list_from count from.now first)) buffer.new result }
{
    let second = uvarint::put_uvarint(buffer, at, id.0);
    buffer[second] = metric;
    let list = second + 1;
    put_list(from, first, count, buffer, list)
}

// One metadata entry more: its name and text are the `count` strings of the body `from`, from place
// `first` on.
pub fn add_metadata_from(
    body: Body,
    buffer: &mut [u8],
    id: SeriesId,
    metric: u8,
    from: &[u8],
    first: Offset,
    count: usize,
) -> Result<Body, Refusal>
    ensures answer { result ≡ added_of body.tag
        (adding buffer.old body.tag body.used.0 (metadata_entry id.0 metric) count
        (strings_at count from.now first.0)).outcome }
    ensures bytes { buffer.new ≡
        (adding buffer.old body.tag body.used.0 (metadata_entry id.0 metric) count
        (strings_at count from.now first.0)).buffer }
{
    let at = body.used.0;
    let head = uvarint::uvarint_len(id.0) + 1;
    let size = entry_size(head, from, first.0, count);
    admit(buffer, body.tag, at, METADATA, size)?;
    let next = put_metadata(from, first.0, count, buffer, at, id, metric);
    Ok(Body {
        used: Offset(next),
        ..body
    })
}
