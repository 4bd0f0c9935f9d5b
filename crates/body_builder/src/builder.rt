// The size of an entry, and its writing at a place that has room for it.
ghost use Rattle.std.specs.Prelude.{◌≡◌, ◌+◌, ◌≤◌, ◌<◌, length};
ghost use Rattle.std.proofs.lemmas.List.Edits.{sets};
ghost use Rattle.wal_types.specs.Deltas.{to_bits};
ghost use Rattle.body_format.specs.Building.{cut_strings, total, row_bytes, entry_bytes};
ghost use Rattle.body_format.specs.Entries.{series_entry, tombstone_entry, metadata_entry};
ghost use Rattle.body_builder.specs.Sizes.{deltas_in, zigzags_of, row_size, row_tail, tombstone_size};

use crate::admission::Deltas;
use crate::strings::put_list;
use wal_types::{SeriesId, Timestamp, time_bits};

// The bytes of the first row: the first id and timestamp, two deltas of one byte each, the value.
const FIRST_ROW: usize = 26;

// The bytes that a row takes after `used` bytes, by the zigzags of its deltas. The first one has
// the first id and timestamp too.
pub(crate) fn row_size(used: usize, row: Deltas) -> usize
    ensures { (result ≡ row_size used row.id row.time) × (result ≤ 28) }
{
    if used == 1 {
        return FIRST_ROW;
    }
    let first = uvarint::uvarint_len(row.id);
    let second = uvarint::uvarint_len(row.time);
    first + second + 8
}

// Two deltas of one byte each, and the value. Nearly every row is such, and here the lengths of its
// deltas need no test.
fn put_short_deltas(buffer: &mut [u8], at: usize, id: u64, time: u64, bits: u64) -> usize
    requires { (id < 128) × (time < 128) × (at + length (row_tail id time bits) ≤ length buffer.old) }
    ensures value { result ≡ at + length (row_tail id time bits) }
    ensures buffer_after { buffer.new ≡ sets buffer.old at (row_tail id time bits) }
{
    let second = at + 1;
    let third = at + 2;
    buffer[at] = id as u8;
    buffer[second] = time as u8;
    big_endian::put_be8(buffer, third, bits)
}

// Two deltas of any length, and the value.
fn put_long_deltas(buffer: &mut [u8], at: usize, id: u64, time: u64, bits: u64) -> usize
    requires { at + length (row_tail id time bits) ≤ length buffer.old }
    ensures value { result ≡ at + length (row_tail id time bits) }
    ensures buffer_after { buffer.new ≡ sets buffer.old at (row_tail id time bits) }
{
    let second = uvarint::put_uvarint(buffer, at, id);
    let third = uvarint::put_uvarint(buffer, second, time);
    big_endian::put_be8(buffer, third, bits)
}

// Two deltas and the value.
fn put_deltas(buffer: &mut [u8], at: usize, id: u64, time: u64, bits: u64) -> usize
    requires { at + length (row_tail id time bits) ≤ length buffer.old }
    ensures value { result ≡ at + length (row_tail id time bits) }
    ensures buffer_after { buffer.new ≡ sets buffer.old at (row_tail id time bits) }
{
    if id < 128 && time < 128 {
        return put_short_deltas(buffer, at, id, time, bits);
    }
    put_long_deltas(buffer, at, id, time, bits)
}

// A row, which types 2 and 4 share, by the zigzags of its deltas, at a place that has room for it;
// the place after it.
pub(crate) fn put_row(
    buffer: &mut [u8],
    at: usize,
    id: SeriesId,
    time: Timestamp,
    row: Deltas,
    bits: u64,
) -> usize
    requires { (row ≡ zigzags_of (deltas_in buffer.old at id.0 (to_bits time.0))) ×
        (at + length (row_bytes buffer.old at id.0 (to_bits time.0) bits) ≤ length buffer.old) }
    ensures value { result ≡ at + length (row_bytes buffer.old at id.0 (to_bits time.0) bits) }
    ensures buffer_after { buffer.new ≡ sets buffer.old at
        (row_bytes buffer.old at id.0 (to_bits time.0) bits) }
{
    if at == 1 {
        let second = big_endian::put_be8(buffer, at, id.0);
        let third = big_endian::put_be8(buffer, second, time_bits(time));
        return put_deltas(buffer, third, 0, 0, bits);
    }
    put_deltas(buffer, at, row.id, row.time, bits)
}

// The bytes that a tombstone takes.
pub(crate) fn tombstone_size(min: Timestamp, max: Timestamp) -> usize
    ensures { result ≡ tombstone_size min.0 max.0 }
{
    let first = varint::varint_len(min.0);
    let second = varint::varint_len(max.0);
    8 + (first + second)
}

// A tombstone at a place that has room for it; the place after it.
pub(crate) fn put_tombstone(
    buffer: &mut [u8],
    at: usize,
    id: SeriesId,
    min: Timestamp,
    max: Timestamp,
) -> usize
    requires { at + length (entry_bytes buffer.old at (tombstone_entry id.0 min.0 max.0)) ≤ length
        buffer.old }
    ensures value { result ≡ at + length
        (entry_bytes buffer.old at (tombstone_entry id.0 min.0 max.0)) }
    ensures buffer_after { buffer.new ≡ sets buffer.old at
        (entry_bytes buffer.old at (tombstone_entry id.0 min.0 max.0)) }
{
    let second = big_endian::put_be8(buffer, at, id.0);
    let third = varint::put_varint(buffer, second, min.0);
    varint::put_varint(buffer, third, max.0)
}

// A series at a place that has room for it; the place after it.
pub(crate) fn put_series(
    buffer: &mut [u8],
    at: usize,
    id: SeriesId,
    strings: &[u8],
    lengths: &[u64],
) -> usize
    requires { (total lengths.now ≡ length strings.now) ×
        (at + length (entry_bytes buffer.old at
        (series_entry id.0 (cut_strings strings.now lengths.now))) ≤ length buffer.old) }
    ensures value { result ≡ at + length
        (entry_bytes buffer.old at
        (series_entry id.0 (cut_strings strings.now lengths.now))) }
    ensures buffer_after { buffer.new ≡ sets buffer.old at
        (entry_bytes buffer.old at
        (series_entry id.0 (cut_strings strings.now lengths.now))) }
{
    let list = big_endian::put_be8(buffer, at, id.0);
    put_list(buffer, list, strings, lengths)
}

// A metadata entry at a place that has room for it; the place after it.
pub(crate) fn put_metadata(
    buffer: &mut [u8],
    at: usize,
    id: SeriesId,
    metric: u8,
    strings: &[u8],
    lengths: &[u64],
) -> usize
    requires { (total lengths.now ≡ length strings.now) ×
        (at + length (entry_bytes buffer.old at
        (metadata_entry id.0 metric (cut_strings strings.now lengths.now))) ≤ length buffer.old) }
    ensures value { result ≡ at + length
        (entry_bytes buffer.old at
        (metadata_entry id.0 metric (cut_strings strings.now lengths.now))) }
    ensures buffer_after { buffer.new ≡ sets buffer.old at
        (entry_bytes buffer.old at
        (metadata_entry id.0 metric (cut_strings strings.now lengths.now))) }
{
    let second = uvarint::put_uvarint(buffer, at, id.0);
    buffer[second] = metric;
    let list = second + 1;
    put_list(buffer, list, strings, lengths)
}
