// The head of a row (FORMAT 10.4): in the first row of a body the first id and timestamp, and then
// the deltas of id and time to these, by their zigzags.
ghost use Rattle.std.specs.Prelude.{◌≡◌, ◌+◌, ◌≤◌, length};
ghost use Rattle.std.proofs.lemmas.List.Edits.{sets};
ghost use Rattle.wal_types.specs.Deltas.{to_bits};
ghost use Rattle.body_format.specs.Heads.{head_bytes};
ghost use Rattle.body_builder.specs.Sizes.{deltas_in, zigzags_of};
ghost use Rattle.body_builder_histogram.specs.Firsts.{first_bytes, head_size};

use body_builder::admission::Deltas;
use wal_types::{SeriesId, Timestamp, time_bits};

// The bytes of the first id and timestamp.
const FIRSTS: usize = 16;

// The bytes that a head takes after `used` bytes.
pub(crate) fn head_size(used: usize, row: Deltas) -> usize
    ensures { (result ≡ head_size used row) × (result ≤ 36) }
{
    let first = uvarint::uvarint_len(row.id);
    let second = uvarint::uvarint_len(row.time);
    let deltas = first + second;
    if used == 1 { FIRSTS + deltas } else { deltas }
}

// The first id and timestamp, where this is the first row; the place after them.
fn put_firsts(buffer: &mut [u8], at: usize, id: SeriesId, time: Timestamp) -> usize
    requires { at + length (first_bytes at id.0 (to_bits time.0)) ≤ length buffer.old }
    ensures value { result ≡ at + length (first_bytes at id.0 (to_bits time.0)) }
    ensures buffer_after { buffer.new ≡ sets buffer.old at (first_bytes at id.0 (to_bits time.0)) }
{
    if at != 1 {
        return at;
    }
    let second = big_endian::put_be8(buffer, at, id.0);
    big_endian::put_be8(buffer, second, time_bits(time))
}

// A head at a place that has room for it; the place after it.
pub(crate) fn put_head(
    buffer: &mut [u8],
    at: usize,
    id: SeriesId,
    time: Timestamp,
    row: Deltas,
) -> usize
    requires { (row ≡ zigzags_of (deltas_in buffer.old at id.0 (to_bits time.0))) ×
        (at + length (head_bytes buffer.old at id.0 (to_bits time.0)) ≤ length buffer.old) }
    ensures value { result ≡ at + length (head_bytes buffer.old at id.0 (to_bits time.0)) }
    ensures buffer_after { buffer.new ≡ sets buffer.old at
        (head_bytes buffer.old at id.0 (to_bits time.0)) }
{
    let first = put_firsts(buffer, at, id, time);
    let second = uvarint::put_uvarint(buffer, first, row.id);
    uvarint::put_uvarint(buffer, second, row.time)
}
