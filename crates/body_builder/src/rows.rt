// The row of an entry, for the entries of other crates: its size, and its writing.
ghost use Rattle.std.specs.Prelude.{◌≡◌, ℕ, ◌≤◌, length};
ghost use Rattle.wal_types.specs.Deltas.{to_bits};
ghost use Rattle.byte_copy.specs.Put.{put_at, put_end};
ghost use Rattle.body_format.specs.Building.{row_bytes};

use crate::admission::{deltas_of, zigzags};
use crate::builder::{put_row, row_size};
use wal_types::{SeriesId, Timestamp};

// The bytes that the row of an id and a time takes after the `used` bytes of the body in the
// buffer, whatever its value.
pub fn row_len(buffer: &[u8], used: usize, id: SeriesId, time: Timestamp) -> usize
    ensures { ((bits : ℕ) → result ≡ length (row_bytes buffer.now used id.0 (to_bits time.0) bits))
        × (result ≤ 28) }
{
    let row = zigzags(deltas_of(buffer, used, id, time));
    row_size(used, row)
}

// The row at a place of the buffer; the place after it. Where it does not fit, nothing changes.
pub fn put_row_at(buffer: &mut [u8], at: usize, id: SeriesId, time: Timestamp, bits: u64) -> usize
    ensures value { result ≡ put_end buffer.old at
        (row_bytes buffer.old at id.0 (to_bits time.0) bits) }
    ensures buffer_after { buffer.new ≡ put_at buffer.old at
        (row_bytes buffer.old at id.0 (to_bits time.0) bits) }
{
    let row = zigzags(deltas_of(buffer, at, id, time));
    let size = row_size(at, row);
    if buffer.len() < at || buffer.len() - at < size {
        return at;
    }
    put_row(buffer, at, id, time, row, bits)
}
