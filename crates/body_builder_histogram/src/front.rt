// The front of a histogram, which is its head and its numbers, for the histograms of other crates:
// its size, and its writing.
ghost use Rattle.std.specs.Prelude.{◌≡◌, ◌≤◌, length};
ghost use Rattle.wal_types.specs.Deltas.{to_bits};
ghost use Rattle.byte_copy.specs.Put.{put_at, put_end};
ghost use Rattle.body_builder_histogram.specs.Front.{front_bytes};

use crate::front_numbers::{numbers_size, put_numbers};
use crate::heads::{head_size, put_head};
use body_builder::admission::{deltas_of, zigzags};
use body_format::{BucketKind, Numbers};
use wal_types::{SeriesId, Timestamp};

// The bytes that the front takes after the `used` bytes of the body in the buffer.
pub fn front_len(
    buffer: &[u8],
    kind: BucketKind,
    used: usize,
    id: SeriesId,
    time: Timestamp,
    numbers: Numbers,
) -> usize
    ensures { (result ≡ length (front_bytes buffer.now used kind id.0 (to_bits time.0) numbers))
        × (result ≤ 83) }
{
    let row = zigzags(deltas_of(buffer, used, id, time));
    let head = head_size(used, row);
    let rest = numbers_size(kind, numbers);
    head + rest
}

// The front at a place of the buffer; the place after it. Where it does not fit, nothing changes.
pub fn put_front(
    buffer: &mut [u8],
    kind: BucketKind,
    at: usize,
    id: SeriesId,
    time: Timestamp,
    numbers: Numbers,
) -> usize
    ensures value { result ≡ put_end buffer.old at
        (front_bytes buffer.old at kind id.0 (to_bits time.0) numbers) }
    ensures buffer_after { buffer.new ≡ put_at buffer.old at
        (front_bytes buffer.old at kind id.0 (to_bits time.0) numbers) }
{
    let row = zigzags(deltas_of(buffer, at, id, time));
    let size = front_len(buffer, kind, at, id, time, numbers);
    if buffer.len() < at || buffer.len() - at < size {
        return at;
    }
    let second = put_head(buffer, at, id, time, row);
    put_numbers(buffer, kind, second, numbers)
}
