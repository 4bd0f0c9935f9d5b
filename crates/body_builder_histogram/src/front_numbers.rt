// The numbers of a histogram (FORMAT 9.4): hint, schema, zero threshold, zero count, count, sum.
ghost use Rattle.std.specs.Prelude.{◌≡◌, ◌+◌, ◌≤◌, length};
ghost use Rattle.std.proofs.lemmas.List.Edits.{sets};
ghost use Rattle.byte_copy.specs.Put.{put_at, put_end};
ghost use Rattle.body_format.specs.Histograms.{count_bytes, numbers_bytes};

use body_format::{BucketKind, Numbers};

// The bytes of a zero count or a count: a uvarint in type 7, a float in type 8.
fn count_size(kind: BucketKind, count: u64) -> usize
    ensures { (result ≡ length (count_bytes kind count)) × (result ≤ 10) }
{
    match kind {
        BucketKind::Whole => uvarint::uvarint_len(count),
        BucketKind::Float => 8,
    }
}

// The count at a place of the buffer; the place after it.
#[tactic(auto, unfolding(body_format::specs::Histograms::count_bytes))]
fn put_count(buffer: &mut [u8], kind: BucketKind, at: usize, count: u64) -> usize
    ensures value { result ≡ put_end buffer.old at (count_bytes kind count) }
    ensures buffer_after { buffer.new ≡ put_at buffer.old at (count_bytes kind count) }
{
    match kind {
        BucketKind::Whole => uvarint::put_uvarint(buffer, at, count),
        BucketKind::Float => big_endian::put_be8(buffer, at, count),
    }
}

// The bytes that the numbers take: hint, zero threshold and sum have 17.
pub(crate) fn numbers_size(kind: BucketKind, numbers: Numbers) -> usize
    ensures { (result ≡ length (numbers_bytes kind numbers)) × (result ≤ 47) }
{
    let schema = varint::varint_len(i64::from(numbers.schema));
    let zeros = count_size(kind, numbers.zeros);
    let count = count_size(kind, numbers.count);
    17 + schema + zeros + count
}

// The numbers at a place that has room for them; the place after them.
pub(crate) fn put_numbers(buffer: &mut [u8], kind: BucketKind, at: usize, numbers: Numbers) -> usize
    requires { at + length (numbers_bytes kind numbers) ≤ length buffer.old }
    ensures value { result ≡ at + length (numbers_bytes kind numbers) }
    ensures buffer_after { buffer.new ≡ sets buffer.old at (numbers_bytes kind numbers) }
{
    buffer[at] = numbers.hint;
    let schema = at + 1;
    let threshold = varint::put_varint(buffer, schema, i64::from(numbers.schema));
    let zeros = big_endian::put_be8(buffer, threshold, numbers.threshold);
    let count = put_count(buffer, kind, zeros, numbers.zeros);
    let sum = put_count(buffer, kind, count, numbers.count);
    big_endian::put_be8(buffer, sum, numbers.sum)
}
