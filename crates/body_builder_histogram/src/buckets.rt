// A bucket: 64 bits, those of a signed number or of a float.
ghost use Rattle.std.specs.Prelude.{◌≡◌, ◌≤◌, length};
ghost use Rattle.byte_copy.specs.Put.{put_at, put_end};
ghost use Rattle.body_format.specs.Histograms.{bucket_bytes};

use body_format::BucketKind;
use delta::zigzag_of_delta;

// The bytes of a bucket: a signed varint in type 7, a float in type 8.
pub fn bucket_size(kind: BucketKind, bits: u64) -> usize
    ensures { (result ≡ length (bucket_bytes kind bits)) × (result ≤ 10) }
{
    match kind {
        BucketKind::Whole => uvarint::uvarint_len(zigzag_of_delta(bits)),
        BucketKind::Float => 8,
    }
}

// A bucket at a place of the buffer; the place after it.
pub fn put_bucket(buffer: &mut [u8], kind: BucketKind, at: usize, bits: u64) -> usize
    ensures value { result ≡ put_end buffer.old at (bucket_bytes kind bits) }
    ensures buffer_after { buffer.new ≡ put_at buffer.old at (bucket_bytes kind bits) }
{
    match kind {
        BucketKind::Whole => uvarint::put_uvarint(buffer, at, zigzag_of_delta(bits)),
        BucketKind::Float => big_endian::put_be8(buffer, at, bits),
    }
}
