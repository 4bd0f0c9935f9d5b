// The fields that histograms alone have, each decoded at its place. A fault is at the field's first
// byte.
ghost use Rattle.std.specs.Prelude.{◌≡◌};
ghost use Rattle.body_format.specs.Histograms.{int32_at, uint32_at, count_at, bucket_at, span_at};
ghost use Rattle.body_format.specs.Fields.{fixed_at};
ghost use Rattle.body_format.specs.Reading.{answer_span, answer_bucket};
ghost use Rattle.body_fields.specs.Readings.{number_read};
ghost use Rattle.body_histogram.specs.Forms.{int32_read};

use body_fields::{fixed_at, uvarint_at};
use body_format::BucketKind;
use delta::delta_of_zigzag;
use varint::zigzag_back;
use wal_types::{Offset, Refusal};

// A schema, or a span's offset. It has 32 bits exactly if its zigzag has.
pub(crate) fn int32_at(body: &[u8], at: usize) -> Result<(i32, usize), Refusal>
    ensures { result ≡ int32_read (int32_at body.now at) }
{
    let (zigzag, next) = uint32_at(body, at)?;
    let value = zigzag_back(u64::from(zigzag)) as i32;
    Ok((value, next))
}

// A span's length.
fn uint32_at(body: &[u8], at: usize) -> Result<(u32, usize), Refusal>
    ensures { result ≡ number_read (uint32_at body.now at) }
{
    let (wide, next) = uvarint_at(body, at)?;
    let value = u32::try_from(wide).map_err(|_| Refusal::BadRange(Offset(at)))?;
    Ok((value, next))
}

// A zero count or a count.
pub(crate) fn count_at(body: &[u8], kind: BucketKind, at: usize) -> Result<(u64, usize), Refusal>
    ensures { result ≡ number_read (count_at kind body.now at) }
{
    match kind {
        BucketKind::Whole => uvarint_at(body, at),
        BucketKind::Float => fixed_at(body, at),
    }
}

// A bucket: it has the bytes of a count, which of type 7 are the zigzag of a delta.
pub fn bucket_at(body: &[u8], kind: BucketKind, at: usize) -> Result<(u64, Offset), Refusal>
    ensures { result ≡ answer_bucket (bucket_at kind body.now at) }
{
    let (value, next) = count_at(body, kind, at)?;
    match kind {
        BucketKind::Whole => Ok((delta_of_zigzag(value), Offset(next))),
        BucketKind::Float => Ok((value, Offset(next))),
    }
}

// A span: its offset, and its length.
pub fn span_at(body: &[u8], at: usize) -> Result<(i32, u32, Offset), Refusal>
    ensures { result ≡ answer_span (span_at body.now at) }
{
    let (offset, second) = int32_at(body, at)?;
    let (length, next) = uint32_at(body, second)?;
    Ok((offset, length, Offset(next)))
}
