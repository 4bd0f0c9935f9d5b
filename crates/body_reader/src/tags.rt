// The seven types of a body: rows, entries that stand alone, and histograms. Samples and exemplars
// are one case, rows, so that the code that reads a row has one caller and is inlined there.
ghost use Rattle.std.specs.Prelude.{◌≡◌, ◌≤◌};
ghost use Rattle.body_format.specs.Entries.{body_type_of};
ghost use Rattle.body_format.specs.Reading.{by_bucket_kind};
ghost use Rattle.body_reader.specs.Layouts.{type_found, type_read};
ghost use Rattle.body_reader.specs.Results.KindRead.{Known as KindKnown, Refused as KindRefused};

use body_format::{
    BucketKind, EXEMPLARS, FLOAT_HISTOGRAMS, HISTOGRAMS, METADATA, SAMPLES, SERIES, TOMBSTONES,
};
use body_plain::PlainType;
use wal_types::Refusal;

#[derive(Clone, Copy)]
pub enum BodyLayout {
    // Samples, and with labels exemplars.
    Rows { labelled: bool },
    Plain(PlainType),
    Histograms(BucketKind),
}

// The types of tags from 3 on.
fn high_type(tag: u8) -> Result<BodyLayout, Refusal>
    requires { 3 ≤ tag }
    ensures { result ≡ type_found (body_type_of tag) }
{
    match tag {
        TOMBSTONES => Ok(BodyLayout::Plain(PlainType::Tombstones)),
        EXEMPLARS => Ok(BodyLayout::Rows { labelled: true }),
        METADATA => Ok(BodyLayout::Plain(PlainType::Metadata)),
        HISTOGRAMS => Ok(BodyLayout::Histograms(BucketKind::Whole)),
        FLOAT_HISTOGRAMS => Ok(BodyLayout::Histograms(BucketKind::Float)),
        _ => Err(Refusal::UnknownType),
    }
}

// The type of a tag. Samples, which nearly every body is, are told by two comparisons: of all
// seven in one match the compiler makes a jump through a table, which takes longer.
pub(crate) fn type_of(tag: u8) -> Result<BodyLayout, Refusal>
    ensures { result ≡ type_found (body_type_of tag) }
{
    if tag < TOMBSTONES {
        if SERIES < tag {
            return Ok(BodyLayout::Rows { labelled: false });
        }
        if tag == SERIES {
            return Ok(BodyLayout::Plain(PlainType::Series));
        }
        return Err(Refusal::UnknownType);
    }
    high_type(tag)
}

// The type of a body, by its tag (FORMAT 11.1).
pub fn body_type(body: &[u8]) -> Result<BodyLayout, Refusal>
    ensures { result ≡ type_read body.now }
{
    let [tag, ..] = body else {
        return Err(Refusal::EmptyBody);
    };
    type_of(*tag)
}

// The bucket kind of a body of histograms; of any other body WrongKind (FORMAT 11.6).
pub(crate) fn bucket_kind(body: &[u8]) -> Result<BucketKind, Refusal>
    ensures { result ≡ by_bucket_kind KindRefused KindKnown body.now }
{
    let layout = body_type(body)?;
    let BodyLayout::Histograms(kind) = layout else {
        return Err(Refusal::WrongKind);
    };
    Ok(kind)
}
