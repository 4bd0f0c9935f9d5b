// The C calls that add histograms to a body; include/depot_wal.h describes them for C. A slice
// passes as a pointer and a length, a fixed array as a pointer, a body's state as its tag and the
// bytes used. A bucket is its 64 bits, a signed number's in two's complement. Slices by their first
// letters: p the positive side, m the negative; o offsets, l lengths, b buckets. No crate calls
// these; tools/archive joins them with those of depot_wal_bodies.
#![tactic(auto)]

ghost use Rattle.std.specs.Prelude.{◌≡◌};
ghost use Rattle.body_format.specs.declared.BucketKind.TheVariants.{Whole, Float};
ghost use Rattle.body_format.specs.Calls.{builder};
ghost use Rattle.body_builder.specs.Answers.{added_of};
ghost use Rattle.body_builder_histogram.specs.Lent.{lent, numbers_of, addition};
ghost use Rattle.depot_wal_results.specs.Bodies.{added_code, added_out};

use body_builder::Body;
use body_builder_histogram::add_histogram;
use body_format::{BucketKind, Numbers};
use depot_wal_results::build_result;
use wal_types::{Offset, SeriesId, Timestamp};

// What both calls do.
fn add(
    buffer: &mut [u8],
    kind: BucketKind,
    tag: u8,
    used: usize,
    id: SeriesId,
    time: Timestamp,
    numbers: Numbers,
    po: &[i32],
    pl: &[u32],
    mo: &[i32],
    ml: &[u32],
    pb: &[u64],
    mb: &[u64],
    out: &mut [u64; 2],
) -> u32
    ensures { (result ≡ added_code (added_of tag (builder buffer.old tag used (addition kind id.0 time.0 numbers
        (lent po.now pl.now mo.now ml.now pb.now mb.now))).outcome))
        × (out.new ≡ added_out used (added_of tag (builder buffer.old tag used (addition kind id.0 time.0 numbers
        (lent po.now pl.now mo.now ml.now pb.now mb.now))).outcome))
        × (buffer.new ≡ (builder buffer.old tag used (addition kind id.0 time.0 numbers
        (lent po.now pl.now mo.now ml.now pb.now mb.now))).buffer) }
{
    let state = Body {
        tag,
        used: Offset(used),
    };
    let answer = add_histogram(
        state, buffer, kind, id, time, numbers, po, pl, mo, ml, pb, mb,
    );
    build_result(answer, used, out)
}

// Adds a histogram of type 7: whole numbers.
#[unsafe(no_mangle)]
pub extern "C" fn depot_wal_add_histogram(
    buffer: &mut [u8],
    tag: u8,
    used: usize,
    id: u64,
    time: i64,
    hint: u8,
    schema: i32,
    threshold: u64,
    zeros: u64,
    count: u64,
    sum: u64,
    po: &[i32],
    pl: &[u32],
    mo: &[i32],
    ml: &[u32],
    pb: &[u64],
    mb: &[u64],
    out: &mut [u64; 2],
) -> u32
    ensures { (result ≡ added_code (added_of tag (builder buffer.old tag used
        (addition Whole id time (numbers_of hint schema threshold zeros count sum)
        (lent po.now pl.now mo.now ml.now pb.now mb.now))).outcome))
        × (out.new ≡ added_out used (added_of tag (builder buffer.old tag used
        (addition Whole id time (numbers_of hint schema threshold zeros count sum)
        (lent po.now pl.now mo.now ml.now pb.now mb.now))).outcome))
        × (buffer.new ≡ (builder buffer.old tag used
        (addition Whole id time (numbers_of hint schema threshold zeros count sum)
        (lent po.now pl.now mo.now ml.now pb.now mb.now))).buffer) }
{
    let numbers = Numbers {
        hint,
        schema,
        threshold,
        zeros,
        count,
        sum,
    };
    add(
        buffer,
        BucketKind::Whole,
        tag,
        used,
        SeriesId(id),
        Timestamp(time),
        numbers,
        po,
        pl,
        mo,
        ml,
        pb,
        mb,
        out,
    )
}

// Adds a histogram of type 8: zero count, count and buckets are floats, as their bits.
#[unsafe(no_mangle)]
pub extern "C" fn depot_wal_add_float_histogram(
    buffer: &mut [u8],
    tag: u8,
    used: usize,
    id: u64,
    time: i64,
    hint: u8,
    schema: i32,
    threshold: u64,
    zeros: u64,
    count: u64,
    sum: u64,
    po: &[i32],
    pl: &[u32],
    mo: &[i32],
    ml: &[u32],
    pb: &[u64],
    mb: &[u64],
    out: &mut [u64; 2],
) -> u32
    ensures { (result ≡ added_code (added_of tag (builder buffer.old tag used
        (addition Float id time (numbers_of hint schema threshold zeros count sum)
        (lent po.now pl.now mo.now ml.now pb.now mb.now))).outcome))
        × (out.new ≡ added_out used (added_of tag (builder buffer.old tag used
        (addition Float id time (numbers_of hint schema threshold zeros count sum)
        (lent po.now pl.now mo.now ml.now pb.now mb.now))).outcome))
        × (buffer.new ≡ (builder buffer.old tag used
        (addition Float id time (numbers_of hint schema threshold zeros count sum)
        (lent po.now pl.now mo.now ml.now pb.now mb.now))).buffer) }
{
    let numbers = Numbers {
        hint,
        schema,
        threshold,
        zeros,
        count,
        sum,
    };
    add(
        buffer,
        BucketKind::Float,
        tag,
        used,
        SeriesId(id),
        Timestamp(time),
        numbers,
        po,
        pl,
        mo,
        ml,
        pb,
        mb,
        out,
    )
}
