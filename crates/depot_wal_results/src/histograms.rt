// The answers of the calls that read histograms as numbers, for C.
ghost use Rattle.std.specs.Prelude.{◌≡◌};
ghost use Rattle.wal_types.specs.Deltas.{to_bits};
ghost use Rattle.body_format.specs.Results.HistogramAnswer.{Found as «HistogramFound»};
ghost use Rattle.depot_wal_results.specs.Histograms.{histogram_code, histogram_out, span_code, span_out, bucket_code, bucket_out};

use body_format::HistogramView;
use wal_types::{Offset, Refusal};

// The two's complement of a number of 32 bits, in 64.
fn bits_of_32(x: i32) -> u64
    ensures { result ≡ to_bits x }
{
    wal_types::bits_of(i64::from(x))
}

// A histogram's numbers, in the order of `out`.
fn histogram_numbers(histogram: HistogramView) -> [u64; 18]
    ensures { result ≡ histogram_out (HistogramFound histogram) }
{
    let HistogramView {
        numbers,
        spans,
        buckets,
        ..
    } = histogram;
    [
        histogram.tag as u64,
        histogram.id.0,
        wal_types::time_bits(histogram.time),
        numbers.hint as u64,
        bits_of_32(numbers.schema),
        numbers.threshold,
        numbers.zeros,
        numbers.count,
        numbers.sum,
        spans.positive.count,
        spans.positive.first.0 as u64,
        spans.negative.count,
        spans.negative.first.0 as u64,
        buckets.positive.count,
        buckets.positive.first.0 as u64,
        buckets.negative.count,
        buckets.negative.first.0 as u64,
        histogram.next.0 as u64,
    ]
}

// What reading a histogram answered.
pub fn histogram_result(answer: Result<Option<HistogramView>, Refusal>, out: &mut [u64; 18]) -> u32
    ensures { (result ≡ histogram_code answer) × (out.new ≡ histogram_out answer) }
{
    match answer {
        Ok(Some(histogram)) => {
            *out = histogram_numbers(histogram);
            0
        }
        Ok(None) => {
            *out = [0; 18];
            200
        }
        Err(why) => {
            let at = wal_types::place(why);
            *out = [0; 18];
            out[0] = at.0 as u64;
            wal_types::number(why)
        }
    }
}

// What reading a span answered.
pub fn span_result(answer: Result<(i32, u32, Offset), Refusal>, out: &mut [u64; 3]) -> u32
    ensures { (result ≡ span_code answer) × (out.new ≡ span_out answer) }
{
    match answer {
        Ok((offset, length, next)) => {
            *out = [bits_of_32(offset), length as u64, next.0 as u64];
            0
        }
        Err(why) => {
            let at = wal_types::place(why);
            *out = [at.0 as u64, 0, 0];
            wal_types::number(why)
        }
    }
}

// What reading a bucket answered.
pub fn bucket_result(answer: Result<(u64, Offset), Refusal>, out: &mut [u64; 2]) -> u32
    ensures { (result ≡ bucket_code answer) × (out.new ≡ bucket_out answer) }
{
    match answer {
        Ok((bits, next)) => {
            *out = [bits, next.0 as u64];
            0
        }
        Err(why) => {
            let at = wal_types::place(why);
            *out = [at.0 as u64, 0];
            wal_types::number(why)
        }
    }
}
