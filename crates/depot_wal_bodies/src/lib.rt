// The C calls that build and read record bodies; include/depot_wal.h describes them for C. A slice
// passes as a pointer and a length, a fixed array as a pointer, a body's state as its tag and the
// bytes used. No crate calls these; tools/archive joins them with those of depot_wal_segments.
#![tactic(auto)]

ghost use Rattle.std.specs.Prelude.{◌≡◌};
ghost use Rattle.body_format.specs.Reading.{check_body, read_entry, read_string, read_histogram, read_span, read_bucket};
ghost use Rattle.body_format.specs.Calls.{starter, builder, add_series, add_sample, add_tombstone, add_exemplar, add_metadata};
ghost use Rattle.body_builder.specs.Answers.{added_of};
ghost use Rattle.depot_wal_results.specs.Bodies.{added_code, added_out, check_code, check_out, entry_code, entry_out, string_code, string_out};
ghost use Rattle.depot_wal_results.specs.Histograms.{histogram_code, histogram_out, span_code, span_out, bucket_code, bucket_out};

use body_builder::Body;
use depot_wal_results::histograms::{bucket_result, histogram_result, span_result};
use depot_wal_results::{build_result, check_result, entry_result, string_result};
use wal_types::{Offset, SeriesId, Timestamp};

// Starts a body of the type `tag`.
#[unsafe(no_mangle)]
pub extern "C" fn depot_wal_body_start(buffer: &mut [u8], tag: u8, out: &mut [u64; 2]) -> u32
    ensures { (result ≡ added_code (added_of tag (starter buffer.old tag).outcome))
        × (out.new ≡ added_out 0 (added_of tag (starter buffer.old tag).outcome))
        × (buffer.new ≡ (starter buffer.old tag).buffer) }
{
    let answer = Body::start(buffer, tag);
    build_result(answer, 0, out)
}

// Adds a series: its id, and its labels as one slice of bytes and one of lengths.
#[unsafe(no_mangle)]
pub extern "C" fn depot_wal_add_series(
    buffer: &mut [u8],
    tag: u8,
    used: usize,
    id: u64,
    strings: &[u8],
    lengths: &[u64],
    out: &mut [u64; 2],
) -> u32
    ensures { (result ≡ added_code (added_of tag
        (builder buffer.old tag used
        (add_series id strings.now lengths.now)).outcome))
        × (out.new ≡ added_out used
        (added_of tag (builder buffer.old tag used
        (add_series id strings.now lengths.now)).outcome))
        × (buffer.new ≡ (builder buffer.old tag used
        (add_series id strings.now lengths.now)).buffer) }
{
    let state = Body {
        tag,
        used: Offset(used),
    };
    let answer = state.add_series(buffer, SeriesId(id), strings, lengths);
    build_result(answer, used, out)
}

// Adds a sample.
#[unsafe(no_mangle)]
pub extern "C" fn depot_wal_add_sample(
    buffer: &mut [u8],
    tag: u8,
    used: usize,
    id: u64,
    time: i64,
    bits: u64,
    out: &mut [u64; 2],
) -> u32
    ensures { (result ≡ added_code (added_of tag (builder buffer.old tag used (add_sample id time bits)).outcome))
        × (out.new ≡ added_out used
        (added_of tag (builder buffer.old tag used (add_sample id time bits)).outcome))
        × (buffer.new ≡ (builder buffer.old tag used (add_sample id time bits)).buffer) }
{
    let state = Body {
        tag,
        used: Offset(used),
    };
    let answer = state.add_sample(buffer, SeriesId(id), Timestamp(time), bits);
    build_result(answer, used, out)
}

// Adds a tombstone.
#[unsafe(no_mangle)]
pub extern "C" fn depot_wal_add_tombstone(
    buffer: &mut [u8],
    tag: u8,
    used: usize,
    id: u64,
    min: i64,
    max: i64,
    out: &mut [u64; 2],
) -> u32
    ensures { (result ≡ added_code (added_of tag (builder buffer.old tag used (add_tombstone id min max)).outcome))
        × (out.new ≡ added_out used
        (added_of tag (builder buffer.old tag used (add_tombstone id min max)).outcome))
        × (buffer.new ≡ (builder buffer.old tag used (add_tombstone id min max)).buffer) }
{
    let state = Body {
        tag,
        used: Offset(used),
    };
    let answer = state.add_tombstone(buffer, SeriesId(id), Timestamp(min), Timestamp(max));
    build_result(answer, used, out)
}

// Adds an exemplar: a sample's row, and its labels.
#[unsafe(no_mangle)]
pub extern "C" fn depot_wal_add_exemplar(
    buffer: &mut [u8],
    tag: u8,
    used: usize,
    id: u64,
    time: i64,
    bits: u64,
    strings: &[u8],
    lengths: &[u64],
    out: &mut [u64; 2],
) -> u32
    ensures { (result ≡ added_code (added_of tag
        (builder buffer.old tag used
        (add_exemplar id time bits strings.now lengths.now)).outcome))
        × (out.new ≡ added_out used
        (added_of tag (builder buffer.old tag used
        (add_exemplar id time bits strings.now lengths.now)).outcome))
        × (buffer.new ≡ (builder buffer.old tag used
        (add_exemplar id time bits strings.now lengths.now)).buffer) }
{
    let state = Body {
        tag,
        used: Offset(used),
    };
    let answer = state.add_exemplar(
        buffer,
        SeriesId(id),
        Timestamp(time),
        bits,
        strings,
        lengths,
    );
    build_result(answer, used, out)
}

// Adds the metadata of a series: its metric type, and its name and text strings.
#[unsafe(no_mangle)]
pub extern "C" fn depot_wal_add_metadata(
    buffer: &mut [u8],
    tag: u8,
    used: usize,
    id: u64,
    metric_type: u8,
    strings: &[u8],
    lengths: &[u64],
    out: &mut [u64; 2],
) -> u32
    ensures { (result ≡ added_code (added_of tag
        (builder buffer.old tag used
        (add_metadata id metric_type strings.now lengths.now)).outcome))
        × (out.new ≡ added_out used
        (added_of tag (builder buffer.old tag used
        (add_metadata id metric_type strings.now lengths.now)).outcome))
        × (buffer.new ≡ (builder buffer.old tag used
        (add_metadata id metric_type strings.now lengths.now)).buffer) }
{
    let state = Body {
        tag,
        used: Offset(used),
    };
    let answer = state.add_metadata(buffer, SeriesId(id), metric_type, strings, lengths);
    build_result(answer, used, out)
}

// Checks a body: its number of entries, or the refusal.
#[unsafe(no_mangle)]
pub extern "C" fn depot_wal_body_check(bytes: &[u8], out: &mut [u64; 1]) -> u32
    ensures { (result ≡ check_code (check_body bytes.now)) ×
        (out.new ≡ check_out (check_body bytes.now)) }
{
    let answer = body_reader::check(bytes);
    check_result(answer, out)
}

// Reads the entry at a place.
#[unsafe(no_mangle)]
pub extern "C" fn depot_wal_entry_at(bytes: &[u8], place: usize, out: &mut [u64; 8]) -> u32
    ensures { (result ≡ entry_code (read_entry bytes.now place)) ×
        (out.new ≡ entry_out (read_entry bytes.now place)) }
{
    let answer = body_reader::entry_at(bytes, Offset(place));
    entry_result(answer, out)
}

// Reads the string at a place: where its bytes start, and their number.
#[unsafe(no_mangle)]
pub extern "C" fn depot_wal_string_at(bytes: &[u8], place: usize, out: &mut [u64; 2]) -> u32
    ensures { (result ≡ string_code (read_string bytes.now place)) ×
        (out.new ≡ string_out (read_string bytes.now place)) }
{
    let answer = body_reader::string_at(bytes, Offset(place));
    string_result(answer, out)
}

// Reads the histogram at a place: its numbers, and its lists by their counts and first places.
#[unsafe(no_mangle)]
pub extern "C" fn depot_wal_histogram_at(bytes: &[u8], place: usize, out: &mut [u64; 18]) -> u32
    ensures { (result ≡ histogram_code (read_histogram bytes.now place)) ×
        (out.new ≡ histogram_out (read_histogram bytes.now place)) }
{
    let answer = body_reader::histogram_at(bytes, Offset(place));
    histogram_result(answer, out)
}

// Reads the span of a histogram at a place: its offset, its length, and the place after it.
#[unsafe(no_mangle)]
pub extern "C" fn depot_wal_span_at(bytes: &[u8], place: usize, out: &mut [u64; 3]) -> u32
    ensures { (result ≡ span_code (read_span bytes.now place)) ×
        (out.new ≡ span_out (read_span bytes.now place)) }
{
    let answer = body_reader::span_at(bytes, Offset(place));
    span_result(answer, out)
}

// Reads the bucket of a histogram at a place: its number or its float's bits, and the place after
// it.
#[unsafe(no_mangle)]
pub extern "C" fn depot_wal_bucket_at(bytes: &[u8], place: usize, out: &mut [u64; 2]) -> u32
    ensures { (result ≡ bucket_code (read_bucket bytes.now place)) ×
        (out.new ≡ bucket_out (read_bucket bytes.now place)) }
{
    let answer = body_reader::bucket_at(bytes, Offset(place));
    bucket_result(answer, out)
}
