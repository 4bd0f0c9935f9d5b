// The C calls that read and write one segment.
ghost use Rattle.std.specs.Prelude.{◌≡◌};
ghost use Rattle.wal_types.specs.Versions.{version_of};
ghost use Rattle.segment_format.specs.Calls.{writer};
ghost use Rattle.segment_format.specs.Good.{good_after, good_reader};
ghost use Rattle.segment_format.proofs.Laws.Counted.{Counts};
ghost use Rattle.segment_format.specs.Sums.{version_sum, table_sum};
ghost use Rattle.depot_wal_results.specs.Segments.{read_code, read_out, good_of, good_out, write_code, write_out, reader_for, writer_for};

use depot_wal_results::{good_of, read_result, write_result};
use segment_format::Record;
use wal_types::{Offset, Refusal, Version, version_of};

// Reads, and turns the answer into numbers, for the calls with a table and without. It is done here
// because an answer passed on to another function would be stored in parts and loaded whole, which
// stalls. `&x[0..]` passes a slice's address and length in registers.
fn read_to_out(
    version: Version,
    table: &[u32],
    segment: &[u8],
    place: usize,
    buffer: &mut [u8],
    good: &mut [u64; 2],
    out: &mut [u64; 3],
) -> u32
    ensures { (result ≡ read_code (good_reader (table_sum version table.now) segment.now place buffer.old
        (good_of good.old)).read.answer)
        × (out.new ≡ read_out (good_reader (table_sum version table.now) segment.now place buffer.old
        (good_of good.old)).read.answer)
        × (good.new ≡ good_out (good_reader (table_sum version table.now) segment.now place buffer.old
        (good_of good.old)).read.good)
        × (buffer.new ≡ (good_reader (table_sum version table.now) segment.now place buffer.old
        (good_of good.old)).buffer) }
{
    let given = good_of(good);
    let read = segment_reader::read_with_table(
        version,
        &table[0..],
        &segment[0..],
        Offset(place),
        buffer,
        given,
    );
    count_read(read.answer, good);
    read_result(read.answer, out)
}

// The pair with this answer, in place: numbers kept in registers over the read would cost more.
fn count_read(answer: Result<Option<Record>, Refusal>, good: &mut [u64; 2])
    requires { Counts answer (good_of good.old) }
    ensures { good.new ≡ good_out (good_after answer (good_of good.old)) }
{
    if let Ok(Some(record)) = answer {
        let more = good[0] + 1;
        *good = [more, record.next.0 as u64];
    }
}

// Writes, likewise.
fn write_to_out(
    version: Version,
    table: &[u32],
    segment: &mut [u8],
    place: usize,
    record: &[u8],
    out: &mut [u64; 2],
) -> u32
    ensures { (result ≡ write_code (writer (table_sum version table.now) segment.old place
        «record».now).answer)
        × (out.new ≡ write_out place
        (writer (table_sum version table.now) segment.old place «record».now).answer)
        × (segment.new ≡ (writer (table_sum version table.now) segment.old place
        «record».now).slice) }
{
    let answer = segment_writer::write_with_table(
        version,
        &table[0..],
        segment,
        Offset(place),
        &record[0..],
    );
    write_result(answer, place, out)
}

// Both by the number of a version (FORMAT 1.4). No two words that C passes on the stack side by
// side are passed on side by side: the compiler would copy both by one wide load, which waits until
// the caller's two stores are in the cache (docs/SPEED.md).
fn read_as(
    table: &[u32],
    segment: &[u8],
    place: usize,
    buffer: &mut [u8],
    out: &mut [u64; 3],
    number: u32,
    good: &mut [u64; 2],
) -> u32
    ensures { (result ≡ read_code (reader_for (λ v. table_sum v table.now) (version_of number) segment.now place
        buffer.old (good_of good.old)).read.answer)
        × (out.new ≡ read_out (reader_for (λ v. table_sum v table.now) (version_of number) segment.now place
        buffer.old (good_of good.old)).read.answer)
        × (good.new ≡ good_out (reader_for (λ v. table_sum v table.now) (version_of number) segment.now place
        buffer.old (good_of good.old)).read.good)
        × (buffer.new ≡ (reader_for (λ v. table_sum v table.now) (version_of number) segment.now place
        buffer.old (good_of good.old)).buffer) }
{
    match version_of(number) {
        Some(version) => read_to_out(
            version,
            &table[0..],
            &segment[0..],
            place,
            buffer,
            good,
            out,
        ),
        None => read_result(Err(Refusal::BadName), out),
    }
}

fn write_as(
    table: &[u32],
    segment: &mut [u8],
    place: usize,
    record: &[u8],
    number: u32,
    out: &mut [u64; 2],
) -> u32
    ensures { (result ≡ write_code (writer_for (λ v. table_sum v table.now) (version_of number) segment.old place
        «record».now).answer)
        × (out.new ≡ write_out place (writer_for (λ v. table_sum v table.now) (version_of number)
        segment.old place «record».now).answer)
        × (segment.new ≡ (writer_for (λ v. table_sum v table.now) (version_of number) segment.old place
        «record».now).slice) }
{
    match version_of(number) {
        Some(version) => write_to_out(version, &table[0..], segment, place, &record[0..], out),
        None => write_result(Err(Refusal::BadName), place, out),
    }
}

// Writes a record at a place (FORMAT 4 and 5) of a segment of a version.
#[unsafe(no_mangle)]
pub extern "C" fn depot_wal_write(
    version: u32,
    segment: &mut [u8],
    place: usize,
    record: &[u8],
    out: &mut [u64; 2],
) -> u32
    ensures { (result ≡ write_code (writer_for version_sum (version_of version) segment.old place «record».now).answer)
        × (out.new ≡ write_out place
        (writer_for version_sum (version_of version) segment.old place «record».now).answer)
        × (segment.new ≡ (writer_for version_sum (version_of version) segment.old place «record».now).slice) }
{
    write_as(&crc32c::NO_TABLE, segment, place, record, version, out)
}

// Reads the record at a place into the buffer (FORMAT 6). `good` has the pair that the read before
// handed back, and then the one with this answer (FORMAT 6.14).
#[unsafe(no_mangle)]
pub extern "C" fn depot_wal_read(
    version: u32,
    segment: &[u8],
    place: usize,
    buffer: &mut [u8],
    good: &mut [u64; 2],
    out: &mut [u64; 3],
) -> u32
    ensures { (result ≡ read_code (reader_for version_sum (version_of version) segment.now place buffer.old
        (good_of good.old)).read.answer)
        × (out.new ≡ read_out (reader_for version_sum (version_of version) segment.now place buffer.old
        (good_of good.old)).read.answer)
        × (good.new ≡ good_out (reader_for version_sum (version_of version) segment.now place buffer.old
        (good_of good.old)).read.good)
        × (buffer.new ≡ (reader_for version_sum (version_of version) segment.now place buffer.old
        (good_of good.old)).buffer) }
{
    read_as(
        &crc32c::NO_TABLE,
        segment,
        place,
        buffer,
        out,
        version,
        good,
    )
}

// `depot_wal_write` with the checksum by the caller's table.
#[unsafe(no_mangle)]
pub extern "C" fn depot_wal_write_with_table(
    table: &[u32; 2048],
    version: u32,
    segment: &mut [u8],
    place: usize,
    record: &[u8],
    out: &mut [u64; 2],
) -> u32
    ensures { (result ≡ write_code (writer_for (λ v. table_sum v table.now) (version_of version) segment.old place
        «record».now).answer)
        × (out.new ≡ write_out place
        (writer_for (λ v. table_sum v table.now) (version_of version) segment.old place «record».now).answer)
        × (segment.new ≡ (writer_for (λ v. table_sum v table.now) (version_of version) segment.old place
        «record».now).slice) }
{
    write_as(table, segment, place, record, version, out)
}

// `depot_wal_read` with the checksum by the caller's table.
#[unsafe(no_mangle)]
pub extern "C" fn depot_wal_read_with_table(
    table: &[u32; 2048],
    version: u32,
    segment: &[u8],
    place: usize,
    buffer: &mut [u8],
    good: &mut [u64; 2],
    out: &mut [u64; 3],
) -> u32
    ensures { (result ≡ read_code (reader_for (λ v. table_sum v table.now) (version_of version) segment.now place buffer.old
        (good_of good.old)).read.answer)
        × (out.new ≡ read_out (reader_for (λ v. table_sum v table.now) (version_of version) segment.now place buffer.old
        (good_of good.old)).read.answer)
        × (good.new ≡ good_out (reader_for (λ v. table_sum v table.now) (version_of version) segment.now place buffer.old
        (good_of good.old)).read.good)
        × (buffer.new ≡ (reader_for (λ v. table_sum v table.now) (version_of version) segment.now place buffer.old
        (good_of good.old)).buffer) }
{
    read_as(table, segment, place, buffer, out, version, good)
}
