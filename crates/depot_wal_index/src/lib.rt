// The C calls about an index beside a segment. include/depot_wal.h says the same for C.
// tools/archive joins them with the other calls. An answer's numbers are those of a write, of a
// body's check or of a string (proofs/Laws), so depot_wal_results stores them.
#![tactic(auto)]

ghost use Rattle.std.specs.Prelude.{◌≡◌, ok_or};
ghost use Rattle.wal_types.specs.declared.Refusal.TheVariants.{BadName};
ghost use Rattle.wal_types.specs.Versions.{version_of};
ghost use Rattle.index_format.specs.Calls.{look_up};
ghost use Rattle.depot_wal_index.specs.Results.{builder_for, checker_for, extender_for, index_code, index_out, check_code, check_out, row_code, row_out};

use depot_wal_results::{check_result, string_result as row_result, write_result};
use wal_types::{Offset, Refusal, Version, version_of};

// What building or extending answered; `given` is the number of bytes that the index had. The
// numbers are those of a write whose next place is where the index now ends.
fn index_result(answer: Result<usize, Refusal>, given: usize, out: &mut [u64; 2]) -> u32
    ensures { (result ≡ index_code answer) × (out.new ≡ index_out given answer) }
{
    write_result(answer.map(Offset), given, out)
}

// The version of a number (FORMAT 1.4); what is no version is no name.
fn known(number: u32) -> Result<Version, Refusal>
    ensures { result ≡ ok_or (version_of number) BadName }
{
    version_of(number).ok_or(Refusal::BadName)
}

fn build_as(version: u32, segment: &[u8], index: &mut [u8]) -> Result<usize, Refusal>
    ensures { (result ≡ (builder_for (version_of version) segment.now index.old).answer)
        × (index.new ≡ (builder_for (version_of version) segment.now index.old).index) }
{
    let version = known(version)?;
    segment_index::build(version, segment, index)
}

fn check_as(version: u32, segment: &[u8], index: &[u8]) -> Result<usize, Refusal>
    ensures { result ≡ checker_for (version_of version) segment.now index.now }
{
    let version = known(version)?;
    segment_index::check(version, segment, index)
}

fn extend_as(version: u32, segment: &[u8], index: &mut [u8], used: usize) -> Result<usize, Refusal>
    ensures { (result ≡ (extender_for (version_of version) segment.now index.old used).answer)
        × (index.new ≡ (extender_for (version_of version) segment.now index.old used).index) }
{
    let version = known(version)?;
    segment_index::extend(version, segment, index, used)
}

// Builds the index of a segment (FORMAT 19.2).
#[unsafe(no_mangle)]
pub extern "C" fn depot_wal_index_build(
    version: u32,
    segment: &[u8],
    index: &mut [u8],
    out: &mut [u64; 2],
) -> u32
    ensures { (result ≡ index_code (builder_for (version_of version) segment.now index.old).answer)
        × (out.new ≡ index_out 0 (builder_for (version_of version) segment.now index.old).answer)
        × (index.new ≡ (builder_for (version_of version) segment.now index.old).index) }
{
    let answer = build_as(version, segment, index);
    index_result(answer, 0, out)
}

// Checks an index against its segment (FORMAT 19.3).
#[unsafe(no_mangle)]
pub extern "C" fn depot_wal_index_check(
    version: u32,
    segment: &[u8],
    index: &[u8],
    out: &mut [u64; 1],
) -> u32
    ensures { (result ≡ check_code (checker_for (version_of version) segment.now index.now))
        × (out.new ≡ check_out (checker_for (version_of version) segment.now index.now)) }
{
    let answer = check_as(version, segment, index);
    check_result(answer, out)
}

// Extends the index in the first `used` bytes of a buffer (FORMAT 19.4).
#[unsafe(no_mangle)]
pub extern "C" fn depot_wal_index_extend(
    version: u32,
    segment: &[u8],
    index: &mut [u8],
    used: usize,
    out: &mut [u64; 2],
) -> u32
    ensures { (result ≡ index_code (extender_for (version_of version) segment.now index.old used).answer)
        × (out.new ≡ index_out used
        (extender_for (version_of version) segment.now index.old used).answer)
        × (index.new ≡ (extender_for (version_of version) segment.now index.old used).index) }
{
    let answer = extend_as(version, segment, index, used);
    index_result(answer, used, out)
}

// Start and length of a record, by its number from 0 (FORMAT 19.5).
#[unsafe(no_mangle)]
pub extern "C" fn depot_wal_index_at(index: &[u8], record: u64, out: &mut [u64; 2]) -> u32
    ensures { (result ≡ row_code (look_up index.now «record»))
        × (out.new ≡ row_out (look_up index.now «record»)) }
{
    let answer = segment_index::row_at(index, record);
    row_result(answer, out)
}
