// The C call that adds a segment to a report. include/depot_wal.h says the same for C.
// tools/archive joins it with the other calls.
#![tactic(auto)]

ghost use Rattle.std.specs.Prelude.{◌≡◌, [], ◌∷◌};
ghost use Rattle.wal_types.specs.Versions.{version_of};
ghost use Rattle.segment_format.specs.Sums.{version_sum};
ghost use Rattle.report_format.specs.Calls.{reporter};

use wal_types::version_of;

// Adds a segment of a version, by its number, to the report (FORMAT 22.4 to 22.8).
#[unsafe(no_mangle)]
pub extern "C" fn depot_wal_report_segment(
    version: u32,
    segment: &[u8],
    buffer: &mut [u8],
    report: &mut [u64; 1284],
    out: &mut [u64; 1],
) -> u32
    ensures { (result ≡ (reporter version_sum (version_of version) segment.now buffer.old report.old).number)
        × (out.new ≡ (reporter version_sum (version_of version) segment.now buffer.old
        report.old).place ∷ [])
        × (report.new ≡ (reporter version_sum (version_of version) segment.now buffer.old
        report.old).report)
        × (buffer.new ≡ (reporter version_sum (version_of version) segment.now buffer.old
        report.old).buffer) }
{
    let answer = log_report::report_segment(version_of(version), segment, buffer, report);
    *out = [answer.place];
    answer.number
}
