// The C call that goes on after a power cut. include/depot_wal.h says the same for C. tools/archive
// joins it with the other calls.
#![tactic(auto)]

ghost use Rattle.std.specs.Prelude.{◌≡◌};
ghost use Rattle.wal_types.specs.Versions.{version_of};
ghost use Rattle.depot_wal_resume.specs.Results.{resumer_for, resume_code, resume_out};

use resume_format::Resumed;
use segment_format::Good;
use wal_types::{Offset, Refusal, version_of};

// What resuming answered.
fn resume_result(answer: Result<Offset, Refusal>, good: Good, out: &mut [u64; 4]) -> u32
    ensures { (result ≡ resume_code answer) × (out.new ≡ resume_out answer good) }
{
    let records = good.records as u64;
    let offset = good.offset.0 as u64;
    match answer {
        Ok(at) => {
            *out = [at.0 as u64, 0, records, offset];
            0
        }
        Err(why) => {
            let at = wal_types::place(why);
            *out = [0, at.0 as u64, records, offset];
            wal_types::number(why)
        }
    }
}

// The call by the number of a version (FORMAT 1.4).
fn resume_as(version: u32, segment: &mut [u8], survived: usize) -> Resumed
    ensures { (result ≡ (resumer_for (version_of version) segment.old survived).resumed)
        × (segment.new ≡ (resumer_for (version_of version) segment.old survived).slice) }
{
    let Some(version) = version_of(version) else {
        return Resumed {
            answer: Err(Refusal::BadName),
            good: Good {
                records: 0,
                offset: Offset(0),
            },
        };
    };
    segment_resume::resume(version, segment, survived)
}

// Where to go on in a segment of which the first `survived` bytes stand (FORMAT 23).
#[unsafe(no_mangle)]
pub extern "C" fn depot_wal_resume(
    version: u32,
    segment: &mut [u8],
    survived: usize,
    out: &mut [u64; 4],
) -> u32
    ensures { (result ≡ resume_code (resumer_for (version_of version) segment.old survived).resumed.answer)
        × (out.new ≡ resume_out
        (resumer_for (version_of version) segment.old survived).resumed.answer
        (resumer_for (version_of version) segment.old survived).resumed.good)
        × (segment.new ≡ (resumer_for (version_of version) segment.old survived).slice) }
{
    let Resumed { answer, good } = resume_as(version, segment, survived);
    resume_result(answer, good, out)
}
