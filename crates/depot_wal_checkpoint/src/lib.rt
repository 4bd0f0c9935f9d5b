// The C call that writes a checkpoint. include/depot_wal.h says the same for C. tools/archive joins
// it with the other calls.
#![tactic(auto)]

ghost use Rattle.std.specs.Prelude.{◌≡◌};
ghost use Rattle.wal_types.specs.Versions.{version_of};
ghost use Rattle.log_checkpoint.specs.Passes.{checkpointed};
ghost use Rattle.depot_wal_checkpoint.specs.Results.{checkpointer_for, checkpoint_number, checkpoint_out};

use checkpoint_format::Checkpointed;
use log_format::LogError;
use wal_types::{Offset, Refusal, Timestamp, version_of};

// A result as numbers: what the call returns, and what it leaves in `out`.
fn checkpoint_result(made: Checkpointed, out: &mut [u64; 2]) -> u32
    ensures { (result ≡ checkpoint_number made.answer) × (out.new ≡ checkpoint_out made.answer made.next.0) }
{
    let next = made.next.0 as u64;
    match made.answer {
        Ok(()) => {
            *out = [next, 0];
            0
        }
        Err(LogError::Unread(why)) => {
            let at = wal_types::place(why);
            *out = [next, at.0 as u64];
            wal_types::number(why)
        }
        Err(LogError::Stopped { why, start }) => {
            *out = [next, start.0 as u64];
            wal_types::number(why)
        }
    }
}

// A checkpoint by the number of a version (FORMAT 1.4).
fn checkpoint_as(
    version: u32,
    source: &[u8],
    ids: &[u64],
    since: Timestamp,
    target: &mut [u8],
    work: &mut [u8],
    body: &mut [u8],
) -> Checkpointed
    ensures { (result ≡ checkpointed
        (checkpointer_for (version_of version) source.now ids.now since.0 target.old work.old
        body.old).answer
        (checkpointer_for (version_of version) source.now ids.now since.0 target.old work.old
        body.old).next)
        × (target.new ≡ (checkpointer_for (version_of version) source.now ids.now since.0 target.old
        work.old body.old).target)
        × (work.new ≡ (checkpointer_for (version_of version) source.now ids.now since.0 target.old
        work.old body.old).work)
        × (body.new ≡ (checkpointer_for (version_of version) source.now ids.now since.0 target.old
        work.old body.old).body) }
{
    let Some(version) = version_of(version) else {
        log_checkpoint::clear_full(work, body);
        return Checkpointed {
            answer: Err(LogError::Unread(Refusal::BadName)),
            next: Offset(0),
        };
    };
    log_checkpoint::checkpoint(version, source, ids, since, target, work, body)
}

// Writes to the target what is kept of the source, a segment of the version (FORMAT 24).
#[unsafe(no_mangle)]
pub extern "C" fn depot_wal_checkpoint(
    version: u32,
    source: &[u8],
    ids: &[u64],
    time: i64,
    target: &mut [u8],
    work: &mut [u8],
    body: &mut [u8],
    out: &mut [u64; 2],
) -> u32
    ensures { (result ≡ checkpoint_number (checkpointer_for (version_of version) source.now ids.now time target.old
        work.old body.old).answer)
        × (out.new ≡ checkpoint_out
        (checkpointer_for (version_of version) source.now ids.now time target.old work.old
        body.old).answer
        (checkpointer_for (version_of version) source.now ids.now time target.old work.old
        body.old).next)
        × (target.new ≡ (checkpointer_for (version_of version) source.now ids.now time target.old
        work.old body.old).target)
        × (work.new ≡ (checkpointer_for (version_of version) source.now ids.now time target.old
        work.old body.old).work)
        × (body.new ≡ (checkpointer_for (version_of version) source.now ids.now time target.old
        work.old body.old).body) }
{
    let made = checkpoint_as(version, source, ids, Timestamp(time), target, work, body);
    checkpoint_result(made, out)
}
