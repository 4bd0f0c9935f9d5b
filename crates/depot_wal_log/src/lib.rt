// The C calls that replay a log. include/depot_wal.h says the same for C. tools/archive joins them
// with the other calls.
#![tactic(auto)]

ghost use Rattle.std.specs.Prelude.{◌≡◌};
ghost use Rattle.wal_types.specs.Versions.{version_of};
ghost use Rattle.log_format.specs.declared.Mode.TheVariants.{Default, Strict};
ghost use Rattle.log_format.specs.Calls.{good_replayed};
ghost use Rattle.log_format.specs.Claims.{answer_number};
ghost use Rattle.depot_wal_log.specs.Results.{replayer_for, replay_out};

use log_format::{GoodReplayed, LogError, Mode, Replayed};
use segment_format::Good;
use wal_types::{Offset, Refusal, version_of};

// A result as numbers: what the call returns, and what it leaves in `out`.
fn replay_result(replayed: GoodReplayed, out: &mut [u64; 6]) -> u32
    ensures { (result ≡ answer_number replayed.result.answer) × (out.new ≡ replay_out replayed) }
{
    let GoodReplayed { result, good } = replayed;
    let series = result.series as u64;
    let orphans = result.orphans;
    let skipped = result.skipped;
    let records = good.records as u64;
    let end = good.offset.0 as u64;
    match result.answer {
        Ok(()) => {
            *out = [0, series, orphans, skipped, records, end];
            0
        }
        Err(LogError::Unread(why)) => {
            let at = wal_types::place(why);
            *out = [at.0 as u64, series, orphans, skipped, records, end];
            wal_types::number(why)
        }
        Err(LogError::Stopped { why, start }) => {
            *out = [start.0 as u64, series, orphans, skipped, records, end];
            wal_types::number(why)
        }
    }
}

// A replay by the number of a version (FORMAT 1.4).
fn replay_as(
    mode: Mode,
    version: u32,
    segment: &[u8],
    buffer: &mut [u8],
    table: &mut [u64; 1280],
) -> GoodReplayed
    ensures { (result ≡ good_replayed (replayer_for mode (version_of version) segment.now buffer.old
        table.old))
        × (table.new ≡ (replayer_for mode (version_of version) segment.now buffer.old
        table.old).table)
        × (buffer.new ≡ (replayer_for mode (version_of version) segment.now buffer.old
        table.old).buffer) }
{
    let Some(version) = version_of(version) else {
        return GoodReplayed {
            result: Replayed {
                answer: Err(LogError::Unread(Refusal::BadName)),
                series: 0,
                orphans: 0,
                skipped: 0,
            },
            good: Good {
                records: 0,
                offset: Offset(0),
            },
        };
    };
    match mode {
        Mode::Default => log_replay::replay(version, segment, buffer, table),
        Mode::Strict => log_replay::replay_strict(version, segment, buffer, table),
    }
}

// Replays the log in a segment into the table; records of unknown types are skipped and counted
// (FORMAT 18).
#[unsafe(no_mangle)]
pub extern "C" fn depot_wal_replay(
    version: u32,
    segment: &[u8],
    buffer: &mut [u8],
    table: &mut [u64; 1280],
    out: &mut [u64; 6],
) -> u32
    ensures { (result ≡ answer_number (replayer_for Default (version_of version) segment.now buffer.old
        table.old).result.answer)
        × (out.new ≡ replay_out (good_replayed (replayer_for Default (version_of version) segment.now buffer.old
        table.old)))
        × (table.new ≡ (replayer_for Default (version_of version) segment.now buffer.old
        table.old).table)
        × (buffer.new ≡ (replayer_for Default (version_of version) segment.now buffer.old
        table.old).buffer) }
{
    let replayed = replay_as(Mode::Default, version, segment, buffer, table);
    replay_result(replayed, out)
}

// The same, but a record of an unknown type stops it.
#[unsafe(no_mangle)]
pub extern "C" fn depot_wal_replay_strict(
    version: u32,
    segment: &[u8],
    buffer: &mut [u8],
    table: &mut [u64; 1280],
    out: &mut [u64; 6],
) -> u32
    ensures { (result ≡ answer_number (replayer_for Strict (version_of version) segment.now buffer.old
        table.old).result.answer)
        × (out.new ≡ replay_out (good_replayed (replayer_for Strict (version_of version) segment.now buffer.old
        table.old)))
        × (table.new ≡ (replayer_for Strict (version_of version) segment.now buffer.old
        table.old).table)
        × (buffer.new ≡ (replayer_for Strict (version_of version) segment.now buffer.old
        table.old).buffer) }
{
    let replayed = replay_as(Mode::Strict, version, segment, buffer, table);
    replay_result(replayed, out)
}
