// The answers of the calls as numbers, for C: each function stores an answer's values in `out`, and
// returns what the call returns.
#![tactic(auto)]

pub mod histograms;

ghost use Rattle.std.specs.Prelude.{◌≡◌};
ghost use Rattle.body_format.specs.Results.EntryAnswer.{Found as «EntryFound»};
ghost use Rattle.depot_wal_results.specs.Segments.{read_code, read_out, good_of, write_code, write_out};
ghost use Rattle.depot_wal_results.specs.Bodies.{added_code, added_out, check_code, check_out, entry_code, entry_out, string_code, string_out};

use body_builder::Body;
use body_format::EntryView;
use segment_format::{Good, Record};
use wal_types::{Offset, Refusal};

// A read's answer.
pub fn read_result(answer: Result<Option<Record>, Refusal>, out: &mut [u64; 3]) -> u32
    ensures { (result ≡ read_code answer) × (out.new ≡ read_out answer) }
{
    match answer {
        Ok(Some(record)) => {
            *out = [
                record.start.0 as u64,
                record.length as u64,
                record.next.0 as u64,
            ];
            0
        }
        Ok(None) => {
            *out = [0; 3];
            200
        }
        Err(why) => {
            let at = wal_types::place(why);
            *out = [at.0 as u64, 0, 0];
            wal_types::number(why)
        }
    }
}

// The pair that a read is given (FORMAT 6.14).
pub fn good_of(good: &[u64; 2]) -> Good
    ensures { result ≡ good_of good.now }
{
    Good {
        records: good[0] as usize,
        offset: Offset(good[1] as usize),
    }
}

// A write's answer; `place` is the one that the write was given.
pub fn write_result(answer: Result<Offset, Refusal>, place: usize, out: &mut [u64; 2]) -> u32
    ensures { (result ≡ write_code answer) × (out.new ≡ write_out place answer) }
{
    match answer {
        Ok(next) => {
            *out = [next.0 as u64, 0];
            0
        }
        Err(why) => {
            let at = wal_types::place(why);
            *out = [place as u64, at.0 as u64];
            wal_types::number(why)
        }
    }
}

// What starting a body or adding an entry answered; `given` is the number of bytes used that the
// call was given. The numbers are those of a write whose next place is where the body now ends.
pub fn build_result(answer: Result<Body, Refusal>, given: usize, out: &mut [u64; 2]) -> u32
    ensures { (result ≡ added_code answer) × (out.new ≡ added_out given answer) }
{
    write_result(answer.map(|body| body.used), given, out)
}

// What checking a body answered.
pub fn check_result(answer: Result<usize, Refusal>, out: &mut [u64; 1]) -> u32
    ensures { (result ≡ check_code answer) × (out.new ≡ check_out answer) }
{
    match answer {
        Ok(n) => {
            *out = [n as u64];
            0
        }
        Err(why) => {
            let at = wal_types::place(why);
            *out = [at.0 as u64];
            wal_types::number(why)
        }
    }
}

// An entry's numbers, in the order of `out`.
fn numbers_of(entry: EntryView) -> [u64; 8]
    ensures { result ≡ entry_out (EntryFound entry) }
{
    [
        entry.tag as u64,
        entry.id.0,
        wal_types::time_bits(entry.time),
        wal_types::time_bits(entry.max),
        entry.bits,
        entry.strings as u64,
        entry.first.0 as u64,
        entry.next.0 as u64,
    ]
}

// What reading an entry answered.
pub fn entry_result(answer: Result<Option<EntryView>, Refusal>, out: &mut [u64; 8]) -> u32
    ensures { (result ≡ entry_code answer) × (out.new ≡ entry_out answer) }
{
    match answer {
        Ok(Some(entry)) => {
            *out = numbers_of(entry);
            0
        }
        Ok(None) => {
            *out = [0; 8];
            200
        }
        Err(why) => {
            let at = wal_types::place(why);
            *out = [at.0 as u64, 0, 0, 0, 0, 0, 0, 0];
            wal_types::number(why)
        }
    }
}

// What reading a string answered.
pub fn string_result(answer: Result<(Offset, usize), Refusal>, out: &mut [u64; 2]) -> u32
    ensures { (result ≡ string_code answer) × (out.new ≡ string_out answer) }
{
    match answer {
        Ok((start, length)) => {
            *out = [start.0 as u64, length as u64];
            0
        }
        Err(why) => {
            let at = wal_types::place(why);
            *out = [at.0 as u64, 0];
            wal_types::number(why)
        }
    }
}
