// The report program (FORMAT 22.10): the segments that its arguments name, and the report over them
// on standard output. No contract says what is read and written; the comparison with the second
// program tests it. What is added, and every answer, are those of `log_report`.
#![tactic(auto)]

mod files;
mod lines;
mod names;

ghost use Rattle.std.specs.Prelude.{◌≡◌, IfOk};
ghost use Rattle.reporting.specs.Choices.{going_on, all_taken};

use files::{add_file, refuse};
use names::version_in;
use report_format::{NIGHT_LIMIT, Reported};
use std::env::FillError;
use std::io;
use std::rt::{Env, Files};
use wal_types::Refusal;

// Whether the report has not ended.
fn goes_on(report: &[u64; 1284]) -> bool
    ensures { result ≡ going_on report.now }
{
    report[2] == 0
}

// Whether the report has as many segments as one may have.
fn has_all(report: &[u64; 1284]) -> bool
    ensures { result ≡ all_taken report.now }
{
    NIGHT_LIMIT <= report[1]
}

// Reports on the segments that the arguments name, in order; after an ended report nothing more is
// read. The checksum's table is made once, for all of them.
pub fn report<R: Env + Files + Print>(rt: &R) -> io::Result<()>
    ensures { IfOk result (λ x. x ≡ tt) }
{
    let mut table = [0u32; 2048];
    crc32c_table::fill_table(&mut table);
    let mut report = [0u64; 1284];
    let mut page = [0u8; 32768];
    let mut buffer = [0u8; 65536];
    let mut out = io::writer(rt);
    for position in 1..usize::MAX {
        if !goes_on(&report) {
            break;
        }
        let Some(answer) = add_argument(rt, &table, position, &mut page, &mut buffer, &mut report)
        else {
            break;
        };
        lines::segment(&mut out, position, answer)?;
    }
    lines::all_series(&mut out, &report)
}

// Adds the segment that an argument names, if there is such an argument. The 1,025th is not looked
// at. An argument that is too long to be opened is misnamed.
fn add_argument<R: Env + Files>(
    rt: &R,
    table: &[u32; 2048],
    position: usize,
    page: &mut [u8; 32768],
    buffer: &mut [u8; 65536],
    report: &mut [u64; 1284],
) -> Option<Reported> {
    let mut path = [0u8; 4096];
    let argument = rt.arg(position, &mut path);
    if let Err(FillError::NotPresent) = argument {
        return None;
    }
    if has_all(report) {
        return Some(refuse(Refusal::BadName, report));
    }
    let Ok(length) = argument else {
        return Some(refuse(Refusal::BadName, report));
    };
    let version = version_in(&path[..length]);
    match version {
        Some(known) => Some(add_file(rt, table, known, &path[..length], page, buffer, report)),
        None => Some(refuse(Refusal::BadName, report)),
    }
}
