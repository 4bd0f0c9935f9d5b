// Adds the segment in a file, page by page. Whether the file can be read to its end, and is no
// longer than a segment, is known only then: where it is not, the report is put back.
ghost use Rattle.std.specs.Prelude.{◌≡◌};
ghost use Rattle.wal_types.specs.Refusals.{number_of};
ghost use Rattle.report_format.specs.Paging.{beginner};
ghost use Rattle.reporting.specs.Taken.{numbered};
ghost use Rattle.reporting.specs.Choices.{unadded, judged, Settled};

use full_read::read_full;
use log_report::pages::{begin, take_page};
use report_format::Reported;
use std::io::Read;
use std::rt::Files;
use std::{fs, str};
use wal_types::{PAGE, Refusal, SEGMENT_LIMIT, Version};

// Adds nothing: the segment is misnamed, cannot be opened or read (BadName), or is too long
// (BadBuffer; FORMAT 22.10). It is begun, and so counted; its answer is the number, at 0.
pub(crate) fn refuse(why: Refusal, report: &mut [u64; 1284]) -> Reported
    ensures { (result ≡ unadded (number_of why) report.old)
        × (report.new ≡ (beginner report.old).report) }
{
    let state = begin(report);
    if state.over {
        return Reported {
            number: state.number,
            place: state.place,
        };
    }
    Reported {
        number: wal_types::number(why),
        place: 0,
    }
}

// What a file is that has so many bytes, and whose reading has failed or not: a segment, whose
// answer `number` and `place` are; or one that adds nothing, with the refusal that says so.
fn judge(total: usize, failed: bool, number: u32, place: u64) -> Result<Reported, Refusal>
    ensures { numbered result ≡ judged total failed number place }
{
    if SEGMENT_LIMIT < total {
        return Err(Refusal::BadBuffer);
    }
    if failed {
        return Err(Refusal::BadName);
    }
    Ok(Reported { number, place })
}

// The answer to a file. One that adds nothing leaves the report as it was before, and is refused.
fn settle(
    taken: Result<Reported, Refusal>,
    before: &[u64; 1284],
    report: &mut [u64; 1284],
) -> Reported
    ensures { Settled (numbered taken) before.now report.old result report.new }
{
    match taken {
        Ok(answer) => answer,
        Err(why) => {
            *report = *before;
            refuse(why, report)
        }
    }
}

// Adds a file's records, page by page, up to a page that is shorter than the others. A page of a
// segment that is over changes nothing, but the file is read on: it may be too long.
fn add_pages<F: Read>(
    table: &[u32; 2048],
    version: Version,
    file: &mut F,
    page: &mut [u8],
    buffer: &mut [u8; 65536],
    report: &mut [u64; 1284],
) -> Result<Reported, Refusal> {
    let mut state = begin(report);
    let mut total: usize = 0;
    while total <= SEGMENT_LIMIT {
        let (got, ended) = read_full(file, page);
        state = take_page(version, table, state, &page[..got], buffer, report);
        if got < PAGE {
            return judge(total + got, ended.is_err(), state.number, state.place);
        }
        total += PAGE;
    }
    Err(Refusal::BadBuffer)
}

// Opens the file at a path, if that can be opened. Paths are text here, so one that is none cannot.
fn open<R: Files>(rt: &R, path: &[u8]) -> Option<R::File> {
    let text = str::from_utf8(path).ok()?;
    fs::open(rt, text).ok()
}

// Adds the segment in a file.
pub(crate) fn add_file<R: Files>(
    rt: &R,
    table: &[u32; 2048],
    version: Version,
    path: &[u8],
    page: &mut [u8; 32768],
    buffer: &mut [u8; 65536],
    report: &mut [u64; 1284],
) -> Reported {
    let Some(mut file) = open(rt, path) else {
        return refuse(Refusal::BadName, report);
    };
    let before = *report;
    let taken = add_pages(table, version, &mut file, page, buffer, report);
    settle(taken, &before, report)
}
