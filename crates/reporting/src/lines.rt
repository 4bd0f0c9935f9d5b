// The lines of the report (FORMAT 22.10).
ghost use Rattle.std.specs.Prelude.{◌≡◌, ◌<◌, get_or};
ghost use Rattle.report_format.specs.Lines.{fresh, lines};
ghost use Rattle.reporting.specs.Choices.{was_good, all_nan, shown};

use report_format::{Reported, SERIES_LIMIT};
use std::io;
use std::io::Write;

// A series as it is printed: the extremes by their bits.
#[derive(Clone, Copy)]
struct Shown {
    id: u64,
    rows: u64,
    nans: u64,
    smallest: u64,
    largest: u64,
}

fn is_good(answer: Reported) -> bool
    ensures { result ≡ was_good answer }
{
    answer.number == 0
}

// `segment`, its position, number and place, if it was refused or torn.
pub(crate) fn segment<W: Write>(out: &mut W, position: usize, answer: Reported) -> io::Result<()> {
    if is_good(answer) {
        return Ok(());
    }
    print::text(out, b"segment")?;
    print::field(out, position as u64)?;
    print::field(out, u64::from(answer.number))?;
    print::field(out, answer.place)?;
    print::end_line(out)
}

fn all_nan(rows: u64, nans: u64) -> bool
    ensures { result ≡ all_nan rows nans }
{
    rows == nans
}

// The series at a row.
fn shown_at(report: &[u64; 1284], row: usize) -> Shown
    requires { row < 256 }
    ensures { result ≡ shown (get_or (lines report.now) row (fresh 0)) }
{
    let at = row * 5 + 4;
    Shown {
        id: report[at],
        rows: report[at + 1],
        nans: report[at + 2],
        smallest: report[at + 3],
        largest: report[at + 4],
    }
}

// A space, and 64 bits as 16 hexadecimal digits.
fn bits<W: Write>(out: &mut W, n: u64) -> io::Result<()> {
    write!(out, " {n:016x}")
}

// `series`, id, rows, NaN rows, and the extremes or `none`.
fn series<W: Write>(out: &mut W, line: Shown) -> io::Result<()> {
    print::text(out, b"series")?;
    print::field(out, line.id)?;
    print::field(out, line.rows)?;
    print::field(out, line.nans)?;
    if all_nan(line.rows, line.nans) {
        print::text(out, b" none")?;
    } else {
        bits(out, line.smallest)?;
        bits(out, line.largest)?;
    }
    print::end_line(out)
}

// A line for each series, as first met.
pub(crate) fn all_series<W: Write>(out: &mut W, report: &[u64; 1284]) -> io::Result<()> {
    let count = report[0].min(SERIES_LIMIT as u64) as usize;
    for row in 0..count {
        series(out, shown_at(report, row))?;
    }
    Ok(())
}
