// Fills a caller's list of samples from a samples body (FORMAT 11.5). The whole body is checked
// first; then its rows are decoded one after the other, each straight into its place in the list.
#![tactic(auto)]

ghost use Rattle.std.specs.Prelude.{◌≡◌, ◌≤◌, length};
ghost use Rattle.body_format.specs.Reading.{check_fields};
ghost use Rattle.body_samples.specs.Filling.{sample_seen, samples_in, fill_answer, fill_number, fill_value, list_after};
ghost use Rattle.body_samples.specs.Rows.{no_row, row_at, fill_with};

use body_format::EntryView;
use body_reader::samples::check_samples;
use body_reader::tags::{BodyLayout, body_type};
use wal_types::{Offset, Refusal, SeriesId, Timestamp};

// An id, a time and the value's 64 bits.
#[derive(Clone, Copy)]
pub struct Sample {
    pub id: SeriesId,
    pub time: Timestamp,
    pub bits: u64,
}

impl From<EntryView> for Sample {
    ghost from_gives = { λ view result. result ≡ sample_seen view };

    fn from(view: EntryView) -> Sample {
        Sample {
            id: view.id,
            time: view.time,
            bits: view.bits,
        }
    }
}

// A row's sample, and the place after the row.
#[derive(Clone, Copy)]
struct Row {
    sample: Sample,
    next: usize,
}

// Fills the front of the list with the samples of a body, in order; the rest is unchanged. A
// refusal changes nothing.
pub fn fill(body: &[u8], list: &mut [Sample]) -> Result<usize, Refusal>
    ensures { (result ≡ fill_answer (samples_in body.now) (length list.old))
        × (list.new ≡ list_after (samples_in body.now) list.old) }
{
    let count = plan_fill(body, list.len())?;
    fill_rows(body, &mut list[..count]);
    Ok(count)
}

// The status number of an answer (FORMAT 12.1); 0 where the list is filled.
pub fn fill_number(answer: Result<usize, Refusal>) -> u32
    ensures { result ≡ fill_number answer }
{
    match answer {
        Ok(_) => 0,
        Err(why) => wal_types::number(why),
    }
}

// The value of an answer: the number of samples filled, or the refusal's place.
pub fn fill_value(answer: Result<usize, Refusal>) -> usize
    ensures { result ≡ fill_value answer }
{
    match answer {
        Ok(count) => count,
        Err(why) => wal_types::place(why).0,
    }
}

// The number of samples that a body holds, or the refusal.
#[tactic(auto, using(crate::proofs::Counting::no_samples))]
fn count_samples(body: &[u8]) -> Result<usize, Refusal>
    ensures { result ≡ check_fields (samples_in body.now) }
{
    let layout = body_type(body)?;
    let BodyLayout::Rows { labelled: false } = layout else {
        return Err(Refusal::WrongKind);
    };
    check_samples(body)
}

// The number of rows to be filled, for a list of `room` samples; or the refusal.
fn plan_fill(body: &[u8], room: usize) -> Result<usize, Refusal>
    ensures { result ≡ fill_answer (samples_in body.now) room }
{
    let count = count_samples(body)?;
    if room < count {
        return Err(Refusal::ListFull);
    }
    Ok(count)
}

// Reads as many rows as the list has places.
fn fill_rows(body: &[u8], list: &mut [Sample])
    ensures { list.new ≡ fill_with (length list.old) 1 body.now 0 list.old }
{
    let mut place: usize = 1;
    for sample in list.iter_mut() {
        let row = row_at(body, place);
        *sample = row.sample;
        place = row.next;
    }
}

// The row at a place. If there is none, the sample is all zeros and the place stays.
fn row_at(body: &[u8], place: usize) -> Row
    ensures { result ≡ row_at body.now place }
{
    match body_reader::entry_at(body, Offset(place)) {
        Ok(Some(view)) => Row {
            sample: Sample::from(view),
            next: view.next.0,
        },
        Ok(None) | Err(_) => no_row(place),
    }
}

// No row: zeros, and the same place. `fill` never gets here: the whole body was checked before.
fn no_row(place: usize) -> Row
    ensures { result ≡ no_row place }
{
    Row {
        sample: Sample {
            id: SeriesId(0),
            time: Timestamp(0),
            bits: 0,
        },
        next: place,
    }
}
