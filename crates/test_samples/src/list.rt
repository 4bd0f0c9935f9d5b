// A list of four samples that is filled from a body.
ghost use Rattle.std.specs.Prelude.{◌≡◌};
ghost use Rattle.body_samples.specs.Filling.{samples_in, fill_answer, list_after};

use body_samples::Sample;
use wal_types::{Refusal, SeriesId, Timestamp};

// What filling answered, and the list afterwards.
#[derive(Clone, Copy)]
pub(crate) struct Filled {
    pub(crate) answer: Result<usize, Refusal>,
    pub(crate) list: [Sample; 4],
}

// Fills a copy of the list.
pub(crate) fn fill(body: &[u8], list: [Sample; 4]) -> Filled
    ensures { (result.answer ≡ fill_answer (samples_in body.now) 4)
        × (result.list ≡ list_after (samples_in body.now) list) }
{
    let mut list = list;
    let answer = body_samples::fill(body, &mut list);
    Filled { answer, list }
}

// The list before it is filled.
pub(crate) fn nines() -> [Sample; 4] {
    let nine = Sample {
        id: SeriesId(9),
        time: Timestamp(9),
        bits: 9,
    };
    [nine; 4]
}
