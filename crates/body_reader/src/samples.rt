// Samples, which nearly every body of a log holds: checked with no other type in view, in a loop in
// which a row of ten bytes is walked over without a call.
ghost use Rattle.std.specs.Prelude.{◌≡◌};
ghost use Rattle.body_format.specs.Entries.{samples, known};
ghost use Rattle.body_format.specs.Reading.{check_known};

use crate::places::{Walked, count_entries};
use body_rows::{rows_begin, sample_end};
use wal_types::Refusal;

// The type of samples, known before.
#[derive(Clone, Copy)]
struct Samples;

impl Walked for Samples {
    ghost kind = { λ _. samples };

    fn entry_end(self, body: &[u8], at: usize) -> Result<usize, Refusal> {
        sample_end(body, at)
    }
}

// The number of rows of a samples body, or the refusal; the tag is not read.
pub fn check_samples(body: &[u8]) -> Result<usize, Refusal>
    ensures { result ≡ check_known (known samples) body.now }
{
    let first = rows_begin(body)?;
    count_entries(body, Samples, first)
}
