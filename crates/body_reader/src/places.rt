// Where the entries of a body begin, where each ends, and how many there are.
ghost use Rattle.std.specs.Prelude.{◌≡◌, ◌≤◌, ◌<◌, length};
ghost use Rattle.body_format.specs.Entries.{BodyType, has_rows, first_at, entry_at, entries_from};
ghost use Rattle.body_format.specs.Reading.{check_fields};
ghost use Rattle.body_fields.specs.Ends.{end_of};
ghost use Rattle.body_rows.specs.Rows.{place_read};
ghost use Rattle.body_reader.specs.Layouts.{type_in};

use crate::tags::BodyLayout;
use body_histogram::histogram_end;
use body_plain::plain_end;
use body_rows::{row_entry_end, rows_begin};
use wal_types::Refusal;

// Where the entries of a type begin.
pub(crate) fn entries_begin(body: &[u8], layout: BodyLayout) -> Result<usize, Refusal>
    ensures { result ≡ place_read (first_at (has_rows (type_in layout)) body.now) }
{
    match layout {
        BodyLayout::Plain(_) => Ok(1),
        BodyLayout::Rows { .. } | BodyLayout::Histograms(_) => rows_begin(body),
    }
}

// What tells where the entries of a body end: its type, or the one type that it is known to have.
pub(crate) trait Walked: Copy {
    ghost kind: { Self → BodyType };

    // The place after the entry at a place.
    fn entry_end(self, body: &[u8], at: usize) -> Result<usize, Refusal>
        ensures { result ≡ end_of (entry_at (kind self) body.now at) };
}

impl Walked for BodyLayout {
    ghost kind = { type_in };

    fn entry_end(self, body: &[u8], at: usize) -> Result<usize, Refusal> {
        match self {
            BodyLayout::Rows { labelled } => row_entry_end(body, labelled, at),
            BodyLayout::Plain(plain) => plain_end(body, plain, at),
            BodyLayout::Histograms(kind) => histogram_end(body, kind, at),
        }
    }
}

// How many entries there are from a place to the end of the body.
pub(crate) fn count_entries<W: Walked>(
    body: &[u8],
    layout: W,
    first: usize,
) -> Result<usize, Refusal>
    requires { (0 < first) × (first ≤ length body.now) }
    ensures { result ≡ check_fields
        (entries_from (length body.now) (W.kind layout) body.now first) }
{
    let mut at = first;
    let mut count: usize = 0;
    while at < body.len() {
        at = layout.entry_end(body, at)?;
        count += 1;
    }
    Ok(count)
}
