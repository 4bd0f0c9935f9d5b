// Building a record body in a caller-owned buffer, entry by entry. The answers, and every byte of
// the buffer afterwards, are those of body_format's definitions (FORMAT 10).
#![tactic(auto)]

pub mod admission;
mod builder;
pub mod rows;
mod strings;

ghost use Rattle.std.specs.Prelude.{◌≡◌};
ghost use Rattle.body_format.specs.Calls.{starter, builder, add_series, add_sample, add_tombstone, add_exemplar, add_metadata};
ghost use Rattle.body_builder.specs.Answers.{added_of};

use admission::{admit, deltas_of, is_known, zigzags};
use body_format::{EXEMPLARS, METADATA, SAMPLES, SERIES, TOMBSTONES};
use builder::{put_metadata, put_row, put_series, put_tombstone, row_size, tombstone_size};
use strings::{entry_size, put_list};
use wal_types::{Offset, Refusal, SeriesId, Timestamp};

// The state of a body that is being built (FORMAT 10.1): its tag, and the bytes of the buffer used.
#[derive(Clone, Copy)]
pub struct Body {
    pub tag: u8,
    pub used: Offset,
}

impl Body {
    // Starts a body of type `tag`: that byte, and no entry yet (FORMAT 10.2).
    pub fn start(buffer: &mut [u8], tag: u8) -> Result<Body, Refusal>
        ensures answer { result ≡ added_of tag (starter buffer.old tag).outcome }
        ensures bytes { buffer.new ≡ (starter buffer.old tag).buffer }
    {
        if !is_known(tag) {
            return Err(Refusal::UnknownType);
        }
        if buffer.is_empty() {
            return Err(Refusal::NoRoom(Offset(0)));
        }
        buffer[0] = tag;
        Ok(Body {
            tag,
            used: Offset(1),
        })
    }

    // One series more: its id, and its labels as pairs of strings.
    pub fn add_series(
        mut self,
        buffer: &mut [u8],
        id: SeriesId,
        strings: &[u8],
        lengths: &[u64],
    ) -> Result<Body, Refusal>
        ensures answer { result ≡ added_of self.tag
            (builder buffer.old self.tag self.used.0
            (add_series id.0 strings.now lengths.now)).outcome }
        ensures bytes { buffer.new ≡ (builder buffer.old self.tag self.used.0
            (add_series id.0 strings.now lengths.now)).buffer }
    {
        let at = self.used.0;
        let size = entry_size(8, strings, lengths);
        admit(buffer, self.tag, at, SERIES, size)?;
        let next = put_series(buffer, at, id, strings, lengths);
        self.used = Offset(next);
        Ok(self)
    }

    // One sample more.
    pub fn add_sample(
        mut self,
        buffer: &mut [u8],
        id: SeriesId,
        time: Timestamp,
        bits: u64,
    ) -> Result<Body, Refusal>
        ensures answer { result ≡ added_of self.tag
            (builder buffer.old self.tag self.used.0 (add_sample id.0 time.0 bits)).outcome }
        ensures bytes { buffer.new ≡ (builder buffer.old self.tag self.used.0
            (add_sample id.0 time.0 bits)).buffer }
    {
        let at = self.used.0;
        let row = zigzags(deltas_of(buffer, at, id, time));
        let size = row_size(at, row);
        admit(buffer, self.tag, at, SAMPLES, Some(size))?;
        let next = put_row(buffer, at, id, time, row, bits);
        self.used = Offset(next);
        Ok(self)
    }

    // One tombstone more.
    pub fn add_tombstone(
        mut self,
        buffer: &mut [u8],
        id: SeriesId,
        min: Timestamp,
        max: Timestamp,
    ) -> Result<Body, Refusal>
        ensures answer { result ≡ added_of self.tag
            (builder buffer.old self.tag self.used.0
            (add_tombstone id.0 min.0 max.0)).outcome }
        ensures bytes { buffer.new ≡ (builder buffer.old self.tag self.used.0
            (add_tombstone id.0 min.0 max.0)).buffer }
    {
        let at = self.used.0;
        let size = tombstone_size(min, max);
        admit(buffer, self.tag, at, TOMBSTONES, Some(size))?;
        let next = put_tombstone(buffer, at, id, min, max);
        self.used = Offset(next);
        Ok(self)
    }

    // One exemplar more: a row, and its labels.
    pub fn add_exemplar(
        mut self,
        buffer: &mut [u8],
        id: SeriesId,
        time: Timestamp,
        bits: u64,
        strings: &[u8],
        lengths: &[u64],
    ) -> Result<Body, Refusal>
        ensures answer { result ≡ added_of self.tag
            (builder buffer.old self.tag self.used.0
            (add_exemplar id.0 time.0 bits strings.now lengths.now)).outcome }
        ensures bytes { buffer.new ≡ (builder buffer.old self.tag self.used.0
            (add_exemplar id.0 time.0 bits strings.now lengths.now)).buffer }
    {
        let at = self.used.0;
        let row = zigzags(deltas_of(buffer, at, id, time));
        let size = entry_size(row_size(at, row), strings, lengths);
        admit(buffer, self.tag, at, EXEMPLARS, size)?;
        let labels = put_row(buffer, at, id, time, row, bits);
        let next = put_list(buffer, labels, strings, lengths);
        self.used = Offset(next);
        Ok(self)
    }

    // One metadata entry more: its id, its metric type, and its name and text strings.
    pub fn add_metadata(
        mut self,
        buffer: &mut [u8],
        id: SeriesId,
        metric_type: u8,
        strings: &[u8],
        lengths: &[u64],
    ) -> Result<Body, Refusal>
        ensures answer { result ≡ added_of self.tag
            (builder buffer.old self.tag self.used.0
            (add_metadata id.0 metric_type strings.now lengths.now)).outcome }
        ensures bytes { buffer.new ≡ (builder buffer.old self.tag self.used.0
            (add_metadata id.0 metric_type strings.now lengths.now)).buffer }
    {
        let at = self.used.0;
        let head = uvarint::uvarint_len(id.0) + 1;
        let size = entry_size(head, strings, lengths);
        admit(buffer, self.tag, at, METADATA, size)?;
        let next = put_metadata(buffer, at, id, metric_type, strings, lengths);
        self.used = Offset(next);
        Ok(self)
    }
}
