// What checking and reading a record body answers, and the tags of bodies. What a body means is in
// specs/; `body_reader` reads one, `body_builder` builds one.
#![tactic(auto)]

use wal_types::{Offset, Refusal, SeriesId, Timestamp};

// The tags (FORMAT 9.1): a body's first byte says its type. `type_byte` of specs/Entries.antt has
// the same numbers. A view's tag is such a number and no enum: the definition `view` and the C
// calls report the byte.
pub const SERIES: u8 = 1;

pub const SAMPLES: u8 = 2;

pub const TOMBSTONES: u8 = 3;

pub const EXEMPLARS: u8 = 4;

pub const METADATA: u8 = 6;

pub const HISTOGRAMS: u8 = 7;

pub const FLOAT_HISTOGRAMS: u8 = 8;

// An entry as it is read at a place of a body (FORMAT 11.3). A number that the type lacks is 0, and
// the strings of an entry without any begin at the place after it.
#[derive(Clone, Copy)]
pub struct EntryView {
    pub tag: u8,
    pub id: SeriesId,
    // The time of a row, the minimum of a tombstone.
    pub time: Timestamp,
    // The maximum of a tombstone.
    pub max: Timestamp,
    // The value of a row, the metric type of a metadata entry, the sum of a histogram.
    pub bits: u64,
    // Its number of strings, where they begin, and the place after the entry.
    pub strings: usize,
    pub first: Offset,
    pub next: Offset,
}

// ---- histograms

// The bucket kind, by which types 7 and 8 differ (FORMAT 9.4): whole numbers, or floats.
#[derive(Clone, Copy)]
pub enum BucketKind {
    Whole,
    Float,
}

// What a list of a histogram is a list of.
#[derive(Clone, Copy)]
pub enum Element {
    Span,
    Bucket(BucketKind),
}

// The numbers of a histogram between its head and its lists. Floats are their 64 bits, which are
// never interpreted; `zeros` and `count` are whole numbers in type 7 and floats in type 8.
#[derive(Clone, Copy)]
pub struct Numbers {
    pub hint: u8,
    pub schema: i32,
    pub threshold: u64,
    pub zeros: u64,
    pub count: u64,
    pub sum: u64,
}

// The number of elements in a list, and where the first is.
#[derive(Clone, Copy)]
pub struct ListView {
    pub count: u64,
    pub first: Offset,
}

// The two sides of a histogram.
#[derive(Clone, Copy)]
pub struct SidesView {
    pub positive: ListView,
    pub negative: ListView,
}

// A histogram as it is read at a place of a body (FORMAT 11.6): its lists by counts and first
// places.
#[derive(Clone, Copy)]
pub struct HistogramView {
    pub tag: u8,
    pub id: SeriesId,
    pub time: Timestamp,
    pub numbers: Numbers,
    pub spans: SidesView,
    pub buckets: SidesView,
    pub next: Offset,
}
