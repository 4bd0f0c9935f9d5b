// What decides a start or an addition, and the deltas of a row: for the entries here, and for those
// of other crates.
ghost use Rattle.std.specs.Prelude.{◌≡◌, is_none, unwrap_or};
ghost use Rattle.wal_types.specs.Deltas.{to_bits};
ghost use Rattle.body_format.specs.Building.{bad_state};
ghost use Rattle.body_format.specs.Entries.{body_type_of, rows_known};
ghost use Rattle.body_builder.specs.Sizes.{is_known, decided, gate_for, deltas_in, zigzags_of};

use body_format::{EXEMPLARS, FLOAT_HISTOGRAMS, HISTOGRAMS, METADATA, SAMPLES, SERIES, TOMBSTONES};
use delta::zigzag_of_delta;
use wal_types::{
    Offset, RECORD_LIMIT, Refusal, SeriesId, Timestamp, id_delta, time_delta, time_of_bits,
};

// A row's deltas to the first id and the first timestamp, or their zigzags.
#[derive(Clone, Copy)]
pub struct Deltas {
    pub id: u64,
    pub time: u64,
}

// The known types, 1 to 4 and 6 to 8.
#[tactic(auto, using(body_format::proofs::Laws::Types::type_unknown), unfolding(body_format::specs::Entries::body_type_of))]
pub(crate) fn is_known(tag: u8) -> bool
    ensures { result ≡ is_known (body_type_of tag) }
{
    matches!(
        tag,
        SERIES | SAMPLES | TOMBSTONES | EXEMPLARS | METADATA | HISTOGRAMS | FLOAT_HISTOGRAMS
    )
}

// The types with rows, 2, 4, 7 and 8.
#[tactic(auto, unfolding(body_format::specs::Entries::body_type_of))]
fn is_row_type(tag: u8) -> bool
    ensures { result ≡ rows_known (body_type_of tag) }
{
    matches!(tag, SAMPLES | EXEMPLARS | HISTOGRAMS | FLOAT_HISTOGRAMS)
}

// BadPlace (FORMAT 10.5): a state (tag, used) that no body in the buffer has. The bytes used are
// tested before the type, which then hardly ever is.
#[tactic(auto, using(std::proofs::lemmas::Bool::Decides::nat_tests), unfolding(body_format::specs::Building::bad_state))]
fn state_is_bad(buffer: &[u8], tag: u8, used: usize) -> bool
    ensures { result ≡ bad_state buffer.now tag used }
{
    if used == 0 || buffer.len() < used || buffer[0] != tag {
        return true;
    }
    if used < 2 || 16 < used {
        return false;
    }
    is_row_type(tag)
}

// Decides by numbers alone, in the order of FORMAT 10.5: the state (tag, used), the tag of the
// entry's type, and its size, which one with a bad list has not.
#[tactic(auto, using(std::proofs::lemmas::Bool::Decides::nat_tests, crate::proofs::Adding::state_within), unfolding(crate::specs::Sizes::decided))]
pub fn admit(
    buffer: &[u8],
    tag: u8,
    used: usize,
    want: u8,
    size: Option<usize>,
) -> Result<(), Refusal>
    ensures { result ≡ gate_for
        (decided buffer.now tag used want (is_none size) (unwrap_or size 0)) }
{
    if state_is_bad(buffer, tag, used) {
        return Err(Refusal::BadPlace);
    }
    if tag != want {
        return Err(Refusal::WrongKind);
    }
    let size = size.ok_or(Refusal::BadList)?;
    if RECORD_LIMIT < used || RECORD_LIMIT - used < size {
        return Err(Refusal::TooLong(Offset(used)));
    }
    if buffer.len() - used < size {
        return Err(Refusal::NoRoom(Offset(used)));
    }
    Ok(())
}

// The deltas of a row to the first id and timestamp, bytes 1 to 16 of the buffer (FORMAT 10.4);
// those of the first row, after one byte used, are 0.
pub fn deltas_of(buffer: &[u8], used: usize, id: SeriesId, time: Timestamp) -> Deltas
    ensures { result ≡ deltas_in buffer.now used id.0 (to_bits time.0) }
{
    if used == 1 {
        return Deltas { id: 0, time: 0 };
    }
    let first_id = SeriesId(big_endian::get_be8(buffer, 1));
    let first_time = time_of_bits(big_endian::get_be8(buffer, 9));
    Deltas {
        id: id_delta(id, first_id),
        time: time_delta(time, first_time),
    }
}

// The zigzags of a row's deltas: worked out once, then measured and written. Not a part of
// `deltas_of`: with it that would be a call of its own.
pub fn zigzags(deltas: Deltas) -> Deltas
    ensures { result ≡ zigzags_of deltas }
{
    Deltas {
        id: zigzag_of_delta(deltas.id),
        time: zigzag_of_delta(deltas.time),
    }
}
