// The fields of a body (FORMAT 8), each decoded at its place. A fault is at the field's first byte.
// ends.rt walks over them without their values.
#![tactic(auto)]

pub mod ends;

ghost use Rattle.std.specs.Prelude.{◌≡◌, ◌*◌, ◌≤◌, Err, length};
ghost use Rattle.body_format.specs.Fields.{fault, uvarint_of, varint_of, byte_at, fixed_at, uvarint_at, varint_at, string_at, strings_at, string_list_at};
ghost use Rattle.body_fields.specs.Readings.{number_read, signed_read, string_read, string_list_read};
ghost use Rattle.body_fields.specs.Ends.{end_of};
ghost use Rattle.body_fields.specs.Tally.{tally};

use uvarint::VarintError;
use wal_types::{Offset, Refusal};

// ---- numbers: each with the place after it

// Why the varint at a place cannot be decoded, as a refusal of the body.
fn refusal_of(why: VarintError, at: usize) -> Refusal
    ensures unsigned { fault result ≡ uvarint_of at (Err why) }
    ensures signed { fault result ≡ varint_of at (Err why) }
{
    match why {
        VarintError::Short => Refusal::Short(Offset(at)),
        VarintError::BadVarint => Refusal::BadVarint(Offset(at)),
    }
}

// A single byte.
pub fn byte_at(body: &[u8], at: usize) -> Result<(u64, usize), Refusal>
    ensures { result ≡ number_read (byte_at body.now at) }
{
    if body.len() <= at {
        return Err(Refusal::Short(Offset(at)));
    }
    Ok((body[at] as u64, at + 1))
}

// 8 bytes, big-endian.
pub fn fixed_at(body: &[u8], at: usize) -> Result<(u64, usize), Refusal>
    ensures { result ≡ number_read (fixed_at body.now at) }
{
    if body.len() < at {
        return Err(Refusal::Short(Offset(at)));
    }
    if body.len() - at < 8 {
        return Err(Refusal::Short(Offset(at)));
    }
    Ok((big_endian::get_be8(body, at), at + 8))
}

// A uvarint. Most have one byte; that case is tested first, since it saves a call.
pub fn uvarint_at(body: &[u8], at: usize) -> Result<(u64, usize), Refusal>
    ensures { result ≡ number_read (uvarint_at body.now at) }
{
    if at < body.len() {
        let value = body[at] as u64;
        if value < 128 {
            return Ok((value, at + 1));
        }
    }
    long_uvarint_at(body, at)
}

// A uvarint of any length.
fn long_uvarint_at(body: &[u8], at: usize) -> Result<(u64, usize), Refusal>
    ensures { result ≡ number_read (uvarint_at body.now at) }
{
    let (n, len) = uvarint::get_uvarint(body, at).map_err(|why| refusal_of(why, at))?;
    Ok((n, at + len))
}

// A signed varint.
pub fn varint_at(body: &[u8], at: usize) -> Result<(i64, usize), Refusal>
    ensures { result ≡ signed_read (varint_at body.now at) }
{
    let (x, len) = varint::get_varint(body, at).map_err(|why| refusal_of(why, at))?;
    Ok((x, at + len))
}

// ---- strings

// A string with its length is one field (FORMAT 8.4): where its bytes start, their number, and the
// place after them. The length may be near 2^64, so it is compared with the bytes that remain
// before it is added to a place.
pub fn string_field_at(body: &[u8], at: usize) -> Result<(usize, usize, usize), Refusal>
    ensures { result ≡ string_read (string_at body.now at) }
{
    let (value, next) = uvarint_at(body, at)?;
    let left = (body.len() - next) as u64;
    if left < value {
        return Err(Refusal::Short(Offset(at)));
    }
    let length = value as usize;
    Ok((next, length, next + length))
}

// The place after two strings.
fn pair_at(body: &[u8], at: usize) -> Result<usize, Refusal>
    ensures { result ≡ end_of (strings_at 2 body.now at) }
{
    let (_, _, next) = string_field_at(body, at)?;
    let (_, _, next) = string_field_at(body, next)?;
    Ok(next)
}

// So many pairs of strings: their number, where the first begins, and the place after. The strings
// are counted as they are found: twice the number of pairs need not fit 64 bits (FORMAT 9.2).
fn pairs_at(body: &[u8], first: usize, pairs: u64) -> Result<(usize, usize, usize), Refusal>
    requires { first ≤ length body.now }
    ensures { result ≡ tally first 0 (strings_at (2 * pairs) body.now first) }
{
    let mut at = first;
    let mut count: usize = 0;
    for _ in 0..pairs {
        at = pair_at(body, at)?;
        count += 2;
    }
    Ok((count, first, at))
}

// A count n, and then 2n strings: their number, where the first begins, and the place after.
pub fn string_list_at(body: &[u8], at: usize) -> Result<(usize, usize, usize), Refusal>
    ensures { result ≡ string_list_read (string_list_at body.now at) }
{
    let (value, next) = uvarint_at(body, at)?;
    pairs_at(body, next, value)
}
