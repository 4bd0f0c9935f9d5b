// Where the fields end: each is walked over without its value. A fault met on the way to a field is
// passed on, so that a caller walks over the fields of an entry one after the other.
ghost use Rattle.std.specs.Prelude.{◌≡◌, ℕ};
ghost use Rattle.body_format.specs.Fields.{byte_at, fixed_at, uvarint_at, varint_at, string_list_at};
ghost use Rattle.body_fields.specs.Ends.{end_of, onward};

use crate::{byte_at, fixed_at, string_list_at, uvarint_at, varint_at};
use wal_types::Refusal;

// The place after a single byte.
pub fn byte_end(body: &[u8], from: Result<usize, Refusal>) -> Result<usize, Refusal>
    ensures { result ≡ onward from (λ (at : ℕ). end_of (byte_at body.now at)) }
{
    let (_, next) = byte_at(body, from?)?;
    Ok(next)
}

// The place after 8 bytes.
pub fn fixed_end(body: &[u8], from: Result<usize, Refusal>) -> Result<usize, Refusal>
    ensures { result ≡ onward from (λ (at : ℕ). end_of (fixed_at body.now at)) }
{
    let (_, next) = fixed_at(body, from?)?;
    Ok(next)
}

// The place after a uvarint.
pub fn uvarint_end(body: &[u8], from: Result<usize, Refusal>) -> Result<usize, Refusal>
    ensures { result ≡ onward from (λ (at : ℕ). end_of (uvarint_at body.now at)) }
{
    let (_, next) = uvarint_at(body, from?)?;
    Ok(next)
}

// The place after a signed varint.
pub fn varint_end(body: &[u8], from: Result<usize, Refusal>) -> Result<usize, Refusal>
    ensures { result ≡ onward from (λ (at : ℕ). end_of (varint_at body.now at)) }
{
    let (_, next) = varint_at(body, from?)?;
    Ok(next)
}

// The place after a count n and its 2n strings.
pub fn list_end(body: &[u8], from: Result<usize, Refusal>) -> Result<usize, Refusal>
    ensures { result ≡ onward from (λ (at : ℕ). end_of (string_list_at body.now at)) }
{
    let (_, _, next) = string_list_at(body, from?)?;
    Ok(next)
}
