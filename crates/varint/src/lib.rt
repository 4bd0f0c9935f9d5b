// Signed varints (FORMAT 8.3): the zigzag of an i64 and back, and the uvarint of the zigzag. Places
// and puts are as in `uvarint`.
#![tactic(auto)]

ghost use Rattle.std.specs.Prelude.{◌≡◌, ◌≤◌, length, drop};
ghost use Rattle.byte_copy.specs.Put.{put_at, put_end};
ghost use Rattle.varint.specs.Varint.{zigzag, unzigzag, varint, read_varint};

use uvarint::{VarintError, get_uvarint, put_uvarint, uvarint_len};

// 2x for x >= 0, and -2x - 1 for x < 0. Doubling the bits drops the sign's; by this form the
// compiler needs no branch.
pub fn zigzag_of(x: i64) -> u64
    ensures { result ≡ zigzag x }
{
    let bits = x.cast_unsigned();
    let twice = bits.wrapping_add(bits);
    if 0 <= x { twice } else { u64::MAX - twice }
}

// The x of which u is the zigzag.
pub fn zigzag_back(u: u64) -> i64
    ensures { result ≡ unzigzag u }
{
    let half = (u / 2) as i64;
    if u % 2 == 0 { half } else { -1 - half }
}

// How many bytes the varint of x takes.
pub fn varint_len(x: i64) -> usize
    ensures value { result ≡ length (varint x) }
    ensures lower_bound { (1 ≤ result) × (result ≤ 10) }
{
    uvarint_len(zigzag_of(x))
}

// Encodes x at a place of buf.
pub fn put_varint(buf: &mut [u8], at: usize, x: i64) -> usize
    ensures value { result ≡ put_end buf.old at (varint x) }
    ensures buf_after { buf.new ≡ put_at buf.old at (varint x) }
{
    put_uvarint(buf, at, zigzag_of(x))
}

// Decodes the varint at a place of buf: the number, and how many bytes it takes.
pub fn get_varint(buf: &[u8], at: usize) -> Result<(i64, usize), VarintError>
    ensures { result ≡ read_varint (drop at buf.now) }
{
    let (n, len) = get_uvarint(buf, at)?;
    Ok((zigzag_back(n), len))
}
