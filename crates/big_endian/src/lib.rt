// Fixed fields of eight and of four bytes, big-endian (FORMAT 8.1, 19.1).
//
// No public function has a `requires`. A place is an index into the slice. A put that does not fit
// changes no byte and returns the place given; otherwise it returns the place after its last byte.
#![tactic(auto)]

ghost use Rattle.std.specs.Prelude.{◌≡◌, ◌+◌, ◌≤◌, ◌<◌, ◌^◌, length, take, drop, MatchOption};
ghost use Rattle.byte_copy.specs.Put.{put_at, put_end};
ghost use Rattle.big_endian.specs.Fixed.{be4, be8, read_be8, whole_be4};

// Encodes x as eight bytes at a place of buf.
pub fn put_be8(buf: &mut [u8], at: usize, x: u64) -> usize
    ensures value { result ≡ put_end buf.old at (be8 x) }
    ensures buf_after { buf.new ≡ put_at buf.old at (be8 x) }
{
    put(buf, at, x.to_be_bytes())
}

// Encodes the four lowest bytes of x at a place of buf.
pub fn put_be4(buf: &mut [u8], at: usize, x: u64) -> usize
    ensures value { result ≡ put_end buf.old at (be4 x) }
    ensures buf_after { buf.new ≡ put_at buf.old at (be4 x) }
{
    let low = (x % 0x1_0000_0000) as u32;
    put(buf, at, low.to_be_bytes())
}

// Stores bytes at a place of buf.
fn put<const N: usize>(buf: &mut [u8], at: usize, bytes: [u8; N]) -> usize
    ensures value { result ≡ put_end buf.old at bytes.entry }
    ensures buf_after { buf.new ≡ put_at buf.old at bytes.entry }
{
    if buf.len() < at || buf.len() - at < N {
        return at;
    }
    let end = at + N;
    buf[at..end].copy_from_slice(&bytes);
    end
}

// Decodes the eight bytes at a place of buf; 0 where there are fewer.
pub fn get_be8(buf: &[u8], at: usize) -> u64
    ensures { result ≡ read_be8 (drop at buf.now) }
{
    match bytes_at(buf, at) {
        Some(bytes) => u64::from_be_bytes(*bytes),
        None => 0,
    }
}

// Decodes the four bytes at a place of buf; 0 where there are fewer.
pub fn get_be4(buf: &[u8], at: usize) -> u64
    ensures value { result ≡ whole_be4 (drop at buf.now) }
    ensures upper_bound { result < 2 ^ 32 }
{
    match bytes_at(buf, at) {
        Some(bytes) => u64::from(u32::from_be_bytes(*bytes)),
        None => 0,
    }
}

// The N bytes at a place of buf, where they are. The two tests are one branch; `get(at..)?` makes
// two flags of them, which took a row with short deltas a sixth longer.
fn bytes_at<const N: usize>(buf: &[u8], at: usize) -> Option<&[u8; N]>
    ensures { MatchOption result (length buf.now < at + N)
        (λ y. (at + N ≤ length buf.now) × (y.now ≡ take N (drop at buf.now))) }
{
    if buf.len() < at || buf.len() - at < N {
        return None;
    }
    buf[at..].first_chunk()
}
