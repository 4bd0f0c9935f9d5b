// Uvarints (FORMAT 8.2): the length of one, encoded into a slice, and decoded from one.
//
// No public function has a `requires`. A place is an index into the slice. A put that does not fit
// changes no byte and returns the place given; otherwise it returns the place after its last byte.
#![tactic(auto)]

ghost use Rattle.std.specs.Prelude.{◌≡◌, ◌+◌, ◌≤◌, length, drop};
ghost use Rattle.std.proofs.lemmas.List.Edits.{sets};
ghost use Rattle.byte_copy.specs.Put.{put_at, put_end};
ghost use Rattle.uvarint.specs.Uvarint.{uvarint, read_uvarint};

// Why a varint cannot be decoded. The place of an error is the one given, the field's first byte.
#[derive(Clone, Copy)]
pub enum VarintError {
    // The bytes end inside the number, or before it.
    Short,
    // The tenth byte is above 1.
    BadVarint,
}

// How many bytes the uvarint of n takes: seven bits each, and one for 0, which has no bit. The bits
// are 64 less the leading zeros; 9/64 of them, rounded down, and one more are as many bytes as
// sevenths rounded up, for up to 64 bits, and take no division. Most numbers have one byte: these
// are told by a comparison.
pub fn uvarint_len(n: u64) -> usize
    ensures value { result ≡ length (uvarint n) }
    ensures lower_bound { (1 ≤ result) × (result ≤ 10) }
{
    if n < 128 {
        return 1;
    }
    let bits = 64 - u64::leading_zeros(n);
    let groups = (bits * 9 + 64) / 64;
    groups as usize
}

// Encodes n at a place of buf. The result is a place in each case, as the definition `put_end` of
// the clause `value` has it, and no Option.
pub fn put_uvarint(buf: &mut [u8], at: usize, n: u64) -> usize
    ensures value { result ≡ put_end buf.old at (uvarint n) }
    ensures buf_after { buf.new ≡ put_at buf.old at (uvarint n) }
{
    let len = uvarint_len(n);
    if buf.len() < at || buf.len() - at < len {
        return at;
    }
    write_groups(buf, at, n)
}

// Writes the groups of n at a place that has room for them, and returns the place after them.
fn write_groups(buf: &mut [u8], at: usize, n: u64) -> usize
    requires { at + length (uvarint n) ≤ length buf.old }
    ensures value { result ≡ at + length (uvarint n) }
    ensures buf_after { buf.new ≡ sets buf.old at (uvarint n) }
{
    let mut rest = n;
    let mut i = at;
    while 128 <= rest {
        buf[i] = (rest % 128 + 128) as u8;
        rest /= 128;
        i += 1;
    }
    buf[i] = rest as u8;
    i + 1
}

// Decodes the uvarint at a place of buf: the number, and how many bytes it takes. A place past the
// end has no byte: Short.
pub fn get_uvarint(buf: &[u8], at: usize) -> Result<(u64, usize), VarintError>
    ensures { result ≡ read_uvarint (drop at buf.now) }
{
    if buf.len() <= at {
        return Err(VarintError::Short);
    }
    // Most numbers have one byte, so that one is tested before the loop is set up.
    let first = buf[at] as u64;
    if first < 128 {
        return Ok((first, 1));
    }
    read_groups(buf, at)
}

// Decodes group by group: the first i bytes are `value`, and the next group counts `scale` times.
fn read_groups(buf: &[u8], at: usize) -> Result<(u64, usize), VarintError>
    requires { at ≤ length buf.now }
    ensures { result ≡ read_uvarint (drop at buf.now) }
{
    let here = buf.len() - at;
    let mut value: u64 = 0;
    let mut scale: u64 = 1;
    for i in 0..9 {
        if here <= i {
            return Err(VarintError::Short);
        }
        let b = buf[at + i] as u64;
        let group = b % 128 * scale;
        let sum = value + group;
        if b < 128 {
            return Ok((sum, i + 1));
        }
        value = sum;
        scale *= 128;
    }
    if here <= 9 {
        return Err(VarintError::Short);
    }
    let tenth = buf[at + 9] as u64;
    if 1 < tenth {
        return Err(VarintError::BadVarint);
    }
    Ok((value + tenth * scale, 10))
}
