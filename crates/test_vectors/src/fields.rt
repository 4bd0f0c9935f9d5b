// The checksum's vectors, and varints encoded and decoded.
ghost use Rattle.std.specs.Prelude.{◌≤◌};

use std::io;
use std::io::Write;
use uvarint::VarintError;

// RFC 3720, appendix B.4: a SCSI read command, 48 bytes.
const READ_COMMAND: [u8; 48] = [
    0x01, 0xC0, 0, 0, 0, 0, 0, 0, 0, 0, 0, 0, 0, 0, 0, 0, 0x14, 0, 0, 0, 0, 0, 0x04, 0, 0, 0, 0,
    0x14, 0, 0, 0, 0x18, 0x28, 0, 0, 0, 0, 0, 0, 0, 0x02, 0, 0, 0, 0, 0, 0, 0,
];

const UP: [u8; 32] = [
    0, 1, 2, 3, 4, 5, 6, 7, 8, 9, 10, 11, 12, 13, 14, 15, 16, 17, 18, 19, 20, 21, 22, 23, 24, 25,
    26, 27, 28, 29, 30, 31,
];

const DOWN: [u8; 32] = [
    31, 30, 29, 28, 27, 26, 25, 24, 23, 22, 21, 20, 19, 18, 17, 16, 15, 14, 13, 12, 11, 10, 9, 8,
    7, 6, 5, 4, 3, 2, 1, 0,
];

// The empty input, RFC 3720's vectors, and the usual check value.
pub(crate) fn checksums<W: Write>(out: &mut W) -> io::Result<()> {
    checksum(out, b"")?;
    checksum(out, &[0u8; 32])?;
    checksum(out, &[255u8; 32])?;
    checksum(out, &UP)?;
    checksum(out, &DOWN)?;
    checksum(out, &READ_COMMAND)?;
    checksum(out, b"123456789")
}

fn checksum<W: Write>(out: &mut W, data: &[u8]) -> io::Result<()> {
    print::text(out, b"crc32c ")?;
    print::number(out, data.len() as u64)?;
    print::space(out)?;
    checksum_digits(out, data)?;
    print::end_line(out)
}

// The checksum of some bytes, as eight hexadecimal digits.
pub(crate) fn checksum_digits<W: Write>(out: &mut W, data: &[u8]) -> io::Result<()> {
    write!(out, "{:08x}", crc32c::checksum(data))
}

// Twice a number, as long as that is not above the largest wanted.
fn doubled(n: u64, most: u64) -> u64
    requires { (1 ≤ n) × (n ≤ most) }
    ensures { (1 ≤ result) × (result ≤ most) }
{
    if n <= most / 2 { n * 2 } else { n }
}

// 2^k - 1, 2^k and 2^k + 1 for k from 0 to 63, and 2^64 - 1.
pub(crate) fn uvarints<W: Write>(out: &mut W) -> io::Result<()> {
    let mut power: u64 = 1;
    for _ in 0..64u64 {
        uvarint(out, power - 1)?;
        uvarint(out, power)?;
        uvarint(out, power + 1)?;
        power = doubled(power, 0x8000_0000_0000_0000);
    }
    uvarint(out, u64::MAX)
}

fn uvarint<W: Write>(out: &mut W, n: u64) -> io::Result<()> {
    let mut buffer = [0u8; 10];
    let end = uvarint::put_uvarint(&mut buffer, 0, n);
    print::text(out, b"uvarint ")?;
    print::number(out, n)?;
    print::space(out)?;
    print::number(out, uvarint::uvarint_len(n) as u64)?;
    print::space(out)?;
    print::bytes(out, &buffer, end)?;
    print::end_line(out)
}

// 2^k - 1, 2^k, -2^k and -2^k - 1 for k from 0 to 62, and both ends. They are given by their
// zigzags, so that these are tried both ways.
pub(crate) fn varints<W: Write>(out: &mut W) -> io::Result<()> {
    let mut power: u64 = 1;
    for _ in 0..63u64 {
        varint(out, power * 2 - 2)?;
        varint(out, power * 2)?;
        varint(out, power * 2 - 1)?;
        varint(out, power * 2 + 1)?;
        power = doubled(power, 0x4000_0000_0000_0000);
    }
    varint(out, u64::MAX - 1)?;
    varint(out, u64::MAX)
}

fn varint<W: Write>(out: &mut W, zigzag: u64) -> io::Result<()> {
    let x = varint::zigzag_back(zigzag);
    let mut buffer = [0u8; 10];
    let end = varint::put_varint(&mut buffer, 0, x);
    print::text(out, b"varint ")?;
    print::signed(out, varint::zigzag_of(x))?;
    print::space(out)?;
    print::number(out, varint::varint_len(x) as u64)?;
    print::space(out)?;
    print::bytes(out, &buffer, end)?;
    print::end_line(out)
}

pub(crate) fn readings<W: Write>(out: &mut W) -> io::Result<()> {
    reading(out, b"")?;
    reading(out, &[0x00])?;
    reading(out, &[0x7F])?;
    reading(out, &[0x80])?;
    reading(out, &[0x80, 0x01])?;
    reading(out, &[0xAC, 0x02])?;
    reading(out, &[0xAC, 0x82, 0x00])?;
    reading(out, &[0xAC, 0x82, 0x80, 0x80, 0x00])?;
    reading(out, &[0x80u8; 9])?;
    reading_ten(out, 0x80, 0x00)?;
    reading_ten(out, 0x80, 0x01)?;
    reading_ten(out, 0x80, 0x02)?;
    reading_ten(out, 0x80, 0x80)?;
    reading_ten(out, 0xFF, 0x01)?;
    reading_ten(out, 0xFF, 0x7F)?;
    reading_ten(out, 0xFF, 0xFF)?;
    reading(
        out,
        &[
            0x80, 0x80, 0x80, 0x80, 0x80, 0x80, 0x80, 0x80, 0x80, 0x80, 0x00,
        ],
    )?;
    reading(out, &[0x01, 0xFF])
}

// Nine times a byte, and then another.
fn reading_ten<W: Write>(out: &mut W, nine: u8, tenth: u8) -> io::Result<()> {
    let mut data = [nine; 10];
    data[9] = tenth;
    reading(out, &data)
}

fn reading<W: Write>(out: &mut W, data: &[u8]) -> io::Result<()> {
    print::text(out, b"read ")?;
    if data.is_empty() {
        print::text(out, b"-")?;
    }
    print::bytes(out, data, data.len())?;
    match uvarint::get_uvarint(data, 0) {
        Ok((n, len)) => {
            print::text(out, b" value ")?;
            print::number(out, n)?;
            print::space(out)?;
            print::number(out, len as u64)?;
        }
        Err(VarintError::Short) => print::text(out, b" short")?,
        Err(VarintError::BadVarint) => print::text(out, b" bad")?,
    }
    print::end_line(out)
}
