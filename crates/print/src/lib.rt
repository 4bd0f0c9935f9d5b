// Words of an output line, for any writer. Each call appends its bytes to what the writer holds,
// where that is known, unless a write fails.
#![tactic(auto)]

ghost use Rattle.std.specs.Prelude.{◌≡◌, ◌+◌, ◌/◌, ◌%◌, ◌++◌, ◌∷◌, [], OnOk, codes, decimal, take};
ghost use Rattle.std.specs.Io.KnownBytes.{Appends};
ghost use Rattle.print.specs.Pairs.{hex_pair, hex_pairs};

use std::io;
use std::io::Write;

pub fn text<W: Write>(out: &mut W, bytes: &[u8]) -> io::Result<()>
    ensures { OnOk result (Appends (W.contents out.old) (W.contents out.new) bytes.now) }
{
    out.write_all(bytes)
}

pub fn space<W: Write>(out: &mut W) -> io::Result<()>
    ensures { OnOk result (Appends (W.contents out.old) (W.contents out.new) (codes " ")) }
{
    text(out, b" ")
}

pub fn end_line<W: Write>(out: &mut W) -> io::Result<()>
    ensures { OnOk result (Appends (W.contents out.old) (W.contents out.new) (10 ∷ [])) }
{
    text(out, b"\n")
}

pub fn number<W: Write>(out: &mut W, n: u64) -> io::Result<()>
    ensures { OnOk result (Appends (W.contents out.old) (W.contents out.new) (decimal n)) }
{
    write!(out, "{n}")
}

// A space and a number, as most lines have them.
pub fn field<W: Write>(out: &mut W, n: u64) -> io::Result<()>
    ensures { OnOk result (Appends (W.contents out.old) (W.contents out.new) (codes " " ++ decimal n)) }
{
    space(out)?;
    number(out, n)
}

// A signed number, given by its zigzag z: z / 2, or -(z / 2 + 1) where z is odd.
pub fn signed<W: Write>(out: &mut W, zigzag: u64) -> io::Result<()>
    ensures even { zigzag % 2 ≡ 0 → OnOk result (Appends (W.contents out.old) (W.contents out.new) (decimal (zigzag / 2))) }
    ensures odd { zigzag % 2 ≡ 1 → OnOk result (Appends (W.contents out.old) (W.contents out.new) (codes "-" ++ decimal (zigzag / 2 + 1))) }
{
    let magnitude = zigzag / 2;
    if zigzag % 2 == 0 {
        number(out, magnitude)
    } else {
        text(out, b"-")?;
        number(out, magnitude + 1)
    }
}

// A byte, as two hexadecimal digits in lower case.
pub fn byte<W: Write>(out: &mut W, byte: u8) -> io::Result<()>
    ensures { OnOk result (Appends (W.contents out.old) (W.contents out.new) (hex_pair byte)) }
{
    write!(out, "{byte:02x}")
}

// The first n bytes of a slice, two hexadecimal digits each.
pub fn bytes<W: Write>(out: &mut W, s: &[u8], n: usize) -> io::Result<()>
    ensures { OnOk result (Appends (W.contents out.old) (W.contents out.new) (hex_pairs (take n s.now))) }
{
    let count = n.min(s.len());
    for b in &s[..count] {
        byte(out, *b)?;
    }
    Ok(())
}
