// A delta of a row (FORMAT 9.3) is 64 bits, added modulo 2^64, and is written as the signed number
// that these bits are (FORMAT 8.3). Here are its bits as the zigzag of that number and back.
#![tactic(auto)]

ghost use Rattle.std.specs.Prelude.{◌≡◌};
ghost use Rattle.varint.specs.Varint.{zigzag, unzigzag};
ghost use Rattle.wal_types.specs.Deltas.{to_bits, int_from_bits};

// The zigzag of the signed number of the bits.
pub fn zigzag_of_delta(delta: u64) -> u64
    ensures { result ≡ zigzag (int_from_bits delta) }
{
    varint::zigzag_of(delta.cast_signed())
}

// The bits of the x of which u is the zigzag.
pub fn delta_of_zigzag(u: u64) -> u64
    ensures { result ≡ to_bits (unzigzag u) }
{
    wal_types::bits_of(varint::zigzag_back(u))
}
