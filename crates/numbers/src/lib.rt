// Small functions on numbers that several crates need: std's `min`, and `From` of a byte with the
// bound that its number keeps.
#![tactic(auto)]

ghost use Rattle.std.specs.Prelude.{◌≡◌, ◌<◌, min};

// The smaller of two numbers.
pub fn smaller(a: usize, b: usize) -> usize
    ensures { result ≡ min a b }
{
    a.min(b)
}

// A byte as an index or a length.
pub fn wide(byte: u8) -> usize
    ensures { (result ≡ byte) × (result < 256) }
{
    usize::from(byte)
}

// A byte as a number of 32 bits.
pub fn wide32(byte: u8) -> u32
    ensures { (result ≡ byte) × (result < 256) }
{
    u32::from(byte)
}

// A byte as a number of 64 bits.
pub fn wide64(byte: u8) -> u64
    ensures { (result ≡ byte) × (result < 256) }
{
    u64::from(byte)
}
