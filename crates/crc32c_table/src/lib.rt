// Fills the table that a caller keeps for the checksum of short data (crate `crc32c`).
#![tactic(auto)]

ghost use Rattle.std.specs.Prelude.{◌≡◌, length};
ghost use Rattle.crc32c_format.specs.Crc.{bit_step, bit_steps};
ghost use Rattle.crc32c_format.specs.Table.{slice_table};
ghost use Rattle.crc32c_format.specs.Method.Tables.{Filled};

fn bit_step(c: u32) -> u32
    ensures { result ≡ bit_step c }
{
    (c % 2 * 0x82F6_3B78) ^ (c / 2)
}

fn byte_steps(x: u32) -> u32
    ensures { result ≡ bit_steps 8 x }
{
    let mut c = x;
    for _ in 0..8u32 {
        c = bit_step(c);
    }
    c
}

// Row 0: each byte after its own eight bit steps.
fn fill_first_row(table: &mut [u32])
    requires { length table.old ≡ 2048 }
    ensures { Filled table.new 256 }
{
    for i in 0..256 {
        table[i] = byte_steps(i as u32);
    }
}

// Each later entry is eight bit steps on from the one above it.
fn fill_other_rows(table: &mut [u32])
    requires { Filled table.old 256 }
    ensures { Filled table.new 2048 }
{
    for i in 256..2048 {
        let above = table[i - 256];
        let low = (above % 256) as usize;
        table[i] = table[low] ^ (above / 256);
    }
}

// Fills the caller's table.
pub fn fill_table(table: &mut [u32; 2048])
    ensures { table.new ≡ slice_table }
{
    fill_first_row(table);
    fill_other_rows(table);
}
