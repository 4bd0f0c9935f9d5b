// The checksum itself (FORMAT 3), for callers that store it elsewhere, and the table that makes
// short data fast.
ghost use Rattle.std.specs.Prelude.{◌≡◌};
ghost use Rattle.crc32c_format.specs.Crc.{crc32c};
ghost use Rattle.crc32c_format.specs.Table.{slice_table};
ghost use Rattle.crc32c_format.specs.TableSum.{sum_by};

// CRC-32C of the bytes.
#[unsafe(no_mangle)]
pub extern "C" fn depot_wal_crc32c(bytes: &[u8]) -> u32
    ensures { result ≡ crc32c bytes.now }
{
    crc32c::checksum(bytes)
}

// Fills the checksum's table.
#[unsafe(no_mangle)]
pub extern "C" fn depot_wal_table(table: &mut [u32; 2048])
    ensures { table.new ≡ slice_table }
{
    crc32c_table::fill_table(table);
}

// The checksum by a caller's table; with the table that `depot_wal_table` fills it is CRC-32C.
#[unsafe(no_mangle)]
pub extern "C" fn depot_wal_crc32c_with_table(table: &[u32; 2048], bytes: &[u8]) -> u32
    ensures { result ≡ sum_by table.now bytes.now }
{
    crc32c::checksum_with_table(table, bytes)
}
