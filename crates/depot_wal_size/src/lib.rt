// The C call that tells how many pages a list of records needs. include/depot_wal.h says the same
// for C. tools/archive joins it with the other calls.
#![tactic(auto)]

ghost use Rattle.std.specs.Prelude.{◌≡◌};
ghost use Rattle.size_format.specs.Size.{pages_for};
ghost use Rattle.depot_wal_size.specs.Results.{pages_code, pages_out};

// The pages of a slice that holds every list of so many records and bytes (FORMAT 20.3).
#[unsafe(no_mangle)]
pub extern "C" fn depot_wal_pages_for(records: u64, bytes: u64, out: &mut [u64; 1]) -> u32
    ensures { (result ≡ pages_code (pages_for records bytes)) × (out.new ≡ pages_out (pages_for records bytes)) }
{
    match segment_size::pages_for(records, bytes) {
        Ok(pages) => {
            *out = [pages];
            0
        }
        Err(why) => {
            *out = [wal_types::place(why).0 as u64];
            wal_types::number(why)
        }
    }
}
