// The C calls about the name of a segment. include/depot_wal.h says the same for C. tools/archive
// joins them with the other calls.
#![tactic(auto)]

ghost use Rattle.std.specs.Prelude.{◌≡◌};
ghost use Rattle.name_format.specs.Names.{parse_name};
ghost use Rattle.name_format.specs.Calls.{make_name};
ghost use Rattle.depot_wal_names.specs.Results.{parse_code, parse_out, make_code, make_out};

use name_format::Name;
use wal_types::Refusal;

// What parsing answered.
fn parse_result(answer: Result<Name, Refusal>, out: &mut [u64; 2]) -> u32
    ensures { (result ≡ parse_code answer) × (out.new ≡ parse_out answer) }
{
    match answer {
        Ok(Name { sequence, version }) => {
            *out = [sequence, version];
            0
        }
        Err(why) => {
            let at = wal_types::place(why);
            *out = [at.0 as u64, 0];
            wal_types::number(why)
        }
    }
}

// What making answered.
fn make_result(answer: Result<usize, Refusal>, out: &mut [u64; 2]) -> u32
    ensures { (result ≡ make_code answer) × (out.new ≡ make_out answer) }
{
    match answer {
        Ok(length) => {
            *out = [length as u64, 0];
            0
        }
        Err(why) => {
            let at = wal_types::place(why);
            *out = [0, at.0 as u64];
            wal_types::number(why)
        }
    }
}

// The sequence and the version that a name says (FORMAT 21.2).
#[unsafe(no_mangle)]
pub extern "C" fn depot_wal_name_parse(name: &[u8], out: &mut [u64; 2]) -> u32
    ensures { (result ≡ parse_code (parse_name name.now))
        × (out.new ≡ parse_out (parse_name name.now)) }
{
    parse_result(segment_name::parse(name), out)
}

// Makes the name of a segment (FORMAT 21.1).
#[unsafe(no_mangle)]
pub extern "C" fn depot_wal_name_make(
    sequence: u64,
    version: u64,
    name: &mut [u8],
    out: &mut [u64; 2],
) -> u32
    ensures { (result ≡ make_code (make_name sequence version name.old).answer)
        × (out.new ≡ make_out (make_name sequence version name.old).answer)
        × (name.new ≡ (make_name sequence version name.old).buffer) }
{
    make_result(segment_name::make(sequence, version, name), out)
}
