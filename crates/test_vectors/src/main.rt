// Runs outside vectors and the numbers of FORMAT 13 and 14 through the library. The second program
// prints what this has to print.
#![tactic(auto)]

mod fields;
mod segments;

use std::io;

fn main(rt: HostRuntime) -> io::Result<()> {
    let mut out = io::writer(&rt);
    fields::checksums(&mut out)?;
    fields::uvarints(&mut out)?;
    fields::varints(&mut out)?;
    fields::readings(&mut out)?;
    segments::writes(&mut out)?;
    segments::types(&mut out)?;
    segments::cuts(&mut out)
}
