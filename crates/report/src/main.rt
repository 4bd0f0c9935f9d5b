// Reports on the segments that its arguments name (FORMAT 22.10).
#![tactic(auto)]

use std::io;

fn main(rt: HostRuntime) -> io::Result<()> {
    reporting::report(&rt)
}
