// Lists a segment from standard input (FORMAT 15).
#![tactic(auto)]

use std::io;

fn main(rt: HostRuntime) -> io::Result<()> {
    listing::list_input(&rt)
}
