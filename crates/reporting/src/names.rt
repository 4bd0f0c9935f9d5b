// The version of the segment that a path names (FORMAT 21, 22.10).
ghost use Rattle.std.specs.Prelude.{◌≡◌, ◌≤◌, length};
ghost use Rattle.reporting.specs.Paths.{last_part, after_slash, version_in, version_named};

use name_format::Name;
use wal_types::{Refusal, Version};

const SLASH: u8 = 47;

// Where a path's last part starts: after its last `/`.
fn part_start(path: &[u8]) -> usize
    ensures { (result ≡ after_slash path.now (length path.now)) × (result ≤ length path.now) }
{
    match path.iter().rposition(|byte| *byte == SLASH) {
        Some(i) => i + 1,
        None => 0,
    }
}

// The version that a name says, if it is a segment's.
fn named(answer: Result<Name, Refusal>) -> Option<Version>
    ensures { result ≡ version_named answer }
{
    match answer {
        Ok(Name { version: 1, .. }) => Some(Version::One),
        Ok(_) => Some(Version::Two),
        Err(_) => None,
    }
}

pub(crate) fn version_in(path: &[u8]) -> Option<Version>
    ensures { result ≡ version_in path.now }
{
    let start = part_start(path);
    named(segment_name::parse(&path[start..]))
}
