// The bytes of a case. An item, `HH` or `HH*N`, is taken with the byte that ends it: a space, or
// the newline after the last.
ghost use Rattle.std.specs.Prelude.{◌<◌, ◌≤◌, IfSome, length};
ghost use Rattle.test_damage.specs.Fits.{Fits};

// The longest segment of the table.
pub(crate) const SEGMENT_MAX: usize = 131072;

// Stores the bytes of all items in the segment and returns their number; too many are malformed.
pub(crate) fn expand(items: &[u8], segment: &mut [u8]) -> Option<usize>
    ensures { Fits result (length segment.old) }
{
    if !items.ends_with(b"\n") {
        return None;
    }
    let mut used = 0;
    for item in items.split_inclusive(|b| *b == b' ') {
        used = put(item, segment, used)?;
    }
    Some(used)
}

// Stores the bytes of one item at a place of the segment, and returns the place after them.
fn put(item: &[u8], segment: &mut [u8], at: usize) -> Option<usize>
    requires { at ≤ length segment.old }
    ensures { Fits result (length segment.old) }
{
    let [high, low, rest @ ..] = item else {
        return None;
    };
    let byte = digit(*high)? * 16 + digit(*low)?;
    let count = times(rest)?;
    if segment.len() - at < count {
        return None;
    }
    let end = at + count;
    segment[at..end].fill(byte);
    Some(end)
}

// How many times an item has its byte, by what follows that.
fn times(rest: &[u8]) -> Option<usize> {
    match rest {
        [_] => Some(1),
        [b'*', digits @ .., _] => decimal(digits),
        _ => None,
    }
}

// A number of one digit or more. One above the longest segment is malformed, so no sum wraps.
fn decimal(digits: &[u8]) -> Option<usize> {
    if digits.is_empty() {
        return None;
    }
    let mut n: usize = 0;
    for c in digits {
        let d = digit(*c)?;
        if 9 < d {
            return None;
        }
        n = n * 10 + usize::from(d);
        if SEGMENT_MAX < n {
            return None;
        }
    }
    Some(n)
}

// A hexadecimal digit.
fn digit(c: u8) -> Option<u8>
    ensures { IfSome result (λ d. d < 16) }
{
    match c {
        b'0'..=b'9' => Some(c - b'0'),
        b'A'..=b'F' => Some(c - b'A' + 10),
        b'a'..=b'f' => Some(c - b'a' + 10),
        _ => None,
    }
}
