// Where the parts of a line begin and end.
ghost use Rattle.std.specs.Prelude.{◌≤◌, length};

// The place after the first `byte`; if there is none, the end.
pub(crate) fn behind_first(s: &[u8], byte: u8) -> usize
    ensures { result ≤ length s.now }
{
    match s.iter().position(|b| *b == byte) {
        Some(i) => i + 1,
        None => s.len(),
    }
}

// The place after the last semicolon and the space that follows it; if there is none, the end.
pub(crate) fn behind_last(s: &[u8]) -> usize
    ensures { result ≤ length s.now }
{
    let Some((_, front)) = s.split_last() else {
        return 0;
    };
    match front.iter().rposition(|b| *b == b';') {
        Some(i) => i + 2,
        None => s.len(),
    }
}
