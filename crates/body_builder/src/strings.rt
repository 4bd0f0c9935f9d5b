// Strings as the caller gives them for building: one slice of bytes, and one of lengths.
ghost use Rattle.std.specs.Prelude.{◌≡◌, ◌+◌, ◌*◌, ◌≤◌, eqb, length, IfSome, is_none};
ghost use Rattle.std.proofs.lemmas.List.Edits.{sets};
ghost use Rattle.body_format.specs.Building.{strings_bytes, string_list_bytes, cut_strings, total, bad_list};
ghost use Rattle.body_builder.specs.Laws.Additions.{Measures};
ghost use Rattle.body_builder.specs.Sizes.{heads, list_size};

use wal_types::RECORD_LIMIT;

// Whether lengths add up to a size. Each is taken from what is left, so that no sum can wrap.
fn add_up(lengths: &[u64], size: usize) -> bool
    ensures { result ≡ eqb (total lengths.now) size }
{
    let mut left = size as u64;
    for &length in lengths {
        let Some(rest) = left.checked_sub(length) else {
            return false;
        };
        left = rest;
    }
    left == 0
}

// The bytes that the list takes in a body. Lists of more than 65,536 strings or bytes fit in no
// body; all of them get one size, so that no sum wraps. A bad list has none (BadList, FORMAT 10.5):
// an odd number of strings, or lengths that do not add up to the bytes.
#[tactic(auto, using(std::proofs::lemmas::Bool::Decides::nat_tests), unfolding(body_format::specs::Building::bad_list, crate::specs::Sizes::list_size))]
fn list_size(strings: &[u8], lengths: &[u64]) -> Option<usize>
    ensures bad { is_none result ≡ bad_list strings.now lengths.now }
    ensures good { IfSome result (λ n.
        (n ≡ list_size (length strings.now) lengths.now) × (n ≤ 1000000)) }
{
    if lengths.len() % 2 == 1 || !add_up(lengths, strings.len()) {
        return None;
    }
    if RECORD_LIMIT < lengths.len() || RECORD_LIMIT < strings.len() {
        return Some(RECORD_LIMIT + 1);
    }
    let count = uvarint::uvarint_len((lengths.len() / 2) as u64);
    Some(count + heads_size(lengths) + strings.len())
}

// The bytes of an entry: so many, and its list. One with a bad list has none.
pub(crate) fn entry_size(head: usize, strings: &[u8], lengths: &[u64]) -> Option<usize>
    requires { head ≤ 100 }
    ensures { Measures result (bad_list strings.now lengths.now)
        (head + length (string_list_bytes (cut_strings strings.now lengths.now))) }
{
    Some(head + list_size(strings, lengths)?)
}

// The bytes that the lengths take, each before its string.
#[tactic(auto, unfolding(crate::specs::Sizes::heads))]
fn heads_size(lengths: &[u64]) -> usize
    requires { length lengths.now ≤ 65536 }
    ensures { (result ≡ heads lengths.now) × (result ≤ 10 * length lengths.now) }
{
    let mut size = 0;
    for &length in lengths {
        size += uvarint::uvarint_len(length);
    }
    size
}

// The list at a place that has room for it; the place after it.
pub(crate) fn put_list(buffer: &mut [u8], at: usize, strings: &[u8], lengths: &[u64]) -> usize
    requires { (total lengths.now ≡ length strings.now) ×
        (at + length (string_list_bytes (cut_strings strings.now lengths.now)) ≤ length buffer.old) }
    ensures value { result ≡ at + length (string_list_bytes (cut_strings strings.now lengths.now)) }
    ensures buffer_after { buffer.new ≡ sets buffer.old at
        (string_list_bytes (cut_strings strings.now lengths.now)) }
{
    let pair_count = (lengths.len() / 2) as u64;
    let first = uvarint::put_uvarint(buffer, at, pair_count);
    put_strings(buffer, first, strings, lengths)
}

// The strings in a row, each after its length.
fn put_strings(buffer: &mut [u8], at: usize, strings: &[u8], lengths: &[u64]) -> usize
    requires { (total lengths.now ≡ length strings.now) ×
        (at + length (strings_bytes (cut_strings strings.now lengths.now)) ≤ length buffer.old) }
    ensures value { result ≡ at + length (strings_bytes (cut_strings strings.now lengths.now)) }
    ensures buffer_after { buffer.new ≡ sets buffer.old at
        (strings_bytes (cut_strings strings.now lengths.now)) }
{
    let mut place = at;
    let mut from = 0;
    for &length in lengths {
        let count = length as usize;
        let start = uvarint::put_uvarint(buffer, place, length);
        byte_copy::copy(strings, from, count, buffer, start);
        place = start + count;
        from += count;
    }
    place
}
