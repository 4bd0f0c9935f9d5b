// Strings taken out of another body, each read at its place and written after its length. A length
// that was longer than needed is written as short as it can be.
ghost use Rattle.std.specs.Prelude.{◌≡◌, ◌+◌, ◌≤◌, length, IfSome, is_none};
ghost use Rattle.std.proofs.lemmas.List.Edits.{sets};
ghost use Rattle.body_format.specs.Fields.{string_at, strings_at};
ghost use Rattle.body_builder.specs.Laws.Putting.{Put};
ghost use Rattle.body_copy.specs.Taking.{bad_strings};
ghost use Rattle.body_copy.specs.Forms.{measured_of, size_taken, bytes_of, copied_of, strings_from, list_from};

use body_fields::string_field_at;

// ---- sizes

// The bytes that the string at a place takes, and the place after it in the other body.
fn string_size(from: &[u8], at: usize) -> Option<(usize, usize)>
    ensures { result ≡ measured_of (string_at from.now at) }
{
    let (_, length, next) = string_field_at(from, at).ok()?;
    Some((uvarint::uvarint_len(length as u64) + length, next))
}

// So many strings from a place on. None takes more bytes than it does where it stands.
fn strings_size(from: &[u8], first: usize, count: usize) -> Option<usize>
    ensures { result ≡ size_taken 0 (strings_at count from.now first) }
{
    let mut at = first;
    let mut total = 0;
    for _ in 0..count {
        let (size, next) = string_size(from, at)?;
        total += size;
        at = next;
    }
    Some(total)
}

// So many bytes, and the list of so many strings from a place on. A bad list has no size (BadList,
// FORMAT 10.5): a string that cannot be read, or an odd number of them.
pub(crate) fn entry_size(head: usize, from: &[u8], first: usize, count: usize) -> Option<usize>
    requires { head ≤ 100 }
    ensures { (is_none result ≡ bad_strings count (strings_at count from.now first))
        × IfSome result (λ n. n ≡ head + length (list_from count from.now first)) }
{
    if count % 2 == 1 {
        return None;
    }
    let strings = strings_size(from, first, count)?;
    Some(head + uvarint::uvarint_len((count / 2) as u64) + strings)
}

// ---- writing, at a place that has room

// The string at a place of the other body: its length, and its bytes. The places after both; one
// that cannot be read has no bytes.
fn put_string(from: &[u8], at: usize, buffer: &mut [u8], place: usize) -> Option<(usize, usize)>
    requires { place + length (bytes_of (string_at from.now at)) ≤ length buffer.old }
    ensures { (result ≡ copied_of place (string_at from.now at))
        × (buffer.new ≡ sets buffer.old place (bytes_of (string_at from.now at))) }
{
    let (start, length, next) = string_field_at(from, at).ok()?;
    let first = uvarint::put_uvarint(buffer, place, length as u64);
    byte_copy::copy(from, start, length, buffer, first);
    Some((first + length, next))
}

// So many strings from a place on; the place after them.
fn put_strings(from: &[u8], first: usize, count: usize, buffer: &mut [u8], at: usize) -> usize
    requires { at + length (strings_from count from.now first) ≤ length buffer.old }
    ensures { Put buffer.old at (strings_from count from.now first) buffer.new result }
{
    let mut place = at;
    let mut next = first;
    for _ in 0..count {
        let Some((end, after)) = put_string(from, next, buffer, place) else {
            return place;
        };
        place = end;
        next = after;
    }
    place
}

// The list of them: half their number, and then the strings.
pub(crate) fn put_list(
    from: &[u8],
    first: usize,
    count: usize,
    buffer: &mut [u8],
    at: usize,
) -> usize
    requires { at + length (list_from count from.now first) ≤ length buffer.old }
    ensures { Put buffer.old at (list_from count from.now first) buffer.new result }
{
    let pairs = (count / 2) as u64;
    let strings = uvarint::put_uvarint(buffer, at, pairs);
    put_strings(from, first, count, buffer, strings)
}
