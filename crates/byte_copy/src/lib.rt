// Copies bytes from one slice to another. The specs also say what a slice holds after bytes are
// stored in it, for every crate that stores some.
#![tactic(auto)]

ghost use Rattle.std.specs.Prelude.{◌≡◌, ◌+◌, ◌-◌, ◌*◌, ◌/◌, ◌%◌, ◌≤◌, ◌<◌, length, take, drop};
ghost use Rattle.std.proofs.lemmas.List.Edits.{sets};
ghost use Rattle.byte_copy.specs.Copied.{copied};

// The bytes of a chunk, and of two.
const CHUNK: usize = 16;

const PAIR: usize = 2 * CHUNK;

// Copies `count` bytes of `source`, from `from` on, to `to` at `at`. Where either slice is too
// short for that, nothing changes.
pub fn copy(source: &[u8], from: usize, count: usize, to: &mut [u8], at: usize)
    ensures { to.new ≡ copied source.now from count to.old at }
{
    if source.len() < from || source.len() - from < count {
        return;
    }
    if to.len() < at || to.len() - at < count {
        return;
    }
    if count < CHUNK {
        copy_bytes(source, from, count, to, at);
    } else {
        copy_long(source, from, count, to, at);
    }
}

// Byte by byte.
fn copy_bytes(source: &[u8], from: usize, count: usize, to: &mut [u8], at: usize)
    requires { (from + count ≤ length source.now) × (at + count ≤ length to.old) }
    ensures { to.new ≡ sets to.old at (take count (drop from source.now)) }
{
    for i in 0..count {
        to[at + i] = source[from + i];
    }
}

// By chunks. The last ends where the bytes do, so it may copy some of them again.
fn copy_long(source: &[u8], from: usize, count: usize, to: &mut [u8], at: usize)
    requires { (16 ≤ count) × (from + count ≤ length source.now) × (at + count ≤ length to.old) }
    ensures { to.new ≡ sets to.old at (take count (drop from source.now)) }
{
    copy_front(source, from, count, to, at);
    let front = count - CHUNK;
    copy_array::<CHUNK>(source, from + front, to, at + front);
}

// Enough of the front that the last chunk completes it. Up to three chunks go without a loop: to
// set one up would take longer than to copy them.
fn copy_front(source: &[u8], from: usize, count: usize, to: &mut [u8], at: usize)
    requires { (16 ≤ count) × (from + count ≤ length source.now) × (at + count ≤ length to.old) }
    ensures { sets to.new (at + (count - 16))
        (take 16 (drop (from + (count - 16)) source.now)) ≡ sets to.old at
        (take count (drop from source.now)) }
{
    if count <= 2 * CHUNK {
        copy_array::<CHUNK>(source, from, to, at);
    } else if count <= 3 * CHUNK {
        copy_array::<PAIR>(source, from, to, at);
    } else {
        copy_aligned(source, from, count, to, at);
    }
}

// One chunk, then whole chunks from the next multiple of 16 in `to` on. A store across two cache
// lines takes longer, and a slice mostly starts at a multiple of 16 in memory.
fn copy_aligned(source: &[u8], from: usize, count: usize, to: &mut [u8], at: usize)
    requires { (48 < count) × (from + count ≤ length source.now) × (at + count ≤ length to.old) }
    ensures { to.new ≡ sets to.old at
        (take (16 - at % 16 + (count - (16 - at % 16)) / 16 * 16) (drop from source.now)) }
{
    copy_array::<CHUNK>(source, from, to, at);
    let skip = CHUNK - at % CHUNK;
    copy_chunks(source, from + skip, count - skip, to, at + skip);
}

// The whole chunks of `count` bytes. A `while`: for a loop over a range of chunks the compiler
// saves more registers, which costs each call six instructions, also where it copies no chunk.
fn copy_chunks(source: &[u8], from: usize, count: usize, to: &mut [u8], at: usize)
    requires { (from + count ≤ length source.now) × (at + count ≤ length to.old) }
    ensures { to.new ≡ sets to.old at
        (take (count / 16 * 16) (drop from source.now)) }
{
    let mut i = 0;
    while CHUNK <= count - i {
        copy_array::<CHUNK>(source, from + i, to, at + i);
        i += CHUNK;
    }
}

// Some bytes, as many as the type says. All of them are loaded before one is stored: the compiler
// then makes wide loads and wide stores of them, though it cannot know that the slices do not
// overlap.
fn copy_array<const N: usize>(source: &[u8], from: usize, to: &mut [u8], at: usize)
    requires { (from + N ≤ length source.now) × (at + N ≤ length to.old) }
    ensures { to.new ≡ sets to.old at (take N (drop from source.now)) }
{
    let bytes: [u8; N] = *source[from..from + N].first_chunk().unwrap();
    to[at..at + N].copy_from_slice(&bytes);
}
