// CRC-32C (Castagnoli, FORMAT 3). Short data goes eight bytes at a time: by rows of constants in
// read-only memory, or by a table that the caller fills once. Long data is folded by two sparse
// multiples of the polynomial, one after the other, which needs neither.
#![tactic(auto)]

ghost use Rattle.std.specs.Prelude.{◌≡◌, [], ◌∷◌, ◌+◌, ◌-◌, ◌*◌, ◌/◌, ◌%◌, ◌<◌, ◌≤◌, min, length, take, drop};
ghost use Rattle.std.specs.Int.Bits.{bit_xor};
ghost use Rattle.crc32c_format.specs.Crc.{bit_steps, register, crc32c};
ghost use Rattle.crc32c_format.specs.Bytes.{little_endian};
ghost use Rattle.crc32c_format.specs.TableSum.{look_up2, look_up4, table_step1, table_step4, table_step8, steps, table_register, register_by, sum_by};
ghost use Rattle.crc32c_format.specs.Method.Fold.{onto290, onto130, taps, Folded, Slid, Cleared, Rest};

use crc32c_rows_first::{row0, row1, row2, row3};
use crc32c_rows_later::{row4, row5, row6, row7};

// What a caller without a table passes: too short to be used.
pub const NO_TABLE: [u32; 1] = [0];

// Data of this length or more is folded, which needs no table.
const LONG: usize = 512;

// ---- bytes as a number, the first lowest

// By halves: over `from_le_bytes` a block takes one instruction more by the table, since the
// compiler then loads all four bytes that it looks up, and splits them again.

fn load2(s: &[u8], at: usize) -> u16
    requires { at + 2 ≤ length s.now }
    ensures { result ≡ little_endian (take 2 (drop at s.now)) }
{
    u16::from(s[at]) + u16::from(s[at + 1]) * 0x100
}

fn load4(s: &[u8], at: usize) -> u32
    requires { at + 4 ≤ length s.now }
    ensures { result ≡ little_endian (take 4 (drop at s.now)) }
{
    u32::from(load2(s, at)) + u32::from(load2(s, at + 2)) * 0x1_0000
}

fn load8(s: &[u8], at: usize) -> u64
    requires { at + 8 ≤ length s.now }
    ensures { result ≡ little_endian (take 8 (drop at s.now)) }
{
    u64::from(load4(s, at)) + u64::from(load4(s, at + 4)) * 0x1_0000_0000
}

// ---- by the rows

// A row is a function with a constant for each byte (tools/rows). The compiler makes it a load from
// read-only memory where it has one call site, and a call for each byte where it has two. So each
// row is named once, and all plain calls share one loop, in `short`.

// A byte as the rows want it.
fn index(x: u32) -> u8
    requires { x < 256 }
    ensures { result ≡ bit_xor x 128 }
{
    (x as u8) ^ 0x80
}

// The bytes 6 and 7 of a block of eight, 4 and 5, 2 and 3, 0 and 1, after the bit steps to its end.
fn bytes67(x: u32) -> u32
    requires { x < 65536 }
    ensures { result ≡ bit_steps 16 x }
{
    row1(index(x % 0x100)) ^ row0(index(x / 0x100))
}

fn bytes45(x: u32) -> u32
    requires { x < 65536 }
    ensures { result ≡ bit_steps 32 x }
{
    row3(index(x % 0x100)) ^ row2(index(x / 0x100))
}

fn bytes23(x: u32) -> u32
    requires { x < 65536 }
    ensures { result ≡ bit_steps 48 x }
{
    row5(index(x % 0x100)) ^ row4(index(x / 0x100))
}

fn bytes01(x: u32) -> u32
    requires { x < 65536 }
    ensures { result ≡ bit_steps 64 x }
{
    row7(index(x % 0x100)) ^ row6(index(x / 0x100))
}

// Its last four bytes, and its first four.
fn bytes4567(x: u32) -> u32
    ensures { result ≡ bit_steps 32 x }
{
    bytes45(x % 0x1_0000) ^ bytes67(x / 0x1_0000)
}

fn bytes0123(x: u32) -> u32
    ensures { result ≡ bit_steps 64 x }
{
    bytes01(x % 0x1_0000) ^ bytes23(x / 0x1_0000)
}

// The register after a first block, to which `rest` is xored, and after the bytes of `s` from `at`
// on. The last four bytes of a block come first: they do not wait for the register.
fn blocks(first: u64, rest: u32, s: &[u8], at: usize) -> u32
    requires { (at ≤ length s.now) × ((length s.now - at) % 8 ≡ 0) }
    ensures { result ≡ register (bit_xor (bit_steps 64 first) rest) (drop at s.now) }
{
    let n = s.len();
    let mut low = (first % 0x1_0000_0000) as u32;
    let mut high = (first / 0x1_0000_0000) as u32;
    let mut over = rest;
    let mut i = at;
    loop {
        let c = bytes4567(high) ^ bytes0123(low) ^ over;
        if n - i < 8 {
            return c;
        }
        low = c ^ load4(s, i);
        high = load4(s, i + 4);
        over = 0;
        i += 8;
    }
}

// Up to seven bytes as a number.
fn load_few(s: &[u8]) -> u64
    requires { length s.now < 8 }
    ensures { result ≡ little_endian s.now }
{
    let mut x: u64 = 0;
    for i in (0..s.len()).rev() {
        x = x * 256 + u64::from(s[i]);
    }
    x
}

// The first eight bytes as a number, or as many as there are.
fn load_first(s: &[u8]) -> u64
    ensures { result ≡ little_endian (take 8 s.now) }
{
    if 8 <= s.len() {
        load8(s, 0)
    } else {
        load_few(s)
    }
}

// The register after the bytes of a slice, in blocks of eight up to its end. The first block has
// one to eight bytes, with zeros before them, which leave a register of zero as it is. The part of
// the state that meets those bytes is xored to them; the rest of it, shifted, comes after them.
fn register_by_rows(state: u32, s: &[u8]) -> u32
    ensures { result ≡ register state s.now }
{
    let n = s.len();
    if n == 0 {
        return state;
    }
    let more = (n - 1) % 8;
    let first = (load_first(s) ^ u64::from(state)) << (56 - 8 * more);
    let rest = (u64::from(state) >> (8 * more) >> 8) as u32;
    blocks(first, rest, s, more + 1)
}

// The same as one piece of machine code, for short data. `&s[0..]` passes address and length in
// registers; `s` would copy the pair in memory first.
fn short(state: u32, s: &[u8]) -> u32
    ensures { result ≡ register state s.now }
{
    register_by_rows(state, &s[0..])
}

// ---- by folding

// The buffer holds the window, which is the last 290 bytes of what was folded, and room for 2,048
// more. It need not hold the whole message: what is to come depends on the window alone.

// Folds the first n bytes of m into y, after the window. No byte is read again before 154 more are
// stored; from 128 on, the compiler folds 16 bytes at once.
fn fold(y: &mut [u8], m: &[u8], n: usize)
    requires { (n ≤ length m.now) × (n + 290 ≤ length y.old) }
    ensures { Folded onto290 m.now y.old y.new n }
{
    for i in 0..n {
        y[i + 290] = m[i] ^ (y[i + 136] ^ y[i + 113] ^ y[i + 107] ^ y[i + 32] ^ y[i]);
    }
}

// Moves the window to the front of y after n bytes more were folded.
fn slide(y: &mut [u8], n: usize)
    requires { n + 290 ≤ length y.old }
    ensures { Slid onto290 y.old y.new n }
{
    for i in 0..290 {
        y[i] = y[i + n];
    }
}

// Sets the 136 bytes after the window to zero: `rest` reads that far, and nothing is folded there.
fn clear(y: &mut [u8])
    requires { 426 ≤ length y.old }
    ensures { Cleared onto290 y.old y.new }
{
    y[290..426].fill(0);
}

// The last 290 bytes of the message, with what the window xors into them.
fn rest(r: &mut [u8], y: &[u8], m: &[u8])
    requires { (length r.old ≡ 290) × (length m.now ≡ 290) × (426 ≤ length y.now) }
    ensures { Rest onto290 m.now y.now r.new }
{
    for i in 0..290 {
        r[i] = m[i] ^ (y[i + 136] ^ y[i + 113] ^ y[i + 107] ^ y[i + 32] ^ y[i]);
    }
}

// The 290 bytes that this leaves are folded again, onto their last 130. The second multiple has
// more terms, so a byte costs more than in the first fold, but less than by the table. The buffer
// holds them all and ends in zeros, so no window slides and nothing is cleared.

// What earlier bytes xor into the byte at i, for both loops: the compiler inlines it into each.
fn taps130(y: &[u8], i: usize) -> u8
    requires { i + 64 < length y.now }
    ensures { result ≡ taps onto130 y.now i }
{
    y[i + 64] ^ y[i + 63] ^ y[i + 60] ^ y[i + 33] ^ y[i + 32] ^ y[i + 25] ^ y[i]
}

// Folds the first n bytes of m into y, after the window.
fn fold_again(y: &mut [u8], m: &[u8], n: usize)
    requires { (n ≤ length m.now) × (n + 130 ≤ length y.old) }
    ensures { Folded onto130 m.now y.old y.new n }
{
    for i in 0..n {
        y[i + 130] = m[i] ^ taps130(y, i);
    }
}

// The last 130 of the 290 bytes, with what the window xors into them.
fn rest_again(r: &mut [u8], y: &[u8], m: &[u8])
    requires { (length r.old ≡ 130) × (length m.now ≡ 130) × (194 ≤ length y.now) }
    ensures { Rest onto130 m.now y.now r.new }
{
    for i in 0..130 {
        r[i] = m[i] ^ taps130(y, i);
    }
}

// The register after the 290 bytes. What is left of them is summed in two parts: a second call site
// keeps `short` a function of its own, also in an archive where no other call needs it; merged into
// its caller it would be too large for that one to be merged into its own.
fn after_rest(m: &[u8]) -> u32
    requires { length m.now ≡ 290 }
    ensures { result ≡ register 0 m.now }
{
    // 160 bytes after a window of 130, and 64 that stay zero: `rest_again` reads that far.
    let mut y = [0u8; 354];
    fold_again(&mut y, m, 160);
    let mut r = [0u8; 130];
    rest_again(&mut r, &y[160..], &m[160..]);
    let c = short(0, &r[0..66]);
    short(c, &r[66..])
}

// The register after the bytes of a slice, for long data: all but the last 290 bytes are folded
// onto those, and those onto their last 130.
fn long(state: u32, m: &[u8]) -> u32
    requires { 290 ≤ length m.now }
    ensures { result ≡ register state m.now }
{
    let mut y = [0u8; 2338];
    y[0] = (state % 256) as u8;
    y[1] = (state / 256 % 256) as u8;
    y[2] = (state / 256 / 256 % 256) as u8;
    y[3] = (state / 256 / 256 / 256) as u8;
    let last = m.len() - 290;
    let mut i = 0;
    while i < last {
        let n = (last - i).min(2048);
        fold(&mut y, &m[i..], n);
        slide(&mut y, n);
        i += n;
    }
    clear(&mut y);
    let mut r = [0u8; 290];
    rest(&mut r, &y, &m[last..]);
    after_rest(&r)
}

// The same for callers. There are several, which keeps the compiler from merging it, with its
// buffer, into the path of short data. `&bytes[0..]`: see `short`.
fn long_register(state: u32, bytes: &[u8]) -> u32
    requires { 290 ≤ length bytes.now }
    ensures { result ≡ register state bytes.now }
{
    long(state, &bytes[0..])
}

// The register after the bytes of a slice, from any register: data may come in parts.
pub fn update(state: u32, bytes: &[u8]) -> u32
    ensures { result ≡ register state bytes.now }
{
    if bytes.len() < LONG {
        short(state, bytes)
    } else {
        long_register(state, bytes)
    }
}

// The checksum of a slice.
pub fn checksum(bytes: &[u8]) -> u32
    ensures { result ≡ crc32c bytes.now }
{
    if bytes.len() < LONG {
        short(0xFFFF_FFFF, bytes) ^ 0xFFFF_FFFF
    } else {
        long_register(0xFFFF_FFFF, bytes) ^ 0xFFFF_FFFF
    }
}

// ---- by a caller's table

// Two bytes and four, looked up in the rows from k on.
fn look_up2(t: &[u32], k: usize, x: u16) -> u32
    requires { (2048 ≤ length t.now) × (k < 7) }
    ensures { result ≡ look_up2 t.now k x }
{
    let i = (k + 1) * 256 + usize::from(x % 256);
    let j = k * 256 + usize::from(x / 256);
    t[i] ^ t[j]
}

fn look_up4(t: &[u32], k: usize, x: u32) -> u32
    requires { (2048 ≤ length t.now) × (k < 5) }
    ensures { result ≡ look_up4 t.now k x }
{
    let n = k + 2;
    look_up2(t, n, (x % 0x1_0000) as u16) ^ look_up2(t, k, (x / 0x1_0000) as u16)
}

// The register after one byte, after four, and after eight.
fn table_byte(t: &[u32], state: u32, b: u8) -> u32
    requires { 2048 ≤ length t.now }
    ensures { result ≡ table_step1 t.now state (b ∷ []) }
{
    let x = state ^ numbers::wide32(b);
    let i = (x % 256) as usize;
    t[i] ^ (x / 256)
}

fn table_step4(t: &[u32], state: u32, s: &[u8], at: usize) -> u32
    requires { (2048 ≤ length t.now) × (at + 4 ≤ length s.now) }
    ensures { result ≡ table_step4 t.now state (drop at s.now) }
{
    look_up4(t, 0, state ^ load4(s, at))
}

fn table_step8(t: &[u32], state: u32, s: &[u8], at: usize) -> u32
    requires { (2048 ≤ length t.now) × (at + 8 ≤ length s.now) }
    ensures { result ≡ table_step8 t.now state (drop at s.now) }
{
    let next = at + 4;
    look_up4(t, 0, load4(s, next)) ^ look_up4(t, 4, state ^ load4(s, at))
}

// The register after as many eights as there are, after four more where four are left, and after
// the rest.
fn table_eights(t: &[u32], state: u32, s: &[u8]) -> u32
    requires { 2048 ≤ length t.now }
    ensures { result ≡ steps 8 (table_step8 t.now) (length s.now / 8) state s.now }
{
    let n = s.len();
    let mut c = state;
    let mut i = 0;
    while 8 <= n - i {
        c = table_step8(t, c, s, i);
        i += 8;
    }
    c
}

fn table_four(t: &[u32], state: u32, s: &[u8], at: usize) -> u32
    requires { (2048 ≤ length t.now) × (at ≤ length s.now) × (length s.now - at < 8) }
    ensures { result ≡ steps 4 (table_step4 t.now) ((length s.now - at) / 4) state
        (drop at s.now) }
{
    if 4 <= s.len() - at {
        table_step4(t, state, s, at)
    } else {
        state
    }
}

fn table_singles(t: &[u32], state: u32, s: &[u8], at: usize) -> u32
    requires { (2048 ≤ length t.now) × (at ≤ length s.now) }
    ensures { result ≡ steps 1 (table_step1 t.now) (length s.now - at) state
        (drop at s.now) }
{
    let mut c = state;
    // By index: over the slice the compiler unrolls the loop, which takes longer for so few bytes.
    for i in at..s.len() {
        c = table_byte(t, c, s[i]);
    }
    c
}

// The register after short data, by a table.
fn table_register(t: &[u32], state: u32, s: &[u8]) -> u32
    requires { 2048 ≤ length t.now }
    ensures { result ≡ table_register t.now state s.now }
{
    let n = s.len();
    let past_eights = n - n % 8;
    let past_fours = n - n % 4;
    let a = table_eights(t, state, s);
    let b = table_four(t, a, s, past_eights);
    table_singles(t, b, s, past_fours)
}

// The same as one piece of machine code: the functions that it calls are inlined, and `&s[0..]` has
// the slices passed in registers. To pass them in memory would take longer than the sum.
fn register_by_table(t: &[u32], state: u32, s: &[u8]) -> u32
    requires { 2048 ≤ length t.now }
    ensures { result ≡ table_register t.now state s.now }
{
    table_register(&t[0..], state, &s[0..])
}

// The register after the bytes of a slice, from any register, by a caller-owned table; one of fewer
// than 2,048 entries counts as none.
pub fn update_with_table(table: &[u32], state: u32, bytes: &[u8]) -> u32
    ensures { result ≡ register_by table.now state bytes.now }
{
    if LONG <= bytes.len() {
        long_register(state, bytes)
    } else if table.len() < 2048 {
        short(state, bytes)
    } else {
        register_by_table(table, state, bytes)
    }
}

// The register after three bytes, likewise. They are in no slice, so that none has to be stored.
pub fn update3(table: &[u32], state: u32, first: u8, second: u8, third: u8) -> u32
    ensures { result ≡ register_by table.now state (first ∷ second ∷ third ∷ []) }
{
    if table.len() < 2048 {
        let bytes = [first, second, third];
        return short(state, &bytes);
    }
    let a = table_byte(table, state, first);
    let b = table_byte(table, a, second);
    table_byte(table, b, third)
}

// The checksum by a table whose length is known.
pub fn checksum_with_table(table: &[u32; 2048], bytes: &[u8]) -> u32
    ensures { result ≡ sum_by table.now bytes.now }
{
    if LONG <= bytes.len() {
        long_register(0xFFFF_FFFF, bytes) ^ 0xFFFF_FFFF
    } else {
        register_by_table(table, 0xFFFF_FFFF, bytes) ^ 0xFFFF_FFFF
    }
}
