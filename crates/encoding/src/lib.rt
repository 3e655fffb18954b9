// Runs of bytes: little-endian numbers, zeros, copies, and the check word of a page.
// Every public function takes every run: none asks anything of its caller.
#![tactic(auto)]

mod words;

ghost use Rattle.std.specs.Prelude.{cond, ◌≡◌, ◌+◌, ◌-◌, ◌≤◌, ◌<◌, min, ◌++◌, length, take, drop, get_or, eqb};
ghost use Rattle.encoding.specs.Bytes.{part, number, bytes, zeros};

pub use words::{check_few, check_word};

// The byte at an index, 0 past the end.
pub fn byte_at(s: &[u8], at: usize) -> u64
    ensures value { result ≡ get_or s.now at 0 }
    ensures fits { result < 256 }
{
    s.get(at).map_or(0, |b| u64::from(*b))
}

// The number in the four bytes from an index on; those past the end count as 0.
fn read_four(s: &[u8], at: usize) -> u64
    requires { at ≤ 4 }
    ensures value { result ≡ number (take 4 (drop at s.now)) }
    ensures fits { result < 4294967296 }
{
    byte_at(s, at)
        + (byte_at(s, at + 1) << 8)
        + (byte_at(s, at + 2) << 16)
        + (byte_at(s, at + 3) << 24)
}

// The number in the first eight bytes, or in all of a shorter run, which from_le_bytes does not take. It compiles to one load where the
// length is known.
pub fn read_number(s: &[u8]) -> u64
    ensures { result ≡ number (take 8 s.now) }
{
    read_four(s, 0) + (read_four(s, 4) << 32)
}

// Fills the run with a number's lowest bytes, lowest first, one by one: a page is stored in that order (tests/order.c), as a copy of
// to_le_bytes need not be.
pub fn write_number(out: &mut [u8], x: u64)
    ensures { out.new ≡ bytes (length out.old) x }
{
    let mut y = x;
    for b in out.iter_mut() {
        *b = (y % 256) as u8;
        y /= 256;
    }
}

// Eight bytes at once: one load and one store.
fn copy_eight(out: &mut [u8], s: &[u8], at: usize)
    requires { (at + 8 ≤ length out.old) × (at + 8 ≤ length s.now) }
    ensures { take (at + 8) out.new ≡ take at out.old ++ part at (at + 8) s.now }
{
    let end = at + 8;
    write_number(&mut out[at..end], read_number(&s[at..end]));
}

// The 32 bytes of a page's value, from the first on, as a page is stored: copy_from_slice need not go so.
fn copy_value(out: &mut [u8], s: &[u8])
    requires { (length out.old ≡ 32) × (length s.now ≡ 32) }
    ensures { out.new ≡ s.now }
{
    copy_eight(out, s, 0);
    copy_eight(out, s, 8);
    copy_eight(out, s, 16);
    copy_eight(out, s, 24);
}

// By a loop: for copy_from_slice of runs of any length an archive for C would need memmove from outside.
fn copy_all(out: &mut [u8], s: &[u8])
    requires { length out.old ≡ length s.now }
    ensures { out.new ≡ s.now }
{
    for (i, b) in out.iter_mut().enumerate() {
        *b = s[i];
    }
}

// Fills the run with another as long; one of another length changes nothing.
pub fn copy(out: &mut [u8], s: &[u8])
    ensures { out.new ≡ cond (eqb (length out.old) (length s.now)) s.now out.old }
{
    if out.len() != s.len() {
        return;
    }
    if s.len() == 32 {
        copy_value(out, s);
        return;
    }
    copy_all(out, s);
}

// Every byte is 0. One pass without an early end, so that many bytes are looked at in one step.
pub fn is_zero(s: &[u8]) -> bool
    ensures { result ≡ zeros s.now }
{
    let mut x: u8 = 0;
    for b in s {
        x |= *b;
    }
    x == 0
}

// The number in the bytes from `from` on of the first eight.
fn past(s: &[u8], from: u64) -> u64
    ensures { result ≡ number (drop from (take 8 s.now)) }
{
    if 8 <= from {
        return 0;
    }
    read_number(s) >> (8 * from)
}

// The bytes from `from` on of 32 are 0: four numbers, and no loop.
fn is_zero_in_value(s: &[u8], from: u64) -> bool
    requires { length s.now ≡ 32 }
    ensures { result ≡ zeros (drop from s.now) }
{
    let a = past(&s[0..8], from);
    let b = past(&s[8..16], from.saturating_sub(8));
    let c = past(&s[16..24], from.saturating_sub(16));
    let d = past(&s[24..32], from.saturating_sub(24));
    a | b | c | d == 0
}

// The bytes from `from` on are 0. The 32 bytes of a page's value go the fast way.
pub fn is_zero_from(s: &[u8], from: u64) -> bool
    ensures { result ≡ zeros (drop from s.now) }
{
    if s.len() == 32 {
        return is_zero_in_value(s, from);
    }
    let n = s.len();
    if n as u64 <= from {
        return true;
    }
    let at = from as usize;
    is_zero(&s[at..n])
}
