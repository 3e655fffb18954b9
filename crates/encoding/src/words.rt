// The check word (a checksum), by sums, differences, shifts, masks and comparisons alone: no product, remainder or division.
//
// By 65,521, 65,536 leaves 15, the square of 257 leaves 528, which is 16 × 33, and 257⁸ × 480 leaves 1, where 480 is 15 × 32. So
// what has been gathered counts 480 times where eight bytes more stand in front of it. Two sums of four bytes lie in one number,
// in halves of 32 bits, and are worked on at once.
//
// A compiler makes products of sums of shifts. Which forms it leaves alone: docs/DECISIONS.md, Speed. tests/products.sh looks.
ghost use Rattle.std.specs.Prelude.{cond, ◌≡◌, ◌+◌, ◌*◌, ◌/◌, ◌%◌, ◌≤◌, ◌<◌, ◌^◌, length};
ghost use Rattle.encoding.specs.Bytes.{check};
ghost use Rattle.encoding.specs.WordSteps.{folded, four, four_of, joined, three, gathered, few};

use crate::{byte_at, read_number};

// What lies above 16 bits, HIGH bits at most, comes back 15 times. The mask of h takes nothing away, but without it h would be made part of
// a product.
fn fold<const HIGH: u32>(x: u64) -> u64
    requires { (HIGH ≤ 32) × (x < 65536 * 2 ^ HIGH) }
    ensures { result ≡ folded x }
{
    let h = (x >> 16) & ((1 << HIGH) - 1);
    (x & 0xffff) + (h << 4) - h
}

// The remainder by 65,521.
fn reduced(x: u64) -> u64
    requires { x < 131042 }
    ensures { result ≡ x % 65521 }
{
    if x < 65521 {
        return x;
    }
    x - 65521
}

// A byte more: 257 × w + b.
fn turned(w: u64, b: u64) -> u64
    requires { (w < 1099511627776) × (b < 256) }
    ensures { result ≡ 257 * w + b }
{
    (w << 8) + w + b
}

// The check word of a run of any length, byte by byte.
fn check_any(s: &[u8]) -> u64
    ensures { result ≡ check s.now }
{
    let mut w: u64 = 1;
    for b in s {
        w = fold::<11>(turned(w, u64::from(*b)));
    }
    reduced(w)
}

// The lowest byte of each half.
fn low_bytes(x: u64) -> u64
    ensures { result ≡ x % 256 + 4294967296 * (x / 4294967296 % 256) }
{
    x & 0x0000_00ff_0000_00ff
}

// The byte above the lowest four bits of each half, where it stands.
fn middle_bytes(x: u64) -> u64
    ensures { result ≡ 16 * (x / 16 % 256) + 4294967296 * (16 * (x / 4294967296 / 16 % 256)) }
{
    x & 0x0000_0ff0_0000_0ff0
}

// The eight bytes of a number, the first four and the last four by their weights, side by side.
fn fours_of(x: u64) -> u64
    ensures value { result ≡ four_of (x % 4294967296) + 4294967296 * four_of (x / 4294967296) }
    ensures fits { (four_of (x % 4294967296) ≤ 34802910) × (four_of (x / 4294967296) ≤ 34802910) }
{
    let a = middle_bytes(x << 4);
    let b = middle_bytes(x >> 4);
    let c = low_bytes(x >> 16);
    let d = low_bytes(x >> 24);
    let t = (a << 8) + a + b;
    (t << 5) + d + (c << 8) + c + t
}

// Four bytes by their weights, and the four after them, side by side.
fn fours(s: &[u8], at: usize, end: usize) -> u64
    requires { (end ≡ at + 8) × (end ≤ length s.now) }
    ensures value { result ≡ four s.now at + 4294967296 * four s.now (at + 4) }
    ensures fits { (four s.now at ≤ 34802910) × (four s.now (at + 4) ≤ 34802910) }
{
    fours_of(read_number(&s[at..end]))
}

// Each half folded: with masks for both, and no bound on either, so that it is none of `fold`.
fn fold_halves(x: u64) -> u64
    ensures { result ≡ folded (x % 4294967296) + 4294967296 * folded (x / 4294967296) }
{
    let h = (x >> 16) & 0x0000_ffff_0000_ffff;
    (x & 0x0000_ffff_0000_ffff) + (h << 4) - h
}

// Eight bytes more in front, each half by itself: 15 × (32 × a + q).
fn ahead(a: u64, q: u64) -> u64
    requires { (q % 4294967296 ≤ 34802910) × (q / 4294967296 ≤ 34802910) }
    ensures { result ≡ joined (a % 4294967296) (q % 4294967296) + 4294967296 * joined (a / 4294967296) (q / 4294967296) }
{
    let x = (fold_halves(a) << 5) + q;
    (x << 4) - x
}

// Three groups of four bytes, eight bytes apart, and the three between them. AT is a parameter so that each of the two is a function of its
// own, called once: the compiler then puts it in place and knows its indices.
fn three<const AT: usize>(s: &[u8; 60]) -> u64
    requires { AT + 24 ≤ 60 }
    ensures result_value { result % 4294967296 % 65521 ≡ three s.now AT % 65521 }
    ensures high { result / 4294967296 % 65521 ≡ three s.now (AT + 4) % 65521 }
{
    let a = ahead(0, fours(s, AT + 16, AT + 24));
    let b = ahead(a, fours(s, AT + 8, AT + 16));
    ahead(b, fours(s, AT, AT + 8))
}

// Bytes 0 to 31, in the same way.
fn early(s: &[u8; 60]) -> u64
    ensures result_value { result % 4294967296 % 65521 ≡ (480 * three s.now 8 + 15 * four s.now 0) % 65521 }
    ensures high { result / 4294967296 % 65521 ≡ (480 * three s.now 12 + 15 * four s.now 4) % 65521 }
{
    ahead(three::<8>(s), fours(s, 0, 8))
}

// Doubled, and one more number.
fn twice(x: u64, y: u64) -> u64
    requires { (x < 1099511627776) × (y < 1099511627776) }
    ensures { result ≡ 2 * x + y }
{
    (x << 1) + y
}

// Four numbers by the high eight bits of their weights, all at once: double, and add those whose weight has the bit. The bounds are of this
// sum alone, and so stand here and in no type.
fn weigh_high(a: u64, b: u64, c: u64, d: u64) -> u64
    requires { (a ≤ 1048560) × (b ≤ 1048560) × (c ≤ 1048560) × (d ≤ 1048560) }
    ensures { result ≡ 227 * a + 153 * b + 66 * c + 164 * d }
{
    let ab = a + b;
    let ac = a + c;
    let w = twice(twice(ab + d, ac), a + d);
    let v = twice(twice(w, b), b);
    twice(twice(twice(v, d), ac), ab)
}

// By the low eight.
fn weigh_low(a: u64, b: u64, c: u64, d: u64) -> u64
    requires { (a ≤ 1048560) × (b ≤ 1048560) × (c ≤ 1048560) × (d ≤ 1048560) }
    ensures { result ≡ 20 * a + 101 * b + 57 * c + 25 * d }
{
    let cd = c + d;
    let w = twice(twice(b, b + c), a + cd);
    let v = twice(twice(w, cd), a + b);
    (v << 2) + b + cd
}

// Four numbers by their weights.
fn weigh(a: u64, b: u64, c: u64, d: u64) -> u64
    requires { (a ≤ 1048560) × (b ≤ 1048560) × (c ≤ 1048560) × (d ≤ 1048560) }
    ensures { result ≡ 58132 * a + 39269 * b + 16953 * c + 42009 * d }
{
    (weigh_high(a, b, c, d) << 8) + weigh_low(a, b, c, d)
}

// The first of two halves.
fn low_half(x: u64) -> u64
    ensures { result ≡ x % 4294967296 }
{
    x & 0xffff_ffff
}

// The last four bytes.
fn last(s: &[u8], at: usize) -> u64
    requires { at ≤ 60 }
    ensures result_value { result % 65521 ≡ four s.now at % 65521 }
    ensures fits { result < 4400000000 }
{
    let a = turned(byte_at(s, at), byte_at(s, at + 1));
    turned(turned(a, byte_at(s, at + 2)), byte_at(s, at + 3))
}

// The first 56 of 60 bytes: the halves of two numbers, each by its weight.
fn gather(s: &[u8; 60]) -> u64
    ensures result_value { result % 65521 ≡ gathered s.now % 65521 }
    ensures fits { result < 164000000000 }
{
    let a = fold_halves(three::<32>(s));
    let b = fold_halves(early(s));
    weigh(low_half(a), a >> 32, low_half(b), b >> 32)
}

// The check word of 60 bytes, a page's. 48,406 is what the beginning, 1, comes to.
fn check_page(s: &[u8; 60]) -> u64
    ensures { result ≡ check s.now }
{
    reduced(fold::<11>(fold::<23>(gather(s) + last(s, 56) + 48406)))
}

// The check word of a run.
pub fn check_word(s: &[u8]) -> u64
    ensures { result ≡ check s.now }
{
    let Some(page) = s.as_array::<60>() else {
        return check_any(s);
    };
    check_page(page)
}

// The lowest byte.
fn low_byte(x: u64) -> u64
    ensures { result ≡ x % 256 }
{
    x & 0xff
}

// Four turns of doubling.
fn turns(x: u64, a: u64, b: u64, c: u64, d: u64) -> u64
    requires { (x < 1073741824) × (a < 1073741824) × (b < 1073741824) × (c < 1073741824) × (d < 1073741824) }
    ensures { result ≡ 16 * x + 8 * a + 4 * b + 2 * c + d }
{
    twice(twice(twice(twice(x, a), b), c), d)
}

// Four bytes by their weights, each weight the sum of two.
fn weigh_few(a: u64, b: u64, c: u64, d: u64) -> u64
    requires { (a < 256) × (b < 256) × (c < 256) × (d < 256) }
    ensures { result ≡ 20618 * a + 38577 * b + 14682 * c + 61499 * d }
{
    let bd = b + d;
    let cd = c + d;
    let bcd = b + cd;
    let acd = a + cd;
    let ab = a + b;
    let w = turns(0, bd, a + d, cd, ab + cd);
    let v = turns(w, c, b, b, c);
    let u = turns(v, ab, c, bd, bcd);
    turns(u, acd, 0, acd, bd)
}

// What the beginning and byte 0, which is 1, come to, and byte 1, which is 1 if carried and weighs 15,231.
// A bool, as the definition `few` has a 1 or a 0.
fn first_two(carried: bool) -> u64
    ensures { result ≡ 97034 + 15231 * cond carried 1 0 }
{
    if carried {
        return 112265;
    }
    97034
}

// The check word of 60 bytes that are 0 but for 1 in byte 0, 1 in byte 1 if carried, and a number in bytes 8 to 11 and again in bytes 56
// to 59.
pub fn check_few(carried: bool, x: u64) -> u64
    ensures value { result ≡ check (few (cond carried 1 0) x) }
    ensures fits { result < 65521 }
{
    let w = weigh_few(
        low_byte(x),
        low_byte(x >> 8),
        low_byte(x >> 16),
        low_byte(x >> 24),
    );
    reduced(fold::<11>(w + first_two(carried)))
}
