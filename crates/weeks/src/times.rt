// The bytes of a week and its times: read, brought to another edition's units, and written.
ghost use Rattle.std.specs.Prelude.{not, ◌≡◌, ◌++◌, ◌+◌, ◌*◌, ◌≤◌, ◌<◌, eqb, length, take, drop, get_or};
ghost use Rattle.encoding.specs.Bytes.{number, bytes};
ghost use Rattle.weeks.specs.Editions.{times_a_week, size, width, minutes};
ghost use Rattle.weeks.specs.Weeks.{time, uneven};

use crate::{Edition, Week};

// A byte of a week. It and the pairs below are no `encoding::byte_at`, `read_number` and `write_number`: those take runs of any length, and
// would test each index of a week that is long enough, and a conversion took twice as long (docs/DECISIONS.md, Weeks).
fn byte(week: &[u8], at: usize) -> u64
    requires { at < length week.now }
    ensures value { result ≡ get_or week.now at 0 }
    ensures fits { result < 256 }
{
    u64::from(week[at])
}

// Two bytes of a week, the low one first.
pub(crate) fn two_bytes(week: &[u8], at: usize) -> u64
    requires { at + 2 ≤ length week.now }
    ensures value { result ≡ number (take 2 (drop at week.now)) }
    ensures fits { result < 65536 }
{
    byte(week, at) + (byte(week, at + 1) << 8)
}

impl Week<'_> {
    // Time k, from 0.
    pub(crate) fn time(self, k: usize) -> u64
        requires { k < times_a_week }
        ensures value { result ≡ time self.entry.edition self.entry.bytes.now k }
        ensures fits { result < 65536 }
    {
        match self.edition {
            Edition::First => byte(self.bytes, k),
            Edition::Second | Edition::Third => two_bytes(self.bytes, 2 * k),
        }
    }
}

// Time t of edition e in o's units: the number of them that gives the same minutes, if there is one. It is an exact division by 15 as a
// product: 15 × 978,671 leaves 1 by 1,048,576, so that 978,671 times a multiple of 15 leaves a fifteenth of it.
pub(crate) fn units(e: Edition, o: Edition, t: u64) -> u64
    requires { t < 65536 }
    ensures t_value { uneven o (minutes e * t) ≡ not (eqb (minutes o * result) (minutes e * t)) }
    ensures fits { result < 1048576 }
{
    let m = e.minutes() * t;
    if o.minutes() == 1 {
        return m;
    }
    (m * 978671) & 0xfffff
}

// Writes two bytes, the low one first; the bytes before them stay.
pub(crate) fn put_two(out: &mut [u8], at: usize, x: u64)
    requires { at + 2 ≤ length out.old }
    ensures { take (at + 2) out.new ≡ take at out.old ++ bytes 2 x }
{
    out[at] = (x % 256) as u8;
    out[at + 1] = (x / 256 % 256) as u8;
}

// Writes time k; the bytes before it stay.
pub(crate) fn put_time(o: Edition, out: &mut [u8], k: usize, x: u64)
    requires { (length out.old ≡ size o) × (k < times_a_week) }
    ensures { take (width o * k + width o) out.new ≡ take (width o * k) out.old ++ bytes (width o) x }
{
    match o {
        Edition::First => out[k] = (x % 256) as u8,
        Edition::Second | Edition::Third => put_two(out, 2 * k, x),
    }
}
