// The days of a week, tested.
ghost use Rattle.std.specs.Prelude.{cond, Some, ◌≡◌, ◌+◌, ◌*◌, ◌<◌};
ghost use Rattle.weeks.specs.Editions.{minutes};
ghost use Rattle.weeks.specs.Weeks.{wrong, wrong_day, uneven, uneven_day, lowest_day, some_day};

use crate::times::units;
use crate::{Edition, Week};

// The lowest day whose times are wrong, and the lowest with a minute that another edition cannot tell.
#[derive(Clone, Copy)]
pub struct Faults {
    pub wrong: Option<u8>,
    pub uneven: Option<u8>,
}

// A time is above the limit, or the day closes before it opens. An opening above the limit need not be looked for: then the closing is above
// it too, or below the opening.
fn is_wrong(e: Edition, opens: u64, closes: u64) -> bool
    ensures { result ≡ wrong e opens closes }
{
    (e.limit() < closes) | (closes < opens)
}

// A time of edition e is no whole number of o's units.
fn is_uneven(e: Edition, o: Edition, t: u64) -> bool
    requires { t < 65536 }
    ensures { result ≡ uneven o (minutes e * t) }
{
    o.minutes() * units(e, o, t) != e.minutes() * t
}

// The day if it fails, or else what was found of the days above it.
fn lower(fails: bool, d: u8, above: Option<u8>) -> Option<u8>
    ensures { result ≡ cond fails (Some d) above }
{
    if fails {
        return Some(d);
    }
    above
}

impl Week<'_> {
    // Both tests in one pass, from Sunday down, so that the last day that is found is the lowest. It does not end at a fault: those are
    // rare. Inlined, since a call copies the week to memory: so a week test took 12.6 ns in place of 8.1, a conversion 22 in place of 18.
    #[inline(always)]
    pub(crate) fn faults(self, o: Edition) -> Faults
        ensures { (result.wrong ≡ some_day (lowest_day (wrong_day self.entry.edition self.entry.bytes.now))) × (result.uneven ≡ some_day (lowest_day (uneven_day self.entry.edition o self.entry.bytes.now))) }
    {
        let e = self.edition;
        let mut wrong = None;
        let mut uneven = None;
        for d in (0..Edition::DAYS).rev() {
            let opens = self.time(2 * d);
            let closes = self.time(2 * d + 1);
            let day = d as u8 + 1;
            wrong = lower(is_wrong(e, opens, closes), day, wrong);
            uneven = lower(
                is_uneven(e, o, opens) | is_uneven(e, o, closes),
                day,
                uneven,
            );
        }
        Faults { wrong, uneven }
    }
}
