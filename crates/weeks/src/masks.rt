// The keyholder mask of a week: read, tested and written. It stands behind the times.
ghost use Rattle.std.specs.Prelude.{◌≡◌, ◌++◌, ◌*◌, length, take};
ghost use Rattle.encoding.specs.Bytes.{bytes};
ghost use Rattle.weeks.specs.Editions.{times_a_week, size, width, mask_size};
ghost use Rattle.weeks.specs.Weeks.{keyholders, enough_keyholders};

use crate::times::{put_two, two_bytes};
use crate::{Edition, Week};

impl Week<'_> {
    // The mask, 0 where the edition has none.
    pub(crate) fn keyholders(self) -> u16
        ensures { result ≡ keyholders self.entry.edition self.entry.bytes.now }
    {
        if self.edition.mask_size() == 0 {
            return 0;
        }
        two_bytes(self.bytes, self.edition.width() * Edition::TIMES) as u16
    }
}

// Dual custody: where the edition has a mask, at least two of its bits are set.
pub(crate) fn enough_keyholders(e: Edition, mask: u16) -> bool
    ensures { result ≡ enough_keyholders e mask }
{
    (e.mask_size() == 0) | (2 <= u16::count_ones(mask))
}

// Writes the mask behind the times, where the edition has one.
pub(crate) fn put_mask(o: Edition, mask: u16, out: &mut [u8])
    requires { length out.old ≡ size o }
    ensures { out.new ≡ take (width o * times_a_week) out.old ++ bytes (mask_size o) mask }
{
    if o.mask_size() == 0 {
        return;
    }
    put_two(out, o.width() * Edition::TIMES, mask as u64);
}
