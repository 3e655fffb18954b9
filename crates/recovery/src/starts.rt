// The highest start on a sheet. With it as the floor of an opening, no write is accepted at or below any start on the sheet.
ghost use Rattle.std.specs.Prelude.{◌≡◌};
ghost use Rattle.recovery.specs.Log.{start_step};
ghost use Rattle.recovery.specs.Sheet.{sealed};
ghost use Rattle.recovery.specs.Lent.{highest_start_of};

use crate::lookup::{View, part_at};
use page::Page;

impl View<'_> {
    // A start, or that of the sealed image at a place if it is higher.
    #[tactic(auto, using(crate::proofs::HighestStart::look_none, crate::proofs::HighestStart::look_unsealed, crate::proofs::HighestStart::look_sealed))]
    fn or_higher(self, place: u64, start: u64) -> u64
        ensures { result ≡ start_step (sealed self.entry.files self.entry.sheet.now place) start }
    {
        let found = Page::seek_above(part_at(self.sheet, place), place, self.files, start);
        let Some(image) = found else {
            return start;
        };
        if !self.is_opening_at(image.action) {
            return start;
        }
        image.start
    }

    // The highest start of any sealed image, 0 if there is none. From the last page down: starts mostly grow, so that soon every image is
    // passed over by its start alone.
    pub fn highest_start(self) -> u64
        ensures { result ≡ highest_start_of self.entry.sheet.now self.entry.files }
    {
        let mut highest = 0;
        for place in (1..=self.pages()).rev() {
            highest = self.or_higher(place, highest);
        }
        highest
    }
}

// The same of a sheet and a file count, for a program (docs/LIMITS.md).
pub fn highest_start(sheet: &[u8], files: u64) -> u64
    ensures { result ≡ highest_start_of sheet.now files }
{
    View { sheet, files }.highest_start()
}
