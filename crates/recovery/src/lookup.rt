// Look-ups in what is lent: the page at a place, the fate of an action and the place of its outcome, the sealed image of a file. They
// take every number.
ghost use Rattle.std.specs.Prelude.{◌||◌, ◌≡◌, ◌/◌, eqb, length};
ghost use Rattle.page.specs.Layout.{page_size};
ghost use Rattle.page.specs.Answers.{tested, is_blank_page, is_outcome_of, image_of_file};
ghost use Rattle.recovery.specs.Places.{nth};
ghost use Rattle.recovery.specs.Sheet.{page_bytes, is_opening, decoded};
ghost use Rattle.recovery.specs.World.{is_carried};
ghost use Rattle.recovery.specs.Steps.{has_place, part_at, counted_fate, outcome_in, sealed_image};

use page::{Page, Unpacked};

// Whether the sheet has such a place.
fn has_place(sheet: &[u8], place: u64) -> bool
    ensures { result ≡ has_place sheet.now place }
{
    (1 <= place) & (place <= (sheet.len() / Page::SIZE) as u64)
}

// The part of a place: its 64 bytes, none where the sheet has no such place. It needs no file count, and so no View.
#[tactic(auto, using(crate::proofs::Pages::part_none, crate::proofs::Pages::part_some))]
pub fn part_at(sheet: &[u8], place: u64) -> &[u8]
    ensures { result.now ≡ part_at sheet.now place }
{
    if !has_place(sheet, place) {
        return &sheet[0..0];
    }
    let a = Page::SIZE * (place as usize - 1);
    &sheet[a..a + Page::SIZE]
}

// The lent fate of an action, 0 for no place. A number and no enum: a lent byte may hold any, document 01 gives each a meaning, and
// test answers it as it is.
pub fn fate_at(fates: &[u8], action: u64) -> u64
    ensures { result ≡ nth 0 fates.now action }
{
    let Some(at) = action.checked_sub(1) else {
        return 0;
    };
    fates.get(at as usize).map_or(0, |fate| *fate as u64)
}

// Undecided or committed.
fn is_counted(fate: u64) -> bool
    ensures { result ≡ (eqb fate 1 || eqb fate 2) }
{
    matches!(fate, 1 | 2)
}

// A sheet as it is read, for a file count.
#[derive(Clone, Copy)]
pub struct View<'a> {
    pub sheet: &'a [u8],
    pub files: u64,
}

// Each look-up hands the part of a place to the page's function of its name.
impl<'a> View<'a> {
    // How many places the sheet has.
    pub fn pages(self) -> u64
        ensures { result ≡ length self.entry.sheet.now / page_size }
    {
        (self.sheet.len() / Page::SIZE) as u64
    }

    // The page at a place, by the page test on its part of the sheet; Refused where the sheet has no such place.
    #[tactic(auto, using(crate::proofs::Pages::part_tested))]
    pub fn page_at(self, place: u64) -> Unpacked
        ensures { result ≡ tested (page_bytes self.entry.sheet.now place) place self.entry.files }
    {
        Page::test(part_at(self.sheet, place), place, self.files)
    }

    // The quick look at a place; none where the sheet has no such place.
    #[tactic(auto, using(crate::proofs::Pages::part_tested))]
    pub fn seek_at(self, place: u64, file: u64) -> Option<Page>
        ensures { result ≡ image_of_file file (tested (page_bytes self.entry.sheet.now place) place self.entry.files) }
    {
        // Asked here too, so that the machine need not choose between the part and an empty one.
        if !has_place(self.sheet, place) {
            return None;
        }
        Page::seek(part_at(self.sheet, place), place, self.files, file)
    }

    // Whether the page at a place is blank.
    #[tactic(auto, using(crate::proofs::Pages::part_tested))]
    pub fn is_blank_at(self, place: u64) -> bool
        ensures { result ≡ is_blank_page (tested (page_bytes self.entry.sheet.now place) place self.entry.files) }
    {
        Page::is_blank(part_at(self.sheet, place), place, self.files)
    }

    // Whether the page at a place is an opening.
    #[tactic(auto, using(crate::proofs::Pages::part_tested, crate::proofs::Lookups::opening_decoded))]
    pub fn is_opening_at(self, place: u64) -> bool
        ensures { result ≡ is_opening (decoded self.entry.files self.entry.sheet.now place) }
    {
        Page::is_opening(part_at(self.sheet, place), place, self.files)
    }

    // Whether the page at a place is a carried opening.
    #[tactic(auto, using(crate::proofs::Pages::part_tested, crate::proofs::Lookups::carried_decoded))]
    pub fn is_carried_at(self, place: u64) -> bool
        ensures { result ≡ is_carried (decoded self.entry.files self.entry.sheet.now place) }
    {
        Page::is_carried(part_at(self.sheet, place), place, self.files)
    }

    // Whether the page at a place is an outcome of an action.
    #[tactic(auto, using(crate::proofs::Pages::part_tested))]
    fn is_outcome_at(self, place: u64, action: u64) -> bool
        ensures { result ≡ is_outcome_of action (tested (page_bytes self.entry.sheet.now place) place self.entry.files) }
    {
        // Asked here too, as in seek_at.
        if !has_place(self.sheet, place) {
            return false;
        }
        Page::is_outcome_of(part_at(self.sheet, place), place, self.files, action)
    }

    // The place of an action's newest sealed outcome up to the end, going down from there as far as the action's opening, past any other
    // page at once. 0 if there is none, and no None: 0 is the place that test answers then (`outcome_of`).
    pub fn outcome_place(self, end: u64, action: u64) -> u64
        ensures { result ≡ outcome_in self.entry.sheet.now self.entry.files end action }
    {
        if !self.is_opening_at(action) {
            return 0;
        }
        let top = end.min(self.pages());
        for place in (action + 1..=top).rev() {
            if self.is_outcome_at(place, action) {
                return place;
            }
        }
        0
    }

    // The fields of a sealed image of a file at a place.
    #[tactic(auto, using(crate::proofs::Held::image_none, crate::proofs::Held::image_unsealed, crate::proofs::Held::image_sealed))]
    pub fn image_at(self, place: u64, file: u64) -> Option<Page>
        ensures { result ≡ sealed_image self.entry.files self.entry.sheet.now file place }
    {
        // Handed on as it was found: a copy would wait for its stores (docs/DECISIONS.md, Speed).
        let found = self.seek_at(place, file);
        if !self.is_opening_at(found?.action) {
            return None;
        }
        found
    }

    // The fate under which images of an action count, or 0, that of no action, as the lent fates have it; the opening is looked at only where
    // the fate could count.
    #[tactic(auto, unfolding(crate::specs::Steps::counted_fate))]
    pub fn counted_fate(self, fates: &[u8], action: u64) -> u64
        ensures { result ≡ counted_fate self.entry.files self.entry.sheet.now fates.now action }
    {
        let fate = fate_at(fates, action);
        if is_counted(fate) && self.is_opening_at(action) {
            fate
        } else {
            0
        }
    }
}
