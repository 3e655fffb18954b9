// The climb: one pass upward over the pages. A small sheet has few fates to be cleared: 64 KiB of them take long beside a pass over a few
// hundred pages.
ghost use Rattle.std.specs.Prelude.{◌≡◌, ◌/◌, ◌≤◌, ◌<◌, suc, length, get_or, leb};
ghost use Rattle.page.specs.Layout.{page_size, most_places, most_files};
ghost use Rattle.recovery.specs.World.{down, end_of};
ghost use Rattle.recovery.specs.Lent.{pages_of};
ghost use Rattle.inspection.specs.Lawful.{lowest_unlawful};
ghost use Rattle.inspection.specs.Inspected.{inspected};
ghost use Rattle.inspection.specs.SomePlace.{some_place};
ghost use Rattle.inspection.specs.ClimbSteps.{version_in, image_fits_in, page_fits_in, keep_image, keep_page, FileInRange, InRange};

use crate::{InspectError, is_inspectable};
use page::{Page, Unpacked};
use recovery::{FEW_PAGES, View};

// An image: its place, its action and its start. Place 0 is none, and no Option is: an image links to place 0 where its file has no
// version, and one comparison serves both.
#[derive(Clone, Copy)]
struct Slot {
    place: u64,
    action: u64,
    start: u64,
}

impl Slot {
    const NONE: Slot = Slot {
        place: 0,
        action: 0,
        start: 0,
    };
}

// A slot for every file, from file 0 on.
const SLOTS: usize = Page::MOST_FILES as usize + 1;

// How many fates a small sheet needs, and any sheet: one for every place, from place 0 on.
const FEW_FATES: usize = FEW_PAGES + 1;

const MOST_FATES: usize = Page::MOST_PLACES as usize + 1;

// What is kept of the pages below, on the stack, as there is no heap: a fate for each place below N, and for each file its newest image and
// the newest version below that. A fate is a number as in the lent fates (`fate_number`): the laws of the log speak of those.
#[derive(Drop)]
struct Kept<const N: usize> {
    fates: [u8; N],
    newest: [Slot; SLOTS],
    below: [Slot; SLOTS],
}

// That a page's file has a slot is asked for by three methods, and is no invariant of `Page`: a page out of range must be a value too,
// since `Page::pack` refuses it.
impl<const N: usize> Kept<N> {
    // The fate kept of an action, 0 for a number that is no place.
    fn fate_of(&self, action: u64) -> u8
        ensures { result ≡ get_or self.now.fates action 0 }
    {
        self.fates.get(action as usize).copied().unwrap_or(0)
    }

    // The newest version of a file: its newest image if that is committed by now.
    #[tactic(auto, unfolding(crate::specs::ClimbSteps::version_in))]
    fn version_of(&self, file: u64) -> Slot
        requires { file ≤ most_files }
        ensures { result ≡ version_in self.now file }
    {
        let last = self.newest[file as usize];
        if self.fate_of(last.action) == 2 {
            return last;
        }
        self.below[file as usize]
    }

    // Whether an image fits the pages below it.
    #[tactic(auto, unfolding(crate::specs::ClimbSteps::image_fits_in))]
    fn image_fits(&self, p: Page) -> bool
        requires { p.file ≤ most_files }
        ensures { result ≡ image_fits_in self.now p }
    {
        if self.fate_of(p.action) != 1 {
            return false;
        }
        let last = self.newest[p.file as usize];
        if (self.fate_of(last.action) == 1) & (last.action != p.action) {
            return false;
        }
        let version = self.version_of(p.file);
        (p.link == version.place) & (version.start < p.start)
    }

    // Whether a page fits the pages below it.
    fn page_fits(&self, found: Unpacked) -> bool
        requires { FileInRange found }
        ensures { result ≡ page_fits_in self.now found }
    {
        match found {
            Unpacked::Torn | Unpacked::Opening(_) => true,
            Unpacked::Image(p) => self.image_fits(p),
            Unpacked::Outcome(p) => self.fate_of(p.action) == 1,
            _ => false,
        }
    }

    // Keeps an image as the newest of its file, above the version found until now.
    #[tactic(auto, unfolding(crate::specs::ClimbSteps::keep_image))]
    fn keep_image(&mut self, p: Page, place: u64)
        requires { p.file ≤ most_files }
        ensures { self.new ≡ keep_image self.old p place }
    {
        self.below[p.file as usize] = self.version_of(p.file);
        self.newest[p.file as usize] = Slot {
            place,
            action: p.action,
            start: p.start,
        };
    }

    // Keeps what a page that fits says.
    fn keep_page(&mut self, found: Unpacked, place: u64)
        requires { InRange place found × (place < N) }
        ensures { self.new ≡ keep_page self.old found place }
    {
        match found {
            Unpacked::Opening(_) => self.fates[place as usize] = 1,
            Unpacked::Image(p) => self.keep_image(p, place),
            Unpacked::Outcome(p) => {
                let fate = p.small + 1;
                self.fates[p.action as usize] = fate as u8;
            }
            _ => {}
        }
    }
}

// The lowest place that is bad or does not fit the pages below it.
fn climb<const N: usize>(view: View) -> Option<u64>
    requires { (length view.sheet.now / page_size < N) × (N ≤ suc most_places) }
    ensures { result ≡ some_place (lowest_unlawful (down (pages_of view.entry.sheet.now view.entry.files) (length view.entry.sheet.now / page_size))) }
{
    let mut kept: Kept<N> = Kept {
        fates: [0; N],
        newest: [Slot::NONE; SLOTS],
        below: [Slot::NONE; SLOTS],
    };
    for place in 1..=view.pages() {
        let found = view.page_at(place);
        if !kept.page_fits(found) {
            return Some(place);
        }
        kept.keep_page(found, place);
    }
    None
}

// The climb, with arrays by the sheet's size. How many pages a sheet may have is line 1's, asked here and no field of View: other looks take
// sheets of any size.
fn climb_sheet(view: View) -> Option<u64>
    requires { length view.sheet.now / page_size ≤ most_places }
    ensures { result ≡ some_place (lowest_unlawful (down (pages_of view.entry.sheet.now view.entry.files) (length view.entry.sheet.now / page_size))) }
{
    if view.pages() <= FEW_PAGES as u64 {
        return climb::<FEW_FATES>(view);
    }
    climb::<MOST_FATES>(view)
}

// Whether a page from a place on is not blank.
fn is_used_from(view: View, from: u64) -> bool
    requires { (1 ≤ from) × (length view.sheet.now / page_size ≤ most_places) }
    ensures { result ≡ leb from (end_of (pages_of view.entry.sheet.now view.entry.files) (length view.entry.sheet.now / page_size)) }
{
    for place in from..=view.pages() {
        if !view.is_blank_at(place) {
            return true;
        }
    }
    false
}

// The lowest unlawful place of a sheet that passed line 1: a blank page is none if all above it are blank.
fn lowest(view: View) -> u64
    requires { length view.sheet.now / page_size ≤ most_places }
    ensures { result ≡ lowest_unlawful (down (pages_of view.entry.sheet.now view.entry.files) (end_of (pages_of view.entry.sheet.now view.entry.files) (length view.entry.sheet.now / page_size))) }
{
    match climb_sheet(view) {
        Some(place) if is_used_from(view, place) => place,
        _ => 0,
    }
}

// Whether a sheet is lawful: 0, or the lowest place that is bad or does not fit those below it. One pass upward. 0 stays the number of
// a lawful sheet, and no None: the law `inspect_numbers` tells every two answers apart by C's numbers, where a Some(0) would be it too.
pub fn inspect(sheet: &[u8], files: u64) -> Result<u64, InspectError>
    ensures { result ≡ inspected sheet.now files }
{
    if !is_inspectable(sheet.len(), files) {
        return Err(InspectError::Sizes);
    }
    Ok(lowest(View { sheet, files }))
}
