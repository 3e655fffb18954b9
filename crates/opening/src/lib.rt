// Open: one pass upward over the pages finds the end, the highest bad page and the fates. The fates are kept aside, since a
// refused opening leaves those that are lent.
#![tactic(auto)]

ghost use Rattle.std.specs.Prelude.{true, ◌≡◌, ◌*◌, ◌≤◌, length, replicate};
ghost use Rattle.page.specs.Layout.{page_size, most_places};
ghost use Rattle.recovery.specs.World.{undecided_of};
ghost use Rattle.recovery.specs.Lent.{sizes_right, left_by, open_leaves};
ghost use Rattle.recovery.specs.Steps.{few_pages};
ghost use Rattle.recovery.specs.OpenSteps.{Bounded, good, worse, stepped, Scanned, unfinished_in, refused_opening};

use encoding::copy;
use page::{Page, Unpacked};
use recovery::{
    Answer, Done, FEW_PAGES, Refusal, Scan, State, View, fate_at, file_count, is_sized,
};

// A sheet's most pages.
const MOST_PAGES: usize = Page::MOST_PLACES as usize;

// How many fates are undecided.
fn count_undecided(fates: &[u8]) -> u64
    ensures { result ≡ undecided_of fates.now }
{
    let mut n = 0;
    for fate in fates {
        if *fate == 1 {
            n += 1;
        }
    }
    n
}

// A bad page becomes the end, and is the highest bad one.
fn worse(place: u64) -> Scan
    ensures { result ≡ worse place }
{
    Scan {
        end: place,
        bad: place,
    }
}

// A page that is not bad becomes the end. Blank pages between the old end and this one are bad: the highest is just below.
#[tactic(auto, unfolding(recovery::specs::OpenSteps::good))]
fn extend(scan: Scan, place: u64) -> Scan
    requires { 1 ≤ place }
    ensures { result ≡ good place scan }
{
    let bad = if scan.end < place - 1 {
        place - 1
    } else {
        scan.bad
    };
    Scan { end: place, bad }
}

// What the page at a place adds. An image or outcome is sealed exactly if a fate of its action is kept by now.
fn step(found: Unpacked, place: u64, scan: Scan, kept: &mut [u8]) -> Scan
    requires { (1 ≤ place) × (place ≤ length kept.old) × Bounded place found }
    ensures { (result, kept.new) ≡ stepped found place scan kept.old }
{
    match found {
        Unpacked::Blank => scan,
        Unpacked::Torn => extend(scan, place),
        Unpacked::Opening(_) => {
            kept[(place - 1) as usize] = 1;
            extend(scan, place)
        }
        Unpacked::Image(p) => {
            if kept[(p.action - 1) as usize] == 0 {
                return worse(place);
            }
            extend(scan, place)
        }
        Unpacked::Outcome(p) => {
            let fate = &mut kept[(p.action - 1) as usize];
            if *fate == 0 {
                return worse(place);
            }
            *fate = (p.small + 1) as u8;
            extend(scan, place)
        }
        _ => worse(place),
    }
}

// The pass: tests each page once. The kept fates, a byte a page, come in as zeros.
fn scan_pages(view: View, kept: &mut [u8]) -> Scan
    requires { (length view.sheet.now ≡ page_size * length kept.old) × (length kept.old ≤ most_places) × (kept.old ≡ replicate (length kept.old) 0) }
    ensures { Scanned view.entry.files (length kept.old) view.entry.sheet.now result kept.new }
{
    let mut scan = Scan { end: 0, bad: 0 };
    for (n, part) in view.sheet.chunks_exact(Page::SIZE).enumerate() {
        let place = n as u64 + 1;
        scan = step(Page::test(part, place, view.files), place, scan, kept);
    }
    scan
}

// Line 24, by the kept fates: a move onto this sheet has begun and has no outcome.
#[tactic(auto, unfolding(recovery::specs::OpenSteps::unfinished_in))]
fn is_unfinished(view: View, kept: &[u8]) -> bool
    ensures { result ≡ unfinished_in view.entry.files view.entry.sheet.now kept.now }
{
    view.is_carried_at(1) & (fate_at(kept, 1) == 1)
}

// A refusal answers three zeros for the state.
fn refuse(why: Refusal, place: u64) -> Done
    ensures { result ≡ refused_opening why place }
{
    Done {
        answer: Answer::Refused(why, place),
        state: State::CLOSED,
    }
}

// The pass, and what follows from it. The kept fates come in as zeros.
fn open_with(sheet: &[u8], fates: &mut [u8], rows: &mut [u64], floor: u64, kept: &mut [u8]) -> Done
    requires { (sizes_right (length sheet.now) (length fates.old) (length rows.old) ≡ true) × (length kept.old ≡ length fates.old) × (kept.old ≡ replicate (length kept.old) 0) }
    ensures { left_by result sheet.now fates.new rows.new ≡ open_leaves sheet.now fates.old rows.old floor }
{
    let files = file_count(rows.len());
    let view = View { sheet, files };
    let scan = scan_pages(view, kept);
    if scan.bad != 0 {
        return refuse(Refusal::BadPage, scan.bad);
    }
    if is_unfinished(view, kept) {
        return refuse(Refusal::UnfinishedMove, 0);
    }
    let end = scan.end;
    let undecided = count_undecided(kept);
    copy(fates, kept);
    rows.fill(0);
    Done {
        answer: Answer::Opened(end, undecided),
        state: State {
            end,
            floor,
            undecided,
        },
    }
}

// With room for so many pages, on the stack: there is no heap.
#[tactic(auto, using(recovery::proofs::OpeningRuns::zeros_long, recovery::proofs::OpeningRuns::zeros_are))]
fn open_within<const N: usize>(sheet: &[u8], fates: &mut [u8], rows: &mut [u64], floor: u64) -> Done
    requires { (sizes_right (length sheet.now) (length fates.old) (length rows.old) ≡ true) × (length fates.old ≤ N) × (N ≤ most_places) }
    ensures { left_by result sheet.now fates.new rows.new ≡ open_leaves sheet.now fates.old rows.old floor }
{
    let mut kept = [0u8; N];
    let pages = fates.len();
    open_with(sheet, fates, rows, floor, &mut kept[..pages])
}

// Opens a sheet: tests every page once, sets each fate, clears the rows and answers the state. A refusal leaves everything.
pub fn open(sheet: &[u8], fates: &mut [u8], rows: &mut [u64], floor: u64) -> Done
    ensures { left_by result sheet.now fates.new rows.new ≡ open_leaves sheet.now fates.old rows.old floor }
{
    if !is_sized(sheet.len(), fates.len(), rows.len()) {
        return refuse(Refusal::WrongSizes, 0);
    }
    if fates.len() <= FEW_PAGES {
        open_within::<FEW_PAGES>(sheet, fates, rows, floor)
    } else {
        open_within::<MOST_PAGES>(sheet, fates, rows, floor)
    }
}
