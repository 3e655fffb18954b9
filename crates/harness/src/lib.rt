// For the tests and timings outside Rattle: any call as numbers (`door`), and loops over a sheet's pages for bench/ to time, the page
// test, the quick look and packing as the layers above use them. Each loop answers how many pages passed, so that its work cannot be
// left out.
#![tactic(auto)]

mod door;

ghost use Rattle.std.specs.Prelude.{◌≡◌, ℕ, ◌<◌, ◌/◌, Bool, cond, length};
ghost use Rattle.page.specs.Layout.{page_size};
ghost use Rattle.recovery.specs.Steps.{row_from_pages};
ghost use Rattle.inspection.specs.Inspected.{inspected, inspect_place};
ghost use Rattle.harness.specs.Counts.{counted, fits_at, seen_at, packed_to};

use page::{Page, Unpacked};
use recovery::View;

// How many of the numbers below n pass.
fn count_passing<F: Fn(usize) -> bool>(n: usize, passes: F) -> u64
    requires { (i : ℕ) → i < n → F.pre passes i }
    ensures { (f : ℕ → ℕ) → ((i : ℕ) (r : Bool) → i < n → F.post passes i r → cond r 1 0 ≡ f i) → result ≡ counted f n }
{
    let mut count = 0;
    for i in 0..n {
        count += u64::from(passes(i));
    }
    count
}

// The page test on every page. It and `bench_seek` are names that C calls; what they share is `count_passing`.
#[unsafe(no_mangle)]
pub extern "C" fn bench_test(sheet: &[u8], files: u64) -> u64
    ensures { result ≡ counted (fits_at sheet.now files) (length sheet.now / page_size) }
{
    count_passing(sheet.len() / Page::SIZE, |i| {
        let at = Page::SIZE * i;
        let end = at + Page::SIZE;
        let found = Page::test(&sheet[at..end], i as u64 + 1, files);
        matches!(
            found,
            Unpacked::Opening(_) | Unpacked::Image(_) | Unpacked::Outcome(_)
        )
    })
}

// The quick look for one file on every page.
#[unsafe(no_mangle)]
pub extern "C" fn bench_seek(sheet: &[u8], files: u64, file: u64) -> u64
    ensures { result ≡ counted (seen_at sheet.now files file) (length sheet.now / page_size) }
{
    count_passing(sheet.len() / Page::SIZE, |i| {
        let at = Page::SIZE * i;
        let end = at + Page::SIZE;
        Page::seek(&sheet[at..end], i as u64 + 1, files, file).is_some()
    })
}

// An image of one file packed at every place; the first place, below which no action lies, is refused. A loop of its own: a closure that
// stores into the sheet would tell nothing of what it stored.
#[unsafe(no_mangle)]
pub extern "C" fn bench_pack(sheet: &mut [u8], files: u64, size: u64, value: &[u8; 32]) -> u64
    ensures { (result, sheet.new) ≡ packed_to size value.now files sheet.old (length sheet.old / page_size) }
{
    let pages = sheet.len() / Page::SIZE;
    let mut count = 0;
    for i in 0..pages {
        let at = Page::SIZE * i;
        let end = at + Page::SIZE;
        let place = i as u64 + 1;
        let p = Page::image(size, 1, 1, 0, place);
        count += u64::from(p.pack(value, place, files, &mut sheet[at..end]).is_ok());
    }
    count
}

// The walk of a rebuild alone: the place of the file's current version.
#[unsafe(no_mangle)]
pub extern "C" fn bench_walk(sheet: &[u8], fates: &[u8], files: u64, file: u64, end: u64) -> u64
    ensures { result ≡ (row_from_pages sheet.now fates.now files file end).current }
{
    let row = rebuilding::rebuilt_row(View { sheet, files }, fates, end, file);
    row.current
}

// An inspection: the place.
#[unsafe(no_mangle)]
pub extern "C" fn bench_inspect(sheet: &[u8], files: u64) -> u64
    ensures { result ≡ inspect_place (inspected sheet.now files) }
{
    inspection::inspect(sheet, files).unwrap_or(0)
}
