// The pages of the move, stored in order of place.
ghost use Rattle.std.specs.Prelude.{true, ◌≡◌, ◌+◌, ◌*◌, ◌≤◌, suc, length};
ghost use Rattle.page.specs.Layout.{page_size};
ghost use Rattle.page.specs.Answers.{in_bounds, is_blank_page, tested};
ghost use Rattle.recovery.specs.Sheet.{page_bytes};
ghost use Rattle.recovery.specs.Steps.{sealed_image};
ghost use Rattle.moving.specs.MoveSteps.{stored_by, stores_to, stores_all, Roomy};

use calls::append;
use page::Page;
use recovery::{View, part_at, row_of};

// Stores the image of a file at a place above the last stored place, and answers where it then is; nothing where there is no image.
fn store_version(view: View, file: u64, place: u64, fresh: &mut [u8], at: u64) -> u64
    requires { (1 ≤ at) × (page_size * at + page_size ≤ length fresh.old) × (in_bounds page_size (suc at) view.files ≡ true) }
    ensures { (result, fresh.new) ≡ stored_by view.entry.sheet.now file place at fresh.old (sealed_image view.entry.files view.entry.sheet.now file place) }
{
    let found = view.image_at(place, file);
    let Some(x) = found else {
        return at;
    };
    let value = Page::value(part_at(view.sheet, place));
    let page = Page::image(x.small, file, 1, 0, x.start);
    append(fresh, at, view.files, page, &value);
    at + 1
}

// Stores the current version of each file, in file order, above the opening at place 1; answers the last stored place.
fn store_versions(view: View, rows: &[u64], fresh: &mut [u8]) -> u64
    requires { Roomy view.files rows.now (length fresh.old) }
    ensures { (result, fresh.new) ≡ stores_to view.entry.sheet.now view.entry.files rows.now fresh.old view.entry.files }
{
    let mut at = 1;
    for file in 1..=view.files {
        let row = row_of(rows, file);
        at = store_version(view, file, row.current, fresh, at);
    }
    at
}

// Stores the pages of the move: the carried opening, the versions, and the outcome last. The small byte of the opening and of the outcome
// is 1, as page 1 is blank. It is looked up, since a compiler that knows it stores it in one step with byte 0, which is to come first.
pub(crate) fn store_pages(view: View, rows: &[u64], fresh: &mut [u8])
    requires { Roomy view.files rows.now (length fresh.old) × (is_blank_page (tested (page_bytes fresh.old 1) 1 view.files) ≡ true) }
    ensures { fresh.new ≡ stores_all view.entry.sheet.now view.entry.files rows.now fresh.old }
{
    let files = view.files;
    let blank = View {
        sheet: &fresh[..],
        files,
    };
    let small = u64::from(blank.is_blank_at(1));
    let opening = Page::opening_as(small, 1);
    append(fresh, 0, files, opening, &[0u8; Page::VALUE_SIZE]);
    let at = store_versions(view, rows, fresh);
    let outcome = Page::outcome(1, small);
    append(fresh, at, files, outcome, &[0u8; Page::VALUE_SIZE]);
}
