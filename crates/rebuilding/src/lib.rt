// Rebuild: a file's row from the pages, going down from the end.
#![tactic(auto)]

ghost use Rattle.std.specs.Prelude.{◌≡◌};
ghost use Rattle.recovery.specs.Lent.{left_by, rebuild_leaves};
ghost use Rattle.recovery.specs.Steps.{row_from_pages, place_holds_by, action_found, token_holds_by, row_holds_by, row_holds_in, Warmed};

use page::{Page, Unpacked};
use recovery::{
    Answer, Done, Refusal, Row, State, View, file_count, has_file, is_lent_right, refuse, row_of,
    set_row,
};

// The row of a file from the pages up to the end, going down: the first committed image is the current one, and the newest
// undecided image above it the token. A page that is not an image of the file is passed over at once.
pub fn rebuilt_row(view: View, fates: &[u8], end: u64, file: u64) -> Row
    ensures { result ≡ row_from_pages view.entry.sheet.now fates.now view.entry.files file end }
{
    let top = end.min(view.pages());
    let mut row = Row {
        mark: 1,
        ..Row::COLD
    };
    for place in (1..=top).rev() {
        let a = Page::SIZE * (place as usize - 1);
        let part = &view.sheet[a..a + Page::SIZE];
        if !Page::names(part, file) {
            continue;
        }
        let Unpacked::Image(image) = Page::test(part, place, view.files) else {
            continue;
        };
        let fate = view.counted_fate(fates, image.action);
        if fate == 2 {
            row.current = place;
            row.currentend = image.start;
            return row;
        }
        if fate == 1 && row.token == 0 {
            row.token = place;
            row.tokenend = image.start;
            row.tokenaction = image.action;
        }
    }
    row
}

// Line 7 for a place of a row, by what was found there: it is 0, or a place up to the end with a sealed image of the file.
#[tactic(auto, unfolding(recovery::specs::Steps::place_holds_by))]
fn place_holds_by(end: u64, place: u64, found: Option<Page>) -> bool
    ensures { result ≡ place_holds_by end place found }
{
    (place == 0) | ((place <= end) & found.is_some())
}

// The action of an image that was found, 0 of none, as a row has it.
fn action_found(found: Option<Page>) -> u64
    ensures { result ≡ action_found found }
{
    found.map_or(0, |image| image.action)
}

// Line 7 for the token: its place holds, and its action is that of its page.
#[tactic(auto, unfolding(recovery::specs::Steps::token_holds_by))]
fn token_holds_by(end: u64, row: Row, found: Option<Page>) -> bool
    ensures { result ≡ token_holds_by end row found }
{
    place_holds_by(end, row.token, found) & (action_found(found) == row.tokenaction)
}

// Line 7, by what was found at both places of a row.
#[tactic(auto, unfolding(recovery::specs::Steps::row_holds_by))]
pub fn row_holds_by(end: u64, row: Row, current: Option<Page>, token: Option<Page>) -> bool
    ensures { result ≡ row_holds_by end row current token }
{
    (row.mark <= 1) & place_holds_by(end, row.current, current) & token_holds_by(end, row, token)
}

// Line 7.
#[tactic(auto, using(recovery::proofs::Held::row_held))]
pub fn row_holds_in(view: View, end: u64, file: u64, row: Row) -> bool
    ensures { result ≡ row_holds_in view.entry.sheet.now view.entry.files end file row }
{
    let current = view.image_at(row.current, file);
    let token = view.image_at(row.token, file);
    row_holds_by(end, row, current, token)
}

// A file's row, rebuilt and put into the run where it is cold.
pub fn warm_row(sheet: &[u8], fates: &[u8], rows: &mut [u64], end: u64, file: u64) -> Row
    ensures { Warmed sheet.now fates.now rows.old file end result rows.new }
{
    let row = row_of(rows, file);
    if row.mark != 0 {
        return row;
    }
    let files = file_count(rows.len());
    let new = rebuilt_row(View { sheet, files }, fates, end, file);
    set_row(rows, file, new);
    new
}

// The numbers of a file's row after its mark; the row is rebuilt first where it is cold.
pub fn rebuild(sheet: &[u8], fates: &[u8], rows: &mut [u64], state: State, file: u64) -> Done
    ensures { left_by result sheet.now fates.now rows.new ≡ rebuild_leaves sheet.now fates.now rows.old state file }
{
    if !is_lent_right(sheet.len(), fates.len(), rows.len(), state) {
        return refuse(Refusal::WrongSizes, state);
    }
    if !has_file(rows.len(), file) {
        return refuse(Refusal::NoFile, state);
    }
    let end = state.end;
    let files = file_count(rows.len());
    let row = warm_row(sheet, fates, rows, end, file);
    if !row_holds_in(View { sheet, files }, end, file, row) {
        return refuse(Refusal::DamagedRow, state);
    }
    Done {
        answer: Answer::Rebuilt(
            row.current,
            row.currentend,
            row.token,
            row.tokenend,
            row.tokenaction,
        ),
        state,
    }
}
