// Begin and write: a new action, and a value of a file under an action, as the file's token.
#![tactic(auto)]

mod beginning;

ghost use Rattle.std.specs.Prelude.{true, ◌≡◌, ◌/◌, ◌≤◌, length};
ghost use Rattle.page.specs.Layout.{page_size, value_size};
ghost use Rattle.recovery.specs.Lent.{left_by};
ghost use Rattle.calls.specs.Calls.{Call, is_free_for, written_end, written};
ghost use Rattle.calls.specs.Leaves.{call_leaves, padded};
ghost use Rattle.calls.specs.ReadSteps.{may_write, store_line, write_answer};

pub use beginning::begin;
use calls::{action_line, append, room_line};
use page::Page;
use rebuilding::{row_holds_by, warm_row};
use recovery::{
    Answer, Done, Refusal, Row, State, View, file_count, has_file, is_lent_right, raised_row,
    refuse, set_row,
};

// A value and zeros after it.
fn pad(value: &[u8]) -> [u8; Page::VALUE_SIZE]
    requires { length value.now ≤ value_size }
    ensures { result ≡ padded value.now }
{
    let mut bytes = [0u8; Page::VALUE_SIZE];
    bytes[..value.len()].copy_from_slice(value);
    bytes
}

// Lines 10 to 12 of write.
#[tactic(auto, unfolding(calls::specs::ReadSteps::store_line))]
fn store_line(view: View, state: State, start: u64, row: Row) -> Result<(), Refusal>
    ensures { result ≡ store_line view.entry.sheet.now view.entry.files state start row }
{
    if start <= row.currentend {
        return Err(Refusal::EarlyStart);
    }
    if start <= state.floor {
        return Err(Refusal::EarlyStart);
    }
    room_line(view, state.end, state.undecided)
}

// Whether a row has no token, or one of this action.
fn is_free_for(row: Row, action: u64) -> bool
    ensures { result ≡ is_free_for action row }
{
    (row.token == 0) | (row.tokenaction == action)
}

// Lines 7 to 12 of write on a warm row. Each place of the row is looked at once.
fn write_answer(view: View, state: State, file: u64, start: u64, action: u64, row: Row) -> Answer
    requires { (state.end ≤ length view.sheet.now / page_size) × (state.undecided ≤ state.end) }
    ensures { result ≡ write_answer view.entry.sheet.now view.entry.files state file start action row }
{
    let current = view.image_at(row.current, file);
    let token = view.image_at(row.token, file);
    if !row_holds_by(state.end, row, current, token) {
        return Answer::Refused(Refusal::DamagedRow, 0);
    }
    if !is_free_for(row, action) {
        return Answer::Refused(Refusal::OtherToken, row.tokenaction);
    }
    match store_line(view, state, start, row) {
        Ok(()) => Answer::Stored(state.end + 1),
        Err(why) => Answer::Refused(why, 0),
    }
}

// The token's end once it is written: its start; if it is written again, no less than it was.
fn written_end(row: Row, start: u64) -> u64
    ensures { result ≡ written_end row start }
{
    if row.token == 0 {
        return start;
    }
    raised_row(row, 0, start).tokenend
}

// The row once an image was written at a place, under an action.
fn written_row(row: Row, place: u64, start: u64, action: u64) -> Row
    ensures { result ≡ written row place start action }
{
    Row {
        mark: 1,
        token: place,
        tokenend: written_end(row, start),
        tokenaction: action,
        ..row
    }
}

// Lines 1 and 3 to 6 of write.
#[tactic(auto, unfolding(calls::specs::ReadSteps::may_write))]
fn may_write(
    sheet: &[u8],
    fates: &[u8],
    rows: &[u64],
    state: State,
    file: u64,
    action: u64,
    value: &[u8],
) -> Result<(), Refusal>
    ensures { result ≡ may_write sheet.now fates.now rows.now state file action value.now }
{
    if !is_lent_right(sheet.len(), fates.len(), rows.len(), state) {
        return Err(Refusal::WrongSizes);
    }
    if !has_file(rows.len(), file) {
        return Err(Refusal::NoFile);
    }
    if Page::VALUE_SIZE < value.len() {
        return Err(Refusal::LongValue);
    }
    action_line(fates, state.end, action)
}

// Writes a value of a file under an action.
pub fn write(
    sheet: &mut [u8],
    fates: &[u8],
    rows: &mut [u64],
    state: State,
    file: u64,
    start: u64,
    action: u64,
    value: &[u8],
) -> Done
    ensures { left_by result sheet.new fates.now rows.new ≡ call_leaves sheet.old fates.now rows.old state (Call.write file start action value.now) }
{
    if let Err(why) = may_write(&sheet[..], fates, &rows[..], state, file, action, value) {
        return refuse(why, state);
    }
    // First, so that these stores are done when the page is written from them.
    let bytes = pad(value);
    let files = file_count(rows.len());
    let row = warm_row(&sheet[..], fates, rows, state.end, file);
    let view = View {
        sheet: &sheet[..],
        files,
    };
    let answer = write_answer(view, state, file, start, action, row);
    let Answer::Stored(place) = answer else {
        return Done { answer, state };
    };
    set_row(rows, file, written_row(row, place, start, action));
    let page = Page::image(value.len() as u64, file, action, row.current, start);
    append(sheet, state.end, files, page, &bytes);
    Done {
        answer,
        state: State {
            end: place,
            ..state
        },
    }
}
