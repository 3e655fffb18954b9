// Read: the value of a file at a time, for an action or for none.
#![tactic(auto)]

ghost use Rattle.std.specs.Prelude.{true, false, ◌≡◌, ◌/◌, length, Some};
ghost use Rattle.recovery.specs.Lent.{left_by};
ghost use Rattle.recovery.specs.Steps.{sealed_image};
ghost use Rattle.calls.specs.Calls.{Call, read_current, read_token};
ghost use Rattle.calls.specs.Walk.{none_below};
ghost use Rattle.calls.specs.Leaves.{call_leaves};
ghost use Rattle.calls.specs.ReadSteps.{read_line, may_read, walk_answer, walk_at, Looked};
ghost use Rattle.reading.specs.WarmReads.{Versions, Reads};

use calls::action_line;
use page::Page;
use rebuilding::{row_holds_by, warm_row};
use recovery::{
    Answer, Done, Refusal, Row, State, View, file_count, has_file, is_lent_right, raised_row,
    refuse, set_row,
};

// What a read of a warm row answers, and the row that it leaves.
#[derive(Clone, Copy)]
struct Reading {
    answer: Answer,
    row: Row,
}

// The row once its current version was read at a time, and once its token was.
fn current_read(row: Row, time: u64) -> Row
    ensures { result ≡ read_current time true row }
{
    raised_row(row, time, 0)
}

fn token_read(row: Row, time: u64) -> Row
    ensures { result ≡ read_token time row }
{
    raised_row(row, 0, time)
}

// Lines 5 and 6 of read, which are passed over for action 0: none, as `Call.read` has it and callers give it.
#[tactic(auto, unfolding(calls::specs::ReadSteps::read_line))]
fn read_line(fates: &[u8], end: u64, action: u64) -> Result<(), Refusal>
    ensures { result ≡ read_line fates.now end action }
{
    if action == 0 {
        return Ok(());
    }
    action_line(fates, end, action)
}

// What is answered where no version starts by the time: none, or refusal 25 if a carried image was passed, which the walk has as a bool.
fn none_below(carried: bool) -> Answer
    ensures { result ≡ walk_answer (none_below carried) }
{
    if carried {
        return Answer::Refused(Refusal::OnOlderSheet, 0);
    }
    Answer::Nothing
}

// The first image from a place down the links whose start is not above a time. A link leads to a lower place, so this ends;
// it follows links, and counts nothing.
fn walk(view: View, from: u64, file: u64, time: u64, first: Page) -> Answer
    requires { sealed_image view.files view.sheet.now file from ≡ Some first }
    ensures { result ≡ walk_at view.entry.files view.entry.sheet.now file time false from first }
{
    let mut place = from;
    let mut x = first;
    let mut carried = false;
    loop {
        if x.start <= time {
            return Answer::Value(place, x.start, x.small);
        }
        carried |= view.is_carried_at(x.action);
        let next = x.link;
        if next == 0 {
            return none_below(carried);
        }
        let found = view.image_at(next, file);
        let Some(y) = found else {
            return Answer::Refused(Refusal::LostLink, place);
        };
        place = next;
        x = y;
    }
}

// A read of the committed versions, from what was found at the row's current place.
fn read_versions(view: View, file: u64, time: u64, row: Row, current: Option<Page>) -> Reading
    requires { Looked view.files view.sheet.now file row.current current }
    ensures { Versions view.entry.files view.entry.sheet.now file time row result }
{
    let reached = current_read(row, time);
    let Some(newest) = current else {
        return Reading {
            answer: Answer::Nothing,
            row: reached,
        };
    };
    if newest.start <= time {
        return Reading {
            answer: Answer::Value(row.current, newest.start, newest.small),
            row: reached,
        };
    }
    let answer = walk(view, row.current, file, time, newest);
    Reading { answer, row }
}

// Lines 7, 9, 13 and 25 of read on a warm row. Each place of the row is looked at once.
fn read_row(view: View, end: u64, file: u64, time: u64, action: u64, row: Row) -> Reading
    ensures { Reads view.entry.files view.entry.sheet.now end file time action row result }
{
    let current = view.image_at(row.current, file);
    let token = view.image_at(row.token, file);
    if !row_holds_by(end, row, current, token) {
        return Reading {
            answer: Answer::Refused(Refusal::DamagedRow, 0),
            row,
        };
    }
    let Some(x) = token else {
        return read_versions(view, file, time, row, current);
    };
    if time < x.start {
        return read_versions(view, file, time, row, current);
    }
    if x.action != action {
        return Reading {
            answer: Answer::Refused(Refusal::HangingRead, x.action),
            row,
        };
    }
    Reading {
        answer: Answer::Value(row.token, x.start, x.small),
        row: token_read(row, time),
    }
}

// Lines 1, 3, 5 and 6 of read.
#[tactic(auto, unfolding(calls::specs::ReadSteps::may_read))]
fn may_read(
    sheet: &[u8],
    fates: &[u8],
    rows: &[u64],
    state: State,
    file: u64,
    action: u64,
) -> Result<(), Refusal>
    ensures { result ≡ may_read sheet.now fates.now rows.now state file action }
{
    if !is_lent_right(sheet.len(), fates.len(), rows.len(), state) {
        return Err(Refusal::WrongSizes);
    }
    if !has_file(rows.len(), file) {
        return Err(Refusal::NoFile);
    }
    read_line(fates, state.end, action)
}

// Reads a file at a time, for an action or, with action 0, for none.
pub fn read(
    sheet: &[u8],
    fates: &[u8],
    rows: &mut [u64],
    state: State,
    file: u64,
    time: u64,
    action: u64,
) -> Done
    ensures { left_by result sheet.now fates.now rows.new ≡ call_leaves sheet.now fates.now rows.old state (Call.read file time action) }
{
    if let Err(why) = may_read(sheet, fates, &rows[..], state, file, action) {
        return refuse(why, state);
    }
    let files = file_count(rows.len());
    let row = warm_row(sheet, fates, rows, state.end, file);
    let reading = read_row(View { sheet, files }, state.end, file, time, action, row);
    set_row(rows, file, reading.row);
    Done {
        answer: reading.answer,
        state,
    }
}
