// The move: what it refuses, and what it does.
ghost use Rattle.std.specs.Prelude.{true, ◌≡◌, length};
ghost use Rattle.moving.specs.MoveLeaves.{move_by, warm_move, move_leaves};
ghost use Rattle.moving.specs.MoveSteps.{move_line_one, refusal_at};

use crate::carrying::store_pages;
use crate::checking::{is_movable, is_unused, lowest_undecided, survey_rows};
use crate::warming::warm_rows;
use recovery::{Answer, Done, Refusal, State, View, file_count, refuse};

// A refusal with its place, and the state as it was. What it shares with `recovery::refuse` and open's own is a literal.
fn refuse_at(why: Refusal, place: u64, state: State) -> Done
    ensures { result ≡ refusal_at why place state }
{
    Done {
        answer: Answer::Refused(why, place),
        state,
    }
}

// Lines 7, 11 and 12 on rebuilt rows, then the pages and the floor.
fn move_warm(sheet: &[u8], fates: &[u8], rows: &[u64], state: State, fresh: &mut [u8]) -> Done
    requires { move_line_one (length sheet.now) (length fates.now) (length rows.now) state.end state.undecided (length fresh.old) ≡ true }
    ensures { move_by result sheet.now fates.now rows.now fresh.new ≡ warm_move sheet.now fates.now rows.now state fresh.old }
{
    let files = file_count(rows.len());
    let view = View { sheet, files };
    let survey = survey_rows(view, rows, state.end, state.floor);
    if let Some(damaged) = survey.damaged {
        return refuse_at(Refusal::DamagedRow, damaged, state);
    }
    let blank = View {
        sheet: &fresh[..],
        files,
    };
    if blank.pages() < survey.versions + 2 {
        return refuse(Refusal::NoRoom, state);
    }
    if !is_unused(blank) {
        return refuse(Refusal::NotBlank, state);
    }
    store_pages(view, rows, fresh);
    Done {
        answer: Answer::Moved(survey.highest),
        state,
    }
}

// Moves every file's current version to a blank sheet, and answers the floor that the fresh sheet's opening gets.
pub fn move_to(sheet: &[u8], fates: &[u8], rows: &mut [u64], state: State, fresh: &mut [u8]) -> Done
    ensures { move_by result sheet.now fates.now rows.new fresh.new ≡ move_leaves sheet.now fates.now rows.old state fresh.old }
{
    if !is_movable(sheet.len(), fates.len(), rows.len(), state, fresh.len()) {
        return refuse(Refusal::WrongSizes, state);
    }
    if let Some(busy) = lowest_undecided(fates, state.end) {
        return refuse_at(Refusal::UndecidedAction, busy, state);
    }
    warm_rows(sheet, fates, rows, state);
    move_warm(sheet, fates, &rows[..], state, fresh)
}
