// Test: the fate of an action, and where its outcome lies.
ghost use Rattle.std.specs.Prelude.{◌≡◌};
ghost use Rattle.recovery.specs.Lent.{left_by};
ghost use Rattle.calls.specs.Calls.{Call};
ghost use Rattle.calls.specs.Leaves.{call_leaves};

use calls::known_fate;
use recovery::{Answer, Done, Refusal, State, View, file_count, is_lent_right, refuse};

// The fate of an action, and the place of its newest sealed outcome up to the end, 0 if there is none.
pub fn test(sheet: &[u8], fates: &[u8], rows: &[u64], state: State, action: u64) -> Done
    ensures { left_by result sheet.now fates.now rows.now ≡ call_leaves sheet.now fates.now rows.now state (Call.test action) }
{
    if !is_lent_right(sheet.len(), fates.len(), rows.len(), state) {
        return refuse(Refusal::WrongSizes, state);
    }
    let fate = match known_fate(fates, state.end, action) {
        Ok(fate) => fate,
        Err(why) => return refuse(why, state),
    };
    let files = file_count(rows.len());
    let place = View { sheet, files }.outcome_place(state.end, action);
    Done {
        answer: Answer::Told(fate, place),
        state,
    }
}
