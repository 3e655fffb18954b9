// Every cold row rebuilt.
ghost use Rattle.std.specs.Prelude.{true, ◌≡◌, length};
ghost use Rattle.recovery.specs.Steps.{line_one};
ghost use Rattle.moving.specs.MoveSteps.{warm_run};

use rebuilding::warm_row;
use recovery::{State, file_count};

// Rebuilds every cold row.
pub(crate) fn warm_rows(sheet: &[u8], fates: &[u8], rows: &mut [u64], state: State)
    requires { line_one (length sheet.now) (length fates.now) (length rows.old) state.end state.undecided ≡ true }
    ensures { rows.new ≡ warm_run sheet.now fates.now rows.old state }
{
    let files = file_count(rows.len());
    for file in 1..=files {
        warm_row(sheet, fates, rows, state.end, file);
    }
}
