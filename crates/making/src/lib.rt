// One function that makes any call from begin to abort.
#![tactic(auto)]

ghost use Rattle.std.specs.Prelude.{◌≡◌};
ghost use Rattle.recovery.specs.Lent.{left_by};
ghost use Rattle.calls.specs.Asked.{asked};
ghost use Rattle.calls.specs.Leaves.{call_leaves};

use calls::Call;
use deciding::{abort, commit, test};
use reading::read;
use recovery::{Done, State};
use writing::{begin, write};

// Makes a call. The value is a write's; the others pass it over.
pub fn make(
    sheet: &mut [u8],
    fates: &mut [u8],
    rows: &mut [u64],
    state: State,
    call: Call,
    value: &[u8],
) -> Done
    ensures { left_by result sheet.new fates.new rows.new ≡ call_leaves sheet.old fates.old rows.old state (asked call value.now) }
{
    match call {
        Call::Begin => begin(sheet, fates, &rows[..], state),
        Call::Write(file, start, action) => {
            write(sheet, &fates[..], rows, state, file, start, action, value)
        }
        Call::Read(file, time, action) => {
            read(&sheet[..], &fates[..], rows, state, file, time, action)
        }
        Call::Test(action) => test(&sheet[..], &fates[..], &rows[..], state, action),
        Call::Commit(action) => commit(sheet, fates, rows, state, action),
        Call::Abort(action) => abort(sheet, fates, rows, state, action),
    }
}
