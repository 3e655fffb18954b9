// Begin: a new action (a transaction).
ghost use Rattle.std.specs.Prelude.{◌≡◌};
ghost use Rattle.recovery.specs.Lent.{left_by};
ghost use Rattle.calls.specs.Calls.{Call};
ghost use Rattle.calls.specs.Leaves.{call_leaves};

use calls::{append, room_line};
use page::Page;
use recovery::{Answer, Done, Refusal, State, View, file_count, is_lent_right, refuse};

// Begins an action: appends its opening, and leaves room for the outcome of each undecided action.
pub fn begin(sheet: &mut [u8], fates: &mut [u8], rows: &[u64], state: State) -> Done
    ensures { left_by result sheet.new fates.new rows.now ≡ call_leaves sheet.old fates.old rows.now state Call.begin }
{
    if !is_lent_right(sheet.len(), fates.len(), rows.len(), state) {
        return refuse(Refusal::WrongSizes, state);
    }
    let end = state.end;
    let files = file_count(rows.len());
    let view = View {
        sheet: &sheet[..],
        files,
    };
    if let Err(why) = room_line(view, end, state.undecided + 1) {
        return refuse(why, state);
    }
    let place = end + 1;
    let page = Page::opening(place);
    append(sheet, end, files, page, &[0u8; Page::VALUE_SIZE]);
    fates[end as usize] = 1;
    Done {
        answer: Answer::Stored(place),
        state: State {
            end: place,
            undecided: state.undecided + 1,
            ..state
        },
    }
}
