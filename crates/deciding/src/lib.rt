// Commit, abort and test: the outcome of an action.
#![tactic(auto)]

mod testing;

ghost use Rattle.std.specs.Prelude.{true, false, cond, ◌≡◌, ◌*◌, ◌/◌, length};
ghost use Rattle.page.specs.Table.{outcome};
ghost use Rattle.recovery.specs.Log.{verdict};
ghost use Rattle.recovery.specs.World.{fate_number, is_rebuilt_for};
ghost use Rattle.recovery.specs.Sheet.{is_opening, decoded};
ghost use Rattle.recovery.specs.Lent.{row_length, left_by};
ghost use Rattle.recovery.specs.Steps.{row_of};
ghost use Rattle.calls.specs.Calls.{Call, decided};
ghost use Rattle.calls.specs.Leaves.{call_leaves};
ghost use Rattle.calls.specs.DecideSteps.{decide_line, decided_again, is_token_in, settled_row, settled_rows};
ghost use Rattle.deciding.specs.Verdicts.{is_commit};

use calls::{action_line, append, room_line};
use page::Page;
use recovery::{
    Answer, Done, Refusal, Row, State, View, fate_at, file_count, is_lent_right, next_named,
    refuse, row_of, set_row,
};
pub use testing::test;

// The lines of commit and abort; line 6 is met by a decision that is asked again too.
#[tactic(auto, unfolding(calls::specs::DecideSteps::decide_line))]
fn decide_line(
    sheet: &[u8],
    fates: &[u8],
    rows: &[u64],
    state: State,
    action: u64,
) -> Result<(), Refusal>
    ensures { result ≡ decide_line sheet.now fates.now rows.now state action }
{
    if !is_lent_right(sheet.len(), fates.len(), rows.len(), state) {
        return Err(Refusal::WrongSizes);
    }
    action_line(fates, state.end, action)?;
    let files = file_count(rows.len());
    room_line(View { sheet, files }, state.end, 0)
}

// How an action is decided.
#[derive(Clone, Copy)]
enum Verdict {
    Commit,
    Abort,
}

impl Verdict {
    // The outcome of an action: the commit record is 1, the abort record 2.
    fn page(self, action: u64) -> Page
        ensures { result ≡ outcome action (cond (is_commit self) 1 2) }
    {
        match self {
            Verdict::Commit => Page::outcome(action, 1),
            Verdict::Abort => Page::outcome(action, 2),
        }
    }

    // The fate that it gives the action.
    fn fate(self) -> u8
        ensures { result ≡ fate_number (verdict (is_commit self)) }
    {
        match self {
            Verdict::Commit => 2,
            Verdict::Abort => 3,
        }
    }

    // A row whose token is decided: a committed one is the current version.
    fn settle(self, row: Row) -> Row
        ensures { result ≡ decided (is_commit self) row }
    {
        let rest = Row {
            token: 0,
            tokenend: 0,
            tokenaction: 0,
            ..row
        };
        match self {
            Verdict::Commit => Row {
                current: row.token,
                currentend: row.tokenend,
                ..rest
            },
            Verdict::Abort => rest,
        }
    }
}

// An outcome has no value.
const NO_VALUE: [u8; Page::VALUE_SIZE] = [0; Page::VALUE_SIZE];

// A decision on an open sheet: of which action, whether that has an opening, and how it is decided. `opened` is no switch but a fact,
// looked up once for all rows; the ghost field ties it to the sheet.
#[derive(Clone, Copy)]
struct Decision<'a> {
    view: View<'a>,
    end: u64,
    action: u64,
    opened: bool,
    verdict: Verdict,
    ghost opened_is: { opened ≡ is_opening (decoded view.files view.sheet.now action) },
}

impl<'a> Decision<'a> {
    // Whether a place up to the end holds a sealed image of the file under the action.
    fn is_token_at(&self, file: u64, place: u64) -> bool
        ensures { result ≡ is_token_in self.now.view.sheet.now self.now.view.files self.now.end self.now.action file place }
    {
        if self.end < place {
            return false;
        }
        let Some(image) = self.view.seek_at(place, file) else {
            return false;
        };
        if image.action != self.action {
            return false;
        }
        self.opened
    }

    // The row of a file that names the action, settled where its token is the action's.
    fn settle_row(&self, rows: &mut [u64], file: u64)
        requires { is_rebuilt_for self.now.action (row_of rows.old file) ≡ true }
        ensures { rows.new ≡ settled_row self.now.view.sheet.now self.now.view.files self.now.end self.now.action (is_commit self.now.verdict) file rows.old }
    {
        let token = row_of(&rows[..], file).token;
        if !self.is_token_at(file, token) {
            return;
        }
        // Read now, so that the numbers need not be kept during the look at the page.
        let row = row_of(&rows[..], file);
        set_row(rows, file, self.verdict.settle(row));
    }

    // Every row, settled. A row that does not name the action costs no look at a page, and the action's opening is looked at once for all.
    // No range counts the files: it goes on from the next one that names the action.
    fn settle_rows(&self, rows: &mut [u64])
        requires { (row_length * (length rows.old / row_length) ≡ length rows.old) × (self.now.view.files ≡ length rows.old / row_length) }
        ensures { rows.new ≡ settled_rows self.now.view.sheet.now self.now.view.files self.now.end self.now.action (is_commit self.now.verdict) rows.old }
    {
        let mut file: u64 = 0;
        loop {
            file = next_named(&rows[..], file, self.action);
            if self.view.files <= file {
                return;
            }
            file += 1;
            self.settle_row(rows, file);
        }
    }
}

// A decision of an action that is decided already: the same one is answered with the place of its outcome, and the other refused.
#[tactic(auto, unfolding(calls::specs::DecideSteps::decided_again))]
fn decided_again(view: View, fates: &[u8], state: State, action: u64, verdict: Verdict) -> Done
    ensures { result ≡ decided_again view.entry.sheet.now fates.now view.entry.files state action (is_commit verdict) }
{
    if fate_at(fates, action) != u64::from(verdict.fate()) {
        return refuse(Refusal::AlreadyDecided, state);
    }
    Done {
        answer: Answer::Stored(view.outcome_place(state.end, action)),
        state,
    }
}

// Commits or aborts an action: appends its outcome. The rows are settled first, by the sheet as it was. Asked again, it changes
// nothing. The open count is lent, so it may be 0 already.
fn decide(
    sheet: &mut [u8],
    fates: &mut [u8],
    rows: &mut [u64],
    state: State,
    action: u64,
    verdict: Verdict,
) -> Done
    ensures { left_by result sheet.new fates.new rows.new ≡ call_leaves sheet.old fates.old rows.old state (Call.decide action (is_commit verdict)) }
{
    let files = file_count(rows.len());
    let view = View {
        sheet: &sheet[..],
        files,
    };
    if let Err(why) = decide_line(view.sheet, &fates[..], &rows[..], state, action) {
        return match why {
            Refusal::AlreadyDecided => decided_again(view, &fates[..], state, action, verdict),
            _ => refuse(why, state),
        };
    }
    let decision = Decision {
        view,
        end: state.end,
        action,
        opened: view.is_opening_at(action),
        verdict,
    };
    decision.settle_rows(rows);
    append(sheet, state.end, files, verdict.page(action), &NO_VALUE);
    fates[action as usize - 1] = verdict.fate();
    Done {
        answer: Answer::Stored(state.end + 1),
        state: State {
            end: state.end + 1,
            undecided: state.undecided.saturating_sub(1),
            ..state
        },
    }
}

// Commits an action; answers the place of its outcome.
pub fn commit(
    sheet: &mut [u8],
    fates: &mut [u8],
    rows: &mut [u64],
    state: State,
    action: u64,
) -> Done
    ensures { left_by result sheet.new fates.new rows.new ≡ call_leaves sheet.old fates.old rows.old state (Call.decide action true) }
{
    decide(sheet, fates, rows, state, action, Verdict::Commit)
}

// Aborts an action; answers the place of its outcome.
pub fn abort(
    sheet: &mut [u8],
    fates: &mut [u8],
    rows: &mut [u64],
    state: State,
    action: u64,
) -> Done
    ensures { left_by result sheet.new fates.new rows.new ≡ call_leaves sheet.old fates.old rows.old state (Call.decide action false) }
{
    decide(sheet, fates, rows, state, action, Verdict::Abort)
}
