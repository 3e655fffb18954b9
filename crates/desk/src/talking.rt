// A conversation: commands, one a line, on one sheet. Sheet, fates and rows stay apart, as the calls are lent them.
ghost use Rattle.std.specs.Prelude.{◌≡◌, ◌*◌, ◌≤◌, None, Some, cond, drop};
ghost use Rattle.page.specs.Layout.{most_files};
ghost use Rattle.recovery.specs.Lent.{row_length};
ghost use Rattle.recovery.specs.Numbers.{is_refused};
ghost use Rattle.commands.specs.Commands.{parsed};
ghost use Rattle.desk.specs.Conversation.{opened_for, started_for, called_for, bare_files, bare_floor, conversed, first_desk, said_to};
ghost use Rattle.desk.specs.TalkSteps.{left_after, left_said};

use crate::cutting::act;
use crate::showing::{open_reply, tell};
use calls::Call;
use commands::{Command, Reply, parse};
use page::Page;
use recovery::{Answer, Done, ROW_LENGTH, Refusal, State, highest_start};

// What the desk keeps from line to line, beside sheet, fates and rows: for how many files it is, the state if it has one, and after how many
// bytes the next append is cut, if it is.
#[derive(Clone, Copy)]
pub struct Desk {
    pub files: u64,
    pub state: Option<State>,
    pub cut: Option<u64>,
}

// A reply, and the desk after it.
#[derive(Clone, Copy)]
pub(crate) struct Turn {
    pub reply: Reply,
    pub desk: Desk,
}

// The desk after a line, and how many bytes its reply has.
#[derive(Clone, Copy)]
pub struct Said {
    pub desk: Desk,
    pub count: usize,
}

// The program's sheet: its pages, its bytes, and the numbers of the rows of as many files as there can be.
pub const PAGES: usize = 256;

pub const SHEET: usize = PAGES * Page::SIZE;

pub const ROWS: usize = ROW_LENGTH * (Page::MOST_FILES as usize);

// How many files a bare `open` is for.
const BARE_FILES: u64 = 8;

// The state that an opening leaves: none if it is refused.
#[tactic(auto, unfolding(recovery::specs::Numbers::is_refused))]
fn state_left(done: Done) -> Option<State>
    ensures { result ≡ cond (is_refused done.answer) None (Some done.state) }
{
    match done.answer {
        Answer::Refused(_, _) => None,
        _ => Some(done.state),
    }
}

// An opening for so many files, lent their rows.
fn open_desk(
    sheet: &[u8],
    fates: &mut [u8],
    rows: &mut [u64],
    desk: Desk,
    files: u64,
    floor: u64,
) -> Turn
    ensures { left_after result sheet.now fates.new rows.new ≡ opened_for desk sheet.now fates.old rows.old files floor }
{
    let done = opening::open(sheet, fates, rows, floor);
    Turn {
        reply: open_reply(done.answer),
        desk: Desk {
            files,
            state: state_left(done),
            ..desk
        },
    }
}

// A reply that leaves sheet, fates and rows as they are.
fn only(reply: Reply, desk: Desk) -> Turn
    ensures { result ≡ record { reply = reply; desk = desk } }
{
    Turn { reply, desk }
}

// The numbers of the rows of so many files.
fn row_numbers(files: u64) -> usize
    requires { files ≤ most_files }
    ensures { result ≡ row_length * files }
{
    ROW_LENGTH * (files as usize)
}

// `open`: line 1 where there could be no rows to lend.
fn start(
    sheet: &[u8],
    fates: &mut [u8],
    rows: &mut [u64; ROWS],
    desk: Desk,
    files: u64,
    floor: u64,
) -> Turn
    ensures { left_after result sheet.now fates.new rows.new ≡ started_for desk sheet.now fates.old rows.old files floor }
{
    if !recovery::is_file(Page::MOST_FILES, files) {
        return only(
            Reply::No(u64::from(Refusal::WrongSizes), 0),
            Desk {
                state: None,
                ..desk
            },
        );
    }
    let n = row_numbers(files);
    open_desk(sheet, fates, &mut rows[0..n], desk, files, floor)
}

// A bare `open`: its floor is the highest start on the sheet.
fn bare_start(sheet: &[u8], fates: &mut [u8], rows: &mut [u64; ROWS], desk: Desk) -> Turn
    ensures { left_after result sheet.now fates.new rows.new ≡ started_for desk sheet.now fates.old rows.old bare_files (bare_floor sheet.now) }
{
    let floor = highest_start(sheet, BARE_FILES);
    start(sheet, fates, rows, desk, BARE_FILES, floor)
}

// A call, if there is a state, for files whose rows can be lent.
fn call_now(
    sheet: &mut [u8],
    fates: &mut [u8],
    rows: &mut [u64; ROWS],
    desk: Desk,
    call: Call,
    value: &[u8],
) -> Turn
    ensures { left_after result sheet.new fates.new rows.new ≡ called_for desk sheet.old fates.old rows.old call value.now }
{
    let Some(state) = desk.state else {
        return only(Reply::Closed, desk);
    };
    if !recovery::is_file(Page::MOST_FILES, desk.files) {
        return only(Reply::Closed, desk);
    }
    let n = row_numbers(desk.files);
    act(sheet, fates, &mut rows[0..n], desk, state, call, value)
}

// The rest of a line from an index on.
fn rest(line: &[u8], from: usize) -> &[u8]
    ensures { result.now ≡ drop from line.now }
{
    &line[from.min(line.len())..]
}

// A line of input.
fn converse(
    sheet: &mut [u8],
    fates: &mut [u8],
    rows: &mut [u64; ROWS],
    desk: Desk,
    line: &[u8],
) -> Turn
    ensures { left_after result sheet.new fates.new rows.new ≡ conversed desk sheet.old fates.old rows.old (parsed line.now) line.now }
{
    let Some(command) = parse(line) else {
        return only(Reply::What, desk);
    };
    match command {
        Command::BareOpen => bare_start(&sheet[..], fates, rows, desk),
        Command::Open(files, floor) => start(&sheet[..], fates, rows, desk, files, floor),
        Command::Cut(n) => only(
            Reply::Cut(n),
            Desk {
                cut: Some(n),
                ..desk
            },
        ),
        Command::Call(call, from) => call_now(sheet, fates, rows, desk, call, rest(line, from)),
    }
}

// A desk without a state.
pub fn closed_desk() -> Desk
    ensures { result ≡ first_desk }
{
    Desk {
        files: 0,
        state: None,
        cut: None,
    }
}

// A line of input: its reply goes into `out`. With other rows nothing is done.
pub fn answer(
    sheet: &mut [u8],
    fates: &mut [u8],
    rows: &mut [u64],
    desk: Desk,
    line: &[u8],
    out: &mut [u8],
) -> Said
    ensures { left_said result sheet.new fates.new rows.new out.new ≡ said_to desk sheet.old fates.old rows.old line.now out.old }
{
    let Some(rows) = rows.as_mut_array() else {
        return Said { desk, count: 0 };
    };
    let turn = converse(sheet, fates, rows, desk, line);
    let count = tell(&sheet[..], turn.reply, out);
    Said {
        desk: turn.desk,
        count,
    }
}
