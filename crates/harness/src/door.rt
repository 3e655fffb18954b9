// The door of the tests and timings outside Rattle: a call, an opening, a rebuild or a move as numbers, and the highest start. What it
// answers is given as numbers, the answer's and then the state's, in a lent run; with a run of another length nothing is done.
ghost use Rattle.std.specs.Prelude.{◌≡◌, length};
ghost use Rattle.recovery.specs.Lent.{highest_start_of, left_by, open_leaves, rebuild_leaves};
ghost use Rattle.moving.specs.MoveLeaves.{move_leaves};
ghost use Rattle.harness.specs.Door.{number_count, told_numbers, call_of, made, state_with, left, given, left_with, given_move};

use calls::Call;
use making::make;
use recovery::{ANSWER_LENGTH, Done, Refusal, State, refuse};

// Where the state's numbers lie, after the answer's, and how many are given.
const END: usize = ANSWER_LENGTH;

const FLOOR: usize = END + 1;

const UNDECIDED: usize = FLOOR + 1;

const NUMBERS: usize = UNDECIDED + 1;

fn tell(out: &mut [u64], done: Done)
    requires { length out.old ≡ number_count }
    ensures { out.new ≡ told_numbers done.answer done.state }
{
    let answer = done.answer;
    let state = done.state;
    let numbers = <[u64; ANSWER_LENGTH]>::from(answer);
    out[..ANSWER_LENGTH].copy_from_slice(&numbers);
    out[END] = state.end;
    out[FLOOR] = state.floor;
    out[UNDECIDED] = state.undecided;
}

// A call by its number, which is C's.
#[tactic(auto, unfolding(crate::specs::Door::call_of))]
fn call_of(kind: u64, file: u64, time: u64, action: u64) -> Call
    ensures { result ≡ call_of kind file time action }
{
    match kind {
        0 => Call::Begin,
        1 => Call::Write(file, time, action),
        2 => Call::Read(file, time, action),
        3 => Call::Test(action),
        4 => Call::Commit(action),
        _ => Call::Abort(action),
    }
}

// A number that is no call's is refused 1.
#[tactic(auto, unfolding(crate::specs::Door::made))]
fn made(
    sheet: &mut [u8],
    fates: &mut [u8],
    rows: &mut [u64],
    state: State,
    kind: u64,
    call: Call,
    value: &[u8],
) -> Done
    ensures { left_by result sheet.new fates.new rows.new ≡ made sheet.old fates.old rows.old state kind call value.now }
{
    if 5 < kind {
        return refuse(Refusal::WrongSizes, state);
    }
    make(sheet, fates, rows, state, call, value)
}

// A call. The kinds are 0 begin, 1 write, 2 read, 3 test, 4 commit, 5 abort; the time is a write's start or a read's time, and what a
// call does not take is passed over.
#[unsafe(no_mangle)]
pub extern "C" fn door_call(
    sheet: &mut [u8],
    fates: &mut [u8],
    rows: &mut [u64],
    end: u64,
    floor: u64,
    undecided: u64,
    kind: u64,
    file: u64,
    time: u64,
    action: u64,
    value: &[u8],
    out: &mut [u64],
)
    ensures { left sheet.new fates.new rows.new out.new ≡ given sheet.old fates.old rows.old out.old (made sheet.old fates.old rows.old (state_with end floor undecided) kind (call_of kind file time action) value.now) }
{
    if out.len() != NUMBERS {
        return;
    }
    let state = State {
        end,
        floor,
        undecided,
    };
    let call = call_of(kind, file, time, action);
    let done = made(sheet, fates, rows, state, kind, call, value);
    tell(out, done);
}

// An opening.
#[unsafe(no_mangle)]
pub extern "C" fn door_open(
    sheet: &[u8],
    fates: &mut [u8],
    rows: &mut [u64],
    floor: u64,
    out: &mut [u64],
)
    ensures { left sheet.now fates.new rows.new out.new ≡ given sheet.now fates.old rows.old out.old (open_leaves sheet.now fates.old rows.old floor) }
{
    if out.len() != NUMBERS {
        return;
    }
    let done = opening::open(sheet, fates, rows, floor);
    tell(out, done);
}

// A rebuild.
#[unsafe(no_mangle)]
pub extern "C" fn door_rebuild(
    sheet: &[u8],
    fates: &[u8],
    rows: &mut [u64],
    end: u64,
    floor: u64,
    undecided: u64,
    file: u64,
    out: &mut [u64],
)
    ensures { left sheet.now fates.now rows.new out.new ≡ given sheet.now fates.now rows.old out.old (rebuild_leaves sheet.now fates.now rows.old (state_with end floor undecided) file) }
{
    if out.len() != NUMBERS {
        return;
    }
    let state = State {
        end,
        floor,
        undecided,
    };
    let done = rebuilding::rebuild(sheet, fates, rows, state, file);
    tell(out, done);
}

// A move to a fresh sheet.
#[unsafe(no_mangle)]
pub extern "C" fn door_move(
    sheet: &[u8],
    fates: &[u8],
    rows: &mut [u64],
    end: u64,
    floor: u64,
    undecided: u64,
    fresh: &mut [u8],
    out: &mut [u64],
)
    ensures { left_with (left sheet.now fates.now rows.new out.new) fresh.new ≡ given_move sheet.now fates.now rows.old fresh.old out.old (move_leaves sheet.now fates.now rows.old (state_with end floor undecided) fresh.old) }
{
    if out.len() != NUMBERS {
        return;
    }
    let state = State {
        end,
        floor,
        undecided,
    };
    let done = moving::move_to(sheet, fates, rows, state, fresh);
    tell(out, done);
}

// The highest start of the images on a sheet.
#[unsafe(no_mangle)]
pub extern "C" fn door_highest_start(sheet: &[u8], files: u64) -> u64
    ensures { result ≡ highest_start_of sheet.now files }
{
    recovery::highest_start(sheet, files)
}
