// Recovery: what a sheet says, read off its pages alone (docs/STORE.md, The calls). Here are the definitions, the rows, and the look-ups;
// a bare `open` asks for the highest start. Open, which finds the end, the bad pages and the fates, is the crate `opening`, and rebuild,
// which finds a file's row, the crate `rebuilding`.
#![tactic(auto)]

mod lookup;
mod numbering;
mod rolling;
mod rows;
mod starts;

ghost use Rattle.std.specs.Prelude.{◌≡◌};
ghost use Rattle.recovery.specs.Lent.{sizes_right};
ghost use Rattle.recovery.specs.Steps.{line_one, refusal};

pub use lookup::{View, fate_at, part_at};
use page::Page;
pub use rolling::raised_row;
pub use rows::{file_count, has_file, is_file, next_named, row_of, set_row};
pub use starts::highest_start;

// A file's row (a cached index entry): its rebuilt mark, the place of the current version and how far it was read, the place of
// the token, how far that one, or one that it overtook, was read, and its action. Place 0 is none, and so is action 0. Numbers as they are
// lent, no Option and no bool: a lent row may hold any, and line 7 (`row_holds`) tells the damaged ones.
#[derive(Clone, Copy)]
pub struct Row {
    pub mark: u64,
    pub current: u64,
    pub currentend: u64,
    pub token: u64,
    pub tokenend: u64,
    pub tokenaction: u64,
}

impl Row {
    // The row of which nothing is known.
    pub const COLD: Row = Row {
        mark: 0,
        current: 0,
        currentend: 0,
        token: 0,
        tokenend: 0,
        tokenaction: 0,
    };
}

// The state that is kept by value: the end (the log's tail), the floor (a lower bound of starts) and the open count.
#[derive(Clone, Copy)]
pub struct State {
    pub end: u64,
    pub floor: u64,
    pub undecided: u64,
}

impl State {
    // Of no sheet that is open.
    pub const CLOSED: State = State {
        end: 0,
        floor: 0,
        undecided: 0,
    };
}

// Why a call says no, in the order of docs/STORE.md. `specs/Numbers.antt` has the number of each; 14 is not used.
#[derive(Clone, Copy)]
pub enum Refusal {
    // What is lent has the wrong sizes, or the state is too high for it.
    WrongSizes,
    // A page of the sheet is bad.
    BadPage,
    // There is no such file.
    NoFile,
    // The value has too many bytes.
    LongValue,
    // There is no such action.
    NoAction,
    // The action is decided already.
    AlreadyDecided,
    // The row does not go with the sheet.
    DamagedRow,
    // The file has a token of another action.
    OtherToken,
    // The answer hangs on how another action is decided.
    HangingRead,
    // The start is not above the file's current end and the floor.
    EarlyStart,
    // There are too few pages.
    NoRoom,
    // The page above the end, or the fresh sheet, is not blank.
    NotBlank,
    // A link does not lead to an image of the file.
    LostLink,
    // A move meets an undecided action.
    UndecidedAction,
    // The sheet is a fresh one, and the move to it was cut.
    UnfinishedMove,
    // What was asked for is on an older sheet.
    OnOlderSheet,
}

// What a call answers: why it is refused, and the place that is named, 0 if none; open's end and open count; the numbers of a row after
// its mark; the place of the call's page; place, start and length of a value; none; a fate, and the place of the newest outcome; the
// floor for a fresh sheet. A refusal is one of the answers, and no Err around them: what is heard has one list of numbers (`numbers_of`),
// and the promises speak of that.
#[derive(Clone, Copy)]
pub enum Answer {
    Refused(Refusal, u64),
    Opened(u64, u64),
    Rebuilt(u64, u64, u64, u64, u64),
    Stored(u64),
    Value(u64, u64, u64),
    Nothing,
    Told(u64, u64),
    Moved(u64),
}

#[derive(Clone, Copy)]
pub struct Done {
    pub answer: Answer,
    pub state: State,
}

// What the pass of open has found so far: the end, and the highest bad place up to it, 0 if there is none, as in the definition
// `highest_bad` and in a refusal's place: an Option would be turned back into it at once.
#[derive(Clone, Copy)]
pub struct Scan {
    pub end: u64,
    pub bad: u64,
}

// How many numbers of the lent run a row has.
pub const ROW_LENGTH: usize = 6;

// How many numbers an answer has: which it is, and then at most a row's numbers after its mark.
pub const ANSWER_LENGTH: usize = ROW_LENGTH;

// A sheet of at most so many pages is small: arrays for its pages are sooner cleared.
pub const FEW_PAGES: usize = 1024;

// Line 1, by the lengths of sheet, fates and rows.
#[tactic(auto, unfolding(crate::specs::Lent::sizes_right))]
pub fn is_sized(size: usize, fates: usize, numbers: usize) -> bool
    ensures { result ≡ sizes_right size fates numbers }
{
    let pages = size / Page::SIZE;
    let files = numbers / ROW_LENGTH;
    let whole = (size % Page::SIZE == 0) & (numbers % ROW_LENGTH == 0);
    whole
        & ((1 <= pages)
            & (pages as u64 <= Page::MOST_PLACES)
            & (fates == pages)
            & (1 <= files)
            & (files as u64 <= Page::MOST_FILES))
}

// Line 1 for a call on an open sheet.
#[tactic(auto, unfolding(crate::specs::Steps::line_one))]
pub fn is_lent_right(size: usize, fates: usize, numbers: usize, state: State) -> bool
    ensures { result ≡ line_one size fates numbers state.end state.undecided }
{
    is_sized(size, fates, numbers)
        & (state.end <= (size / Page::SIZE) as u64)
        & (state.undecided <= state.end)
}

// A refusal that names no place.
pub fn refuse(why: Refusal, state: State) -> Done
    ensures { result ≡ refusal why state }
{
    Done {
        answer: Answer::Refused(why, 0),
        state,
    }
}
