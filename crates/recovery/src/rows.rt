// Rows: a file's row in the lent run of numbers.
ghost use Rattle.std.specs.Prelude.{◌≡◌, ◌+◌, ◌*◌, ◌/◌, ◌≤◌, ◌<◌, ℕ, [], false, length, get_or};
ghost use Rattle.recovery.specs.World.{is_file, is_rebuilt_for};
ghost use Rattle.recovery.specs.Lent.{row_length, row_from, numbers, put_row};
ghost use Rattle.recovery.specs.Steps.{row_of, names_action, in_four, next_named, with_row_of};

use crate::{ROW_LENGTH, Row};

// Where the action of the token lies among a row's numbers.
const TOKEN_ACTION: usize = ROW_LENGTH - 1;

// A row of its numbers as they lie in the run, and its numbers.
impl From<[u64; ROW_LENGTH]> for Row {
    ghost from_gives = { λ numbers row. row ≡ row_from numbers 0 };

    fn from(numbers: [u64; ROW_LENGTH]) -> Row {
        let [mark, current, currentend, token, tokenend, tokenaction] = numbers;
        Row {
            mark,
            current,
            currentend,
            token,
            tokenend,
            tokenaction,
        }
    }
}

impl From<Row> for [u64; ROW_LENGTH] {
    ghost from_gives = { λ row result. result ≡ numbers row };

    fn from(row: Row) -> [u64; ROW_LENGTH] {
        [
            row.mark,
            row.current,
            row.currentend,
            row.token,
            row.tokenend,
            row.tokenaction,
        ]
    }
}

// How many files a run of so many numbers has rows for.
pub fn file_count(numbers: usize) -> u64
    ensures { result ≡ numbers / row_length }
{
    (numbers / ROW_LENGTH) as u64
}

// The number of a file, of so many.
pub fn is_file(files: u64, file: u64) -> bool
    ensures { result ≡ is_file files file }
{
    (1 <= file) & (file <= files)
}

// Line 3, by the length of the run.
pub fn has_file(numbers: usize, file: u64) -> bool
    ensures { result ≡ is_file (numbers / row_length) file }
{
    is_file(file_count(numbers), file)
}

// The row of a file, cold for no file.
#[tactic(auto, using(crate::proofs::Lookups::row_none, crate::proofs::Lookups::row_some, crate::proofs::FlatRows::chunk_row))]
pub fn row_of(rows: &[u64], file: u64) -> Row
    ensures { result ≡ row_of rows.now file }
{
    if !has_file(rows.len(), file) {
        return Row::COLD;
    }
    let (rows, _) = rows.as_chunks();
    Row::from(rows[file as usize - 1])
}

// Whether a row, by its numbers, has this action as its token's.
fn names_action(row: &[u64; ROW_LENGTH], action: u64) -> bool
    ensures { result ≡ names_action row.now action }
{
    row[TOKEN_ACTION] == action
}

// Whether a row is rebuilt and names this action.
fn is_rebuilt_for(row: &[u64; ROW_LENGTH], action: u64) -> bool
    ensures { result ≡ is_rebuilt_for action (row_from row.now 0) }
{
    (row[0] == 1) & names_action(row, action)
}

// Whether one of four rows has this action as its token's, whatever its mark: no choice but one for all four.
#[tactic(auto, unfolding(crate::specs::Steps::in_four))]
fn is_in_four(rows: &[[u64; ROW_LENGTH]; 4], action: u64) -> bool
    ensures { result ≡ in_four rows.now action }
{
    names_action(&rows[0], action)
        | names_action(&rows[1], action)
        | names_action(&rows[2], action)
        | names_action(&rows[3], action)
}

// How many of these rows to pass over, four at a time: none of them names the action.
fn skip_fours(rows: &[[u64; ROW_LENGTH]], action: u64) -> usize
    ensures { (result ≤ length rows.now) × ((i : ℕ) → i < result → names_action (get_or rows.now i []) action ≡ false) }
{
    let (fours, _) = rows.as_chunks();
    for (n, four) in fours.iter().enumerate() {
        if is_in_four(four, action) {
            return 4 * n;
        }
    }
    4 * fours.len()
}

// How many files lie before the next rebuilt row that names the action, once so many are passed. If there is none: all of them, or as many
// as were passed. No range counts k: it goes on by as many rows as were passed over.
pub fn next_named(rows: &[u64], passed: u64, action: u64) -> u64
    ensures { result ≡ next_named rows.now passed action }
{
    let (each, _) = rows.as_chunks();
    let mut k = passed as usize;
    while k < each.len() {
        if is_rebuilt_for(&each[k], action) {
            return k as u64;
        }
        k += 1 + skip_fours(&each[k + 1..], action);
    }
    k as u64
}

// Puts a file's row into the run; for no file nothing changes.
#[tactic(auto, using(crate::proofs::Lookups::set_none))]
pub fn set_row(rows: &mut [u64], file: u64, row: Row)
    ensures { rows.new ≡ with_row_of rows.old file row }
{
    if !has_file(rows.len(), file) {
        return;
    }
    let at = ROW_LENGTH * (file as usize - 1);
    rows[at..at + ROW_LENGTH].copy_from_slice(&<[u64; ROW_LENGTH]>::from(row));
}
