// A line of input to a command, as `specs/Commands.antt` says it.
ghost use Rattle.std.specs.Prelude.{◌≡◌, Some, suc, ◌+◌, ◌≤◌, [], length, take, drop, get_or};
ghost use Rattle.encoding.specs.Bytes.{same};
ghost use Rattle.commands.specs.Commands.{words, number_of, is_text, alone, with_one, with_two, with_three, with_text, parsed};
ghost use Rattle.commands.specs.ParseSteps.{space_at, number_at, numbers_in, add_digit};

use calls::Call;
use page::Page;

// What a line asks for: a bare open, open with the file count and the floor, cut with a number of bytes, or a call and the index at which a
// write's text begins. For the other calls that is the line's length, so that they are lent no value. It is an index and no slice: a command
// is a value of its own, which `parsed` says whatever memory the line lies in.
#[derive(Clone, Copy)]
pub enum Command {
    BareOpen,
    Open(u64, u64),
    Cut(u64),
    Call(Call, usize),
}

// Where the first space from an index on stands, or the line's length.
fn space_from(line: &[u8], from: usize) -> usize
    requires { from ≤ length line.now }
    ensures value { result ≡ from + space_at (drop from line.now) }
    ensures within { result ≤ length line.now }
{
    let rest = &line[from..];
    from + rest.iter().position(|&b| b == b' ').unwrap_or(rest.len())
}

// The two runs have the same bytes: `==`, in the word of the definitions.
fn is_same(s: &[u8], t: &[u8]) -> bool
    ensures { result ≡ same s.now t.now }
{
    s == t
}

// A number with one digit more, if the byte is a digit and the number stays below 2^64.
#[tactic(auto, unfolding(crate::specs::ParseSteps::add_digit))]
fn add_digit(n: u64, b: u8) -> Option<u64>
    ensures { result ≡ add_digit n b }
{
    if !matches!(b, b'0'..=b'9') {
        return None;
    }
    n.checked_mul(10)?.checked_add(u64::from(b - b'0'))
}

// A word as a number.
fn number_of(w: &[u8]) -> Option<u64>
    ensures { result ≡ number_of w.now }
{
    if w.is_empty() {
        return None;
    }
    let mut n: u64 = 0;
    for &b in w {
        n = add_digit(n, b)?;
    }
    Some(n)
}

// How many words there are: one more than the spaces.
#[tactic(auto, using(crate::proofs::Lines::words_counted))]
fn count_words(line: &[u8]) -> usize
    ensures { result ≡ length (words line.now) }
{
    1 + line.iter().filter(|&&b| b == b' ').count()
}

// Where the word after the one at an index begins, or the line's length.
fn next_word(line: &[u8], from: usize) -> usize
    requires { from ≤ length line.now }
    ensures line_value { drop result line.now ≡ drop (suc (space_at (drop from line.now))) (drop from line.now) }
    ensures within { result ≤ length line.now }
{
    let space = space_from(line, from);
    if space < line.len() {
        return space + 1;
    }
    space
}

// Where word k begins, the first being word 0, or the line's length.
fn word_start(line: &[u8], k: usize) -> usize
    ensures k_value { get_or (words line.now) k [] ≡ get_or (words (drop result line.now)) 0 [] }
    ensures within { result ≤ length line.now }
{
    let mut at = 0;
    for _ in 0..k {
        at = next_word(line, at);
    }
    at
}

// Word k, empty past the last.
fn word(line: &[u8], k: usize) -> &[u8]
    ensures result_value { result.now ≡ get_or (words line.now) k [] }
    ensures within { length result.now ≤ length line.now }
{
    let from = word_start(line, k);
    let to = space_from(line, from);
    &line[from..to]
}

// A text: one or more bytes from 0x21 to 0x7E.
#[tactic(auto, using(crate::proofs::Lines::printable_all), unfolding(crate::specs::Commands::is_text))]
fn is_text(w: &[u8]) -> bool
    ensures { result ≡ is_text w.now }
{
    !w.is_empty() && w.iter().all(|b| matches!(b, 0x21..=0x7E))
}

// A line of one word. Here and below, `size` is the line's length.
#[tactic(auto, unfolding(crate::specs::Commands::alone, crate::specs::Names::open_name, crate::specs::Names::begin_name))]
fn alone(size: usize, w: &[u8]) -> Option<Command>
    ensures { result ≡ alone size w.now }
{
    if is_same(w, b"open") {
        return Some(Command::BareOpen);
    }
    if is_same(w, b"begin") {
        return Some(Command::Call(Call::Begin, size));
    }
    None
}

// A cut is after no more bytes than a page has.
const MOST_CUT: u64 = Page::SIZE as u64;

// A word and a number.
#[tactic(auto, unfolding(crate::specs::Commands::with_one, crate::specs::Names::test_name, crate::specs::Names::commit_name, crate::specs::Names::abort_name, crate::specs::Names::cut_name))]
fn with_one(size: usize, w: &[u8], number: Option<u64>) -> Option<Command>
    ensures { result ≡ with_one size w.now number }
{
    let n = number?;
    if is_same(w, b"test") {
        return Some(Command::Call(Call::Test(n), size));
    }
    if is_same(w, b"commit") {
        return Some(Command::Call(Call::Commit(n), size));
    }
    if is_same(w, b"abort") {
        return Some(Command::Call(Call::Abort(n), size));
    }
    if is_same(w, b"cut") & (n <= MOST_CUT) {
        return Some(Command::Cut(n));
    }
    None
}

// A word and two numbers. Each of these knows words of its own, and so no function serves two of them.
#[tactic(auto, unfolding(crate::specs::Commands::with_two, crate::specs::Names::open_name))]
fn with_two(w: &[u8], first: Option<u64>, second: Option<u64>) -> Option<Command>
    ensures { result ≡ with_two w.now first second }
{
    let a = first?;
    let b = second?;
    if is_same(w, b"open") {
        return Some(Command::Open(a, b));
    }
    None
}

// A word and three numbers.
#[tactic(auto, unfolding(crate::specs::Commands::with_three, crate::specs::Names::read_name))]
fn with_three(size: usize, w: &[u8], numbers: Option<(u64, u64, u64)>) -> Option<Command>
    ensures { result ≡ with_three size w.now numbers }
{
    let (a, b, c) = numbers?;
    if is_same(w, b"read") {
        return Some(Command::Call(Call::Read(a, b, c), size));
    }
    None
}

// A word, three numbers and a text, which ends the line.
#[tactic(auto, unfolding(crate::specs::Commands::with_text, crate::specs::Names::write_name))]
fn with_text(
    size: usize,
    w: &[u8],
    numbers: Option<(u64, u64, u64)>,
    text: &[u8],
) -> Option<Command>
    requires { length text.now ≤ size }
    ensures { result ≡ with_text size w.now numbers text.now }
{
    let (a, b, c) = numbers?;
    if is_same(w, b"write") & is_text(text) {
        return Some(Command::Call(Call::Write(a, b, c), size - text.len()));
    }
    None
}

// Word k as a number.
#[tactic(auto, unfolding(crate::specs::ParseSteps::number_at))]
fn number_at(line: &[u8], k: usize) -> Option<u64>
    ensures { result ≡ number_at line.now k }
{
    number_of(word(line, k))
}

// Words 1 to 3 as numbers.
#[tactic(auto, unfolding(crate::specs::ParseSteps::numbers_in, crate::specs::Commands::three))]
fn numbers_in(line: &[u8]) -> Option<(u64, u64, u64)>
    ensures { result ≡ numbers_in line.now }
{
    Some((
        number_at(line, 1)?,
        number_at(line, 2)?,
        number_at(line, 3)?,
    ))
}

// The longest line that is taken.
pub const LONGEST: usize = 255;

// The command that a line, without its newline, is, if it is one.
pub fn parse(line: &[u8]) -> Option<Command>
    ensures { result ≡ parsed line.now }
{
    let size = line.len();
    if LONGEST < size {
        return None;
    }
    match count_words(line) {
        1 => alone(size, word(line, 0)),
        2 => with_one(size, word(line, 0), number_at(line, 1)),
        3 => with_two(word(line, 0), number_at(line, 1), number_at(line, 2)),
        4 => with_three(size, word(line, 0), numbers_in(line)),
        5 => with_text(size, word(line, 0), numbers_in(line), word(line, 4)),
        _ => None,
    }
}
