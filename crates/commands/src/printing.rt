// A reply to its line, as `specs/Replies.antt` says it.
ghost use Rattle.std.specs.Prelude.{◌≡◌, ◌+◌, ◌≤◌, ◌<◌, List, ℕ, [], ◌∷◌, ◌++◌, length, take};
ghost use Rattle.page.specs.Layout.{value_size};
ghost use Rattle.commands.specs.Replies.{decimal, spaced, newline, printed, room, laid, prints};
ghost use Rattle.commands.specs.Names.{read_name};

use page::Page;
use std::marker::Model;

// What the program answers to a line: the bytes of a cut; the end and the open count; the place of the call's page; place, start
// and size of what a read shows, whose value is lent beside it; a fate and the place of its outcome; a refusal's number and place, which
// `prints` takes whatever number it is.
#[derive(Clone, Copy)]
pub enum Reply {
    What,
    Closed,
    Lost,
    Cut(u64),
    Opened(u64, u64),
    Begun(u64),
    Written(u64),
    Shown(u64, u64, u64),
    Nothing,
    Told(u64, u64),
    Committed(u64),
    Aborted(u64),
    No(u64, u64),
}

// Room for the longest line.
pub const ROOM: usize = 128;

// A line as it grows. It is no String: there is no heap, and a value may have any bytes.
#[derive(Drop)]
struct Line {
    bytes: [u8; ROOM],
    len: usize,
}

impl Model for Line {
    ghost Value = { List ℕ };

    ghost view = { λ l. take l.len l.bytes };

    ghost invariant = { λ l. l.len ≤ 128 };
}

impl Line {
    fn new() -> Line
        ensures { result ≡ [] }
    {
        Line {
            bytes: [0; ROOM],
            len: 0,
        }
    }

    fn push(&mut self, b: u8)
        requires { length self.old < room }
        ensures { self.new ≡ self.old ++ b ∷ [] }
    {
        self.bytes[self.len] = b;
        self.len += 1;
    }

    fn push_run(&mut self, s: &[u8])
        requires { length self.old + length s.now ≤ room }
        ensures { self.new ≡ self.old ++ s.now }
    {
        for &b in s {
            self.push(b);
        }
    }

    // The digits before the last, and the last.
    fn push_decimal(&mut self, x: u64)
        requires { length self.old + length (decimal x) ≤ room }
        ensures { self.new ≡ self.old ++ decimal x }
    {
        if x < 10 {
            self.push(b'0' + x as u8);
            return;
        }
        self.push_decimal(x / 10);
        self.push(b'0' + (x % 10) as u8);
    }

    // A space and a number.
    #[tactic(auto, unfolding(crate::specs::Replies::spaced))]
    fn push_spaced(&mut self, x: u64)
        requires { length self.old + 21 ≤ room }
        ensures pushed { self.new ≡ self.old ++ spaced x }
        ensures within { length self.new ≤ length self.old + 21 }
    {
        self.push(b' ');
        self.push_decimal(x);
    }

    // Lays the line over the beginning of a run, and answers its length.
    fn lay(&self, out: &mut [u8]) -> usize
        requires { room ≤ length out.old }
        ensures { (result, out.new) ≡ laid self.now out.old }
    {
        out[..self.len].copy_from_slice(&self.bytes[..self.len]);
        self.len
    }
}

// A line that is a word, and one that is a word and a number, or two. One function over a run of numbers would need a bound on how many
// there are, and a sum of their digits in its contract.
fn word_line(word: &[u8]) -> Line
    requires { length word.now ≤ 6 }
    ensures { result ≡ word.now ++ newline }
{
    let mut line = Line::new();
    line.push_run(word);
    line.push(b'\n');
    line
}

fn one_line(word: &[u8], x: u64) -> Line
    requires { length word.now ≤ 6 }
    ensures { result ≡ word.now ++ spaced x ++ newline }
{
    let mut line = Line::new();
    line.push_run(word);
    line.push_spaced(x);
    line.push(b'\n');
    line
}

fn two_line(word: &[u8], x: u64, y: u64) -> Line
    requires { length word.now ≤ 6 }
    ensures { result ≡ word.now ++ spaced x ++ spaced y ++ newline }
{
    let mut line = Line::new();
    line.push_run(word);
    line.push_spaced(x);
    line.push_spaced(y);
    line.push(b'\n');
    line
}

// The line of a read that shows a value. How long a word and a value may be is asked here and above: `print` tests the value once, and the
// words are its own.
#[tactic(auto, unfolding(crate::specs::Names::read_name))]
fn shown_line(place: u64, start: u64, value: &[u8]) -> Line
    requires { length value.now ≤ value_size }
    ensures { result ≡ read_name ++ spaced place ++ spaced start ++ (32 ∷ value.now) ++ newline }
{
    let mut line = Line::new();
    line.push_run(b"read");
    line.push_spaced(place);
    line.push_spaced(start);
    line.push(b' ');
    line.push_run(value);
    line.push(b'\n');
    line
}

// The line of a reply.
#[tactic(auto, unfolding(crate::specs::Replies::printed, crate::specs::Names::open_name, crate::specs::Names::begin_name, crate::specs::Names::write_name, crate::specs::Names::test_name, crate::specs::Names::commit_name, crate::specs::Names::abort_name, crate::specs::Names::cut_name, crate::specs::Names::what_name, crate::specs::Names::closed_name, crate::specs::Names::lost_name, crate::specs::Names::none_name, crate::specs::Names::no_name))]
fn reply_line(reply: Reply, value: &[u8]) -> Line
    requires { length value.now ≤ value_size }
    ensures { result ≡ printed reply value.now }
{
    match reply {
        Reply::What => word_line(b"what"),
        Reply::Closed => word_line(b"closed"),
        Reply::Lost => word_line(b"lost"),
        Reply::Cut(n) => one_line(b"cut", n),
        Reply::Opened(end, count) => two_line(b"open", end, count),
        Reply::Begun(place) => one_line(b"begin", place),
        Reply::Written(place) => one_line(b"write", place),
        Reply::Shown(place, start, _) => shown_line(place, start, value),
        Reply::Nothing => word_line(b"none"),
        Reply::Told(fate, place) => two_line(b"test", fate, place),
        Reply::Committed(place) => one_line(b"commit", place),
        Reply::Aborted(place) => one_line(b"abort", place),
        Reply::No(number, place) => two_line(b"no", number, place),
    }
}

// Puts the line of a reply, with its newline, at the beginning of a run, and answers its length; 0 if nothing is put, as `prints` says.
#[tactic(auto, unfolding(crate::specs::Replies::prints))]
pub fn print(reply: Reply, value: &[u8], out: &mut [u8]) -> usize
    ensures { (result, out.new) ≡ prints reply value.now out.old }
{
    if (out.len() < ROOM) | (Page::VALUE_SIZE < value.len()) {
        return 0;
    }
    reply_line(reply, value).lay(out)
}
