// Answers as replies, and the bytes of a reply.
ghost use Rattle.std.specs.Prelude.{◌≡◌};
ghost use Rattle.page.specs.Answers.{value_in};
ghost use Rattle.recovery.specs.Sheet.{page_bytes};
ghost use Rattle.recovery.specs.Numbers.{numbers_of};
ghost use Rattle.commands.specs.Replies.{prints};
ghost use Rattle.desk.specs.Wording.{stored_by, call_reply, open_reply, shown};

use calls::Call;
use commands::{Reply, print};
use page::Page;
use recovery::{ANSWER_LENGTH, Answer, part_at};

// The place of a call's page, in the call's own word.
fn stored_by(call: Call, place: u64) -> Reply
    ensures { result ≡ stored_by call place }
{
    match call {
        Call::Begin => Reply::Begun(place),
        Call::Write(_, _, _) => Reply::Written(place),
        Call::Read(_, _, _) => Reply::What,
        Call::Test(_) => Reply::What,
        Call::Commit(_) => Reply::Committed(place),
        Call::Abort(_) => Reply::Aborted(place),
    }
}

// The reply to a call, by its answer.
#[tactic(auto, unfolding(crate::specs::Wording::call_reply))]
pub(crate) fn call_reply(call: Call, answer: Answer) -> Reply
    ensures { result ≡ call_reply call (numbers_of answer) }
{
    match answer {
        Answer::Refused(why, place) => Reply::No(u64::from(why), place),
        Answer::Stored(place) => stored_by(call, place),
        Answer::Value(place, start, size) => Reply::Shown(place, start, size),
        Answer::Nothing => Reply::Nothing,
        Answer::Told(fate, place) => Reply::Told(fate, place),
        // These are no call's answers.
        Answer::Opened(x, y) | Answer::Rebuilt(x, y, _, _, _) => Reply::Told(x, y),
        Answer::Moved(x) => Reply::Told(x, 0),
    }
}

// The reply to an opening, by its answer.
#[tactic(auto, unfolding(crate::specs::Wording::open_reply))]
pub(crate) fn open_reply(answer: Answer) -> Reply
    ensures { result ≡ open_reply (numbers_of answer) }
{
    if let Answer::Refused(why, place) = answer {
        return Reply::No(u64::from(why), place);
    }
    let [_, end, undecided, ..] = <[u64; ANSWER_LENGTH]>::from(answer);
    Reply::Opened(end, undecided)
}

// The value's 32 bytes of the page at a place, zeros where the sheet has no such place.
fn value_at(sheet: &[u8], place: u64) -> [u8; Page::VALUE_SIZE]
    ensures { result ≡ value_in (page_bytes sheet.now place) }
{
    Page::value(part_at(sheet, place))
}

// The bytes of a reply, and how many they are.
pub(crate) fn tell(sheet: &[u8], reply: Reply, out: &mut [u8]) -> usize
    ensures { (result, out.new) ≡ prints reply (shown reply sheet.now) out.old }
{
    let Reply::Shown(place, _, size) = reply else {
        return print(reply, b"", out);
    };
    let value = value_at(sheet, place);
    if Page::VALUE_SIZE as u64 <= size {
        return print(reply, &value, out);
    }
    let n = size as usize;
    print(reply, &value[0..n], out)
}
