// The lines of the refusals (docs/STORE.md, Why a call says no) that several calls test: `Err` where a line refuses.
ghost use Rattle.std.specs.Prelude.{◌≡◌, ◌+◌};
ghost use Rattle.calls.specs.LineSteps.{known_fate, action_line, room_line};

use recovery::{Refusal, View, fate_at};

// Line 5: an action's fate, 1 to 3.
#[tactic(auto, unfolding(crate::specs::LineSteps::known_fate))]
pub fn known_fate(fates: &[u8], end: u64, action: u64) -> Result<u64, Refusal>
    ensures { result ≡ known_fate fates.now end action }
{
    let fate = fate_at(fates, action);
    if end < action {
        return Err(Refusal::NoAction);
    }
    if !matches!(fate, 1..=3) {
        return Err(Refusal::NoAction);
    }
    Ok(fate)
}

// Lines 5 and 6.
#[tactic(auto, unfolding(crate::specs::LineSteps::action_line))]
pub fn action_line(fates: &[u8], end: u64, action: u64) -> Result<(), Refusal>
    ensures { result ≡ action_line fates.now end action }
{
    let fate = known_fate(fates, end, action)?;
    if fate != 1 {
        return Err(Refusal::AlreadyDecided);
    }
    Ok(())
}

// Lines 11 and 12, for a call that stores one page above the end and leaves so many more for outcomes.
#[tactic(auto, using(crate::proofs::RoomLines::line_11, crate::proofs::RoomLines::line_12, crate::proofs::RoomLines::line_free))]
pub fn room_line(view: View, end: u64, reserve: u64) -> Result<(), Refusal>
    ensures { result ≡ room_line view.entry.sheet.now end view.entry.files (reserve + 1) }
{
    let pages = view.pages();
    if pages <= end {
        return Err(Refusal::NoRoom);
    }
    if pages - end <= reserve {
        return Err(Refusal::NoRoom);
    }
    if !view.is_blank_at(end + 1) {
        return Err(Refusal::NotBlank);
    }
    Ok(())
}
