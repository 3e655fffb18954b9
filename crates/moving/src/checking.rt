// What the move looks for before it stores a page.
ghost use Rattle.std.specs.Prelude.{◌≡◌, ◌≤◌, ◌<◌};
ghost use Rattle.page.specs.Layout.{most_files};
ghost use Rattle.recovery.specs.Lent.{pages_of};
ghost use Rattle.inspection.specs.SomePlace.{some_place};
ghost use Rattle.moving.specs.Moved.{is_unused, lowest_undecided};
ghost use Rattle.moving.specs.MoveSteps.{move_line_one, survey_with, survey_to};

use page::Page;
use rebuilding::row_holds_in;
use recovery::{Row, State, View, fate_at, is_lent_right, row_of};

// Line 1, with the fresh sheet's length.
#[tactic(auto, unfolding(crate::specs::MoveSteps::move_line_one))]
pub(crate) fn is_movable(
    size: usize,
    fates: usize,
    numbers: usize,
    state: State,
    fresh: usize,
) -> bool
    ensures { result ≡ move_line_one size fates numbers state.end state.undecided fresh }
{
    let pages = fresh / Page::SIZE;
    is_lent_right(size, fates, numbers, state)
        & (fresh % Page::SIZE == 0)
        & ((1 <= pages) & (pages as u64 <= Page::MOST_PLACES))
}

// The lowest place up to the end with fate 1.
pub(crate) fn lowest_undecided(fates: &[u8], end: u64) -> Option<u64>
    ensures { result ≡ some_place (lowest_undecided fates.now end) }
{
    for place in 1..=end {
        if fate_at(fates, place) == 1 {
            return Some(place);
        }
    }
    None
}

// What the rows tell, read off in one pass: the lowest file whose row is damaged, how many rows have a current place, and the largest of
// the floor and both ends of every row.
#[derive(Clone, Copy)]
pub(crate) struct Survey {
    pub damaged: Option<u64>,
    pub versions: u64,
    pub highest: u64,
}

impl Survey {
    // The survey with one more row.
    #[tactic(auto, unfolding(crate::specs::MoveSteps::survey_with))]
    fn with_row(self, file: u64, row: Row, holds: bool) -> Survey
        requires { self.versions < most_files }
        ensures { result ≡ survey_with self file row holds }
    {
        Survey {
            damaged: self.damaged.or((!holds).then_some(file)),
            versions: self.versions + u64::from(row.current != 0),
            highest: self.highest.max(row.currentend.max(row.tokenend)),
        }
    }
}

// The survey of all rows. A damaged row does not end it: damage is rare, and so one loop tells all three.
pub(crate) fn survey_rows(view: View, rows: &[u64], end: u64, floor: u64) -> Survey
    requires { view.files ≤ most_files }
    ensures { result ≡ survey_to view.entry.sheet.now view.entry.files end rows.now floor view.entry.files }
{
    let mut survey = Survey {
        damaged: None,
        versions: 0,
        highest: floor,
    };
    for file in 1..=view.files {
        let row = row_of(rows, file);
        let holds = row_holds_in(view, end, file, row);
        survey = survey.with_row(file, row, holds);
    }
    survey
}

// Whether no page of the fresh sheet is used.
pub(crate) fn is_unused(fresh: View) -> bool
    ensures { result ≡ is_unused (pages_of fresh.entry.sheet.now fresh.entry.files) }
{
    for place in 1..=fresh.pages() {
        if !fresh.is_blank_at(place) {
            return false;
        }
    }
    true
}
