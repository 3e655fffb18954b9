// An answer as numbers, as `specs/Numbers.antt` has them.
ghost use Rattle.std.specs.Prelude.{◌≡◌};
ghost use Rattle.recovery.specs.Numbers.{numbers_of, refusal_number};

use crate::{ANSWER_LENGTH, Answer, Refusal};

impl From<Refusal> for u64 {
    ghost from_gives = { λ why n. n ≡ refusal_number why };

    // The number of a refusal.
    fn from(why: Refusal) -> u64 {
        match why {
            Refusal::WrongSizes => 1,
            Refusal::BadPage => 2,
            Refusal::NoFile => 3,
            Refusal::LongValue => 4,
            Refusal::NoAction => 5,
            Refusal::AlreadyDecided => 6,
            Refusal::DamagedRow => 7,
            Refusal::OtherToken => 8,
            Refusal::HangingRead => 9,
            Refusal::EarlyStart => 10,
            Refusal::NoRoom => 11,
            Refusal::NotBlank => 12,
            Refusal::LostLink => 13,
            Refusal::UndecidedAction => 23,
            Refusal::UnfinishedMove => 24,
            Refusal::OnOlderSheet => 25,
        }
    }
}

// Which of the eight it is, then its values and zeros.
impl From<Answer> for [u64; ANSWER_LENGTH] {
    ghost from_gives = { λ answer numbers. numbers ≡ numbers_of answer };

    fn from(answer: Answer) -> [u64; ANSWER_LENGTH] {
        match answer {
            Answer::Refused(why, place) => [0, u64::from(why), place, 0, 0, 0],
            Answer::Opened(end, undecided) => [1, end, undecided, 0, 0, 0],
            Answer::Rebuilt(current, currentend, token, tokenend, tokenaction) => {
                [2, current, currentend, token, tokenend, tokenaction]
            }
            Answer::Stored(place) => [3, place, 0, 0, 0, 0],
            Answer::Value(place, start, size) => [4, place, start, size, 0, 0],
            Answer::Nothing => [5, 0, 0, 0, 0, 0],
            Answer::Told(fate, place) => [6, fate, place, 0, 0, 0],
            Answer::Moved(floor) => [7, floor, 0, 0, 0, 0],
        }
    }
}
