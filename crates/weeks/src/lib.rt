// Weeks of opening hours as the lock heads of each edition take them: the week test, and the converter from one edition to another.
// Every public function takes every run of bytes: none asks anything of its caller.
#![tactic(auto)]

mod days;
mod masks;
mod times;

ghost use Rattle.std.specs.Prelude.{◌≡◌, ◌*◌, length, take, option_map, IfSome};
ghost use Rattle.weeks.specs.Editions.{times_a_week, size, named, edition_number, width, limit, minutes, mask_size};
ghost use Rattle.weeks.specs.Weeks.{uneven_day, lowest_day, times_in, in_edition};
ghost use Rattle.weeks.specs.Answers.{week_test, converted, converted_by, refusal_code};

use masks::{enough_keyholders, put_mask};
use times::{put_time, units};

// An edition of the lock heads. The third is as the second, and has a mask of the keyholders who must attend.
#[derive(Clone, Copy)]
pub enum Edition {
    First,
    Second,
    Third,
}

// Why a week or a conversion is refused; a day is named by its number, 1 to 7.
#[derive(Clone, Copy)]
pub enum Refusal {
    Length,
    Times(u8),
    Minutes(u8),
    Keyholders,
    StepDown,
}

// Its number, and the day that it names above the lowest eight bits.
impl From<Refusal> for u64 {
    ghost from_gives = { λ r n. n ≡ refusal_code r };

    fn from(refusal: Refusal) -> u64 {
        match refusal {
            Refusal::Length => 15,
            Refusal::Times(day) => 16 + 256 * u64::from(day),
            Refusal::Minutes(day) => 17 + 256 * u64::from(day),
            Refusal::Keyholders => 29,
            Refusal::StepDown => 30,
        }
    }
}

impl Edition {
    // A week has seven days, each with an opening and a closing.
    pub const DAYS: usize = 7;

    pub const TIMES: usize = 14;

    // The edition whose weeks have this many bytes.
    #[tactic(auto, unfolding(crate::specs::Editions::named, crate::specs::Editions::named_in, crate::specs::Editions::size))]
    fn of(size: usize) -> Option<Edition>
        ensures { result ≡ named size }
    {
        match size {
            14 => Some(Edition::First),
            28 => Some(Edition::Second),
            30 => Some(Edition::Third),
            _ => None,
        }
    }

    // Its number and what it takes: columns of a table.
    pub fn number(self) -> u64
        ensures { result ≡ edition_number self }
    {
        match self {
            Edition::First => 1,
            Edition::Second => 2,
            Edition::Third => 3,
        }
    }

    // The bytes of a time.
    pub fn width(self) -> usize
        ensures { result ≡ width self }
    {
        match self {
            Edition::First => 1,
            Edition::Second | Edition::Third => 2,
        }
    }

    // The highest time.
    pub fn limit(self) -> u64
        ensures { result ≡ limit self }
    {
        match self {
            Edition::First => 96,
            Edition::Second | Edition::Third => 1440,
        }
    }

    // The minutes of a unit of time: a quarter hour, or one.
    pub fn minutes(self) -> u64
        ensures { result ≡ minutes self }
    {
        match self {
            Edition::First => 15,
            Edition::Second | Edition::Third => 1,
        }
    }

    // The bytes of the keyholder mask.
    pub fn mask_size(self) -> usize
        ensures { result ≡ mask_size self }
    {
        match self {
            Edition::First | Edition::Second => 0,
            Edition::Third => 2,
        }
    }
}

// A week of opening hours as an edition writes it. An output lies beside its edition: in a struct with a `&mut`, the five clauses on its
// length would go, and seven come, that its edition and its reference (`ghost_name`) stay.
#[derive(Clone, Copy)]
struct Week<'a> {
    edition: Edition,
    bytes: &'a [u8],
    ghost long: { length bytes.now ≡ size edition },
}

impl<'a> Week<'a> {
    // The week of the edition that the length names.
    fn of(bytes: &'a [u8]) -> Option<Week<'a>>
        ensures edition { option_map (λ w. w.edition) result ≡ named (length bytes.now) }
        ensures bytes { IfSome result (λ w. w.bytes.now ≡ bytes.now) }
    {
        let edition = Edition::of(bytes.len())?;
        Some(Week { edition, bytes })
    }

    // Writes the times in another edition, which can tell all the minutes.
    fn write_times(self, o: Edition, out: &mut [u8])
        requires { (length out.old ≡ size o) × (lowest_day (uneven_day self.edition o self.bytes.now) ≡ 0) }
        ensures { take (width o * times_a_week) out.new ≡ times_in self.entry.edition o self.entry.bytes.now }
    {
        for k in 0..Edition::TIMES {
            put_time(o, out, k, units(self.edition, o, self.time(k)));
        }
    }

    // Writes the times, and behind them the mask, where that edition has one.
    fn write(self, o: Edition, mask: u16, out: &mut [u8])
        requires { (length out.old ≡ size o) × (lowest_day (uneven_day self.edition o self.bytes.now) ≡ 0) }
        ensures { out.new ≡ in_edition self.entry.edition o self.entry.bytes.now mask }
    {
        self.write_times(o, out);
        put_mask(o, mask, out);
    }

    // From its edition to another: 30, then 16, 29 and 17.
    fn convert_to(self, o: Edition, mask: u16, out: &mut [u8]) -> Result<(), Refusal>
        requires { length out.old ≡ size o }
        ensures { (result, out.new) ≡ converted_by self.entry.edition o self.entry.bytes.now mask out.old }
    {
        if o.mask_size() < self.edition.mask_size() {
            return Err(Refusal::StepDown);
        }
        let faults = self.faults(o);
        if let Some(wrong) = faults.wrong {
            return Err(Refusal::Times(wrong));
        }
        if !enough_keyholders(o, mask) {
            return Err(Refusal::Keyholders);
        }
        if let Some(uneven) = faults.uneven {
            return Err(Refusal::Minutes(uneven));
        }
        self.write(o, mask, out);
        Ok(())
    }
}

// The edition's number, which is what C is answered, or what is wrong with the week: 15, then 16, then 29.
pub fn week_test(week: &[u8]) -> Result<u64, Refusal>
    ensures { result ≡ week_test week.now }
{
    let week = Week::of(week).ok_or(Refusal::Length)?;
    // Every time is a whole number of minutes, so that no time is uneven.
    if let Some(day) = week.faults(Edition::Second).wrong {
        return Err(Refusal::Times(day));
    }
    if enough_keyholders(week.edition, week.keyholders()) {
        Ok(week.edition.number())
    } else {
        Err(Refusal::Keyholders)
    }
}

// Writes the week into the output in another edition, which the output's length names, with the caller's mask where that edition has one:
// 15, then 30, 16, 29 and 17.
pub fn convert(week: &[u8], mask: u16, out: &mut [u8]) -> Result<(), Refusal>
    ensures { (result, out.new) ≡ converted week.now mask out.old }
{
    let hours = Week::of(week).ok_or(Refusal::Length)?;
    let o = Edition::of(out.len()).ok_or(Refusal::Length)?;
    if week.len() == out.len() {
        return Err(Refusal::Length);
    }
    hours.convert_to(o, mask, out)
}
