// For the desk in C, to which the crate desk_c gives them: packing, the page test and inspection; the week test and the converter. A slice
// is a pointer and a count there; any count is taken. They answer numbers, and take the fields of a page one by one, as C does.
ghost use Rattle.std.specs.Prelude.{◌≡◌, length};
ghost use Rattle.page.specs.Answers.{pack_number, field_list};
ghost use Rattle.desk.specs.Exports.{field_count, fields_given, packed_for, tested_for, inspected_for, week_tested_for, converted_for};

use page::{PackError, Page, Unpacked};

// The fields from kind to start.
const FIELDS: usize = 6;

// What inspection answers for a sheet or a file count that it refuses: above every place.
const REFUSED: u64 = 0xffff_ffff_ffff_ffff;

fn pack_number(answer: Result<(), PackError>) -> u64
    ensures { result ≡ pack_number answer }
{
    match answer {
        Ok(()) => 0,
        Err(PackError::OutOfBounds) => 1,
        Err(PackError::Unfit) => 2,
    }
}

// Packs a page into the 64 bytes lent. 0: done; 1: a length, the place or the file count is wrong; 2: no such page.
pub fn desk_pack(
    kind: u64,
    small: u64,
    file: u64,
    action: u64,
    link: u64,
    start: u64,
    value: &[u8],
    place: u64,
    files: u64,
    out: &mut [u8],
) -> u64
    ensures { (result, out.new) ≡ packed_for (record { kind = kind; small = small; file = file; action = action; link = link; start = start }) value.now place files out.old }
{
    if value.len() != Page::VALUE_SIZE {
        return 1;
    }
    let mut bytes = [0u8; Page::VALUE_SIZE];
    encoding::copy(&mut bytes, value);
    let page = Page {
        kind,
        small,
        file,
        action,
        link,
        start,
    };
    let answer = page.pack(&bytes, place, files, out);
    pack_number(answer)
}

// The six fields, kind to start.
fn give(fields: &mut [u64], page: Page)
    requires { length fields.old ≡ field_count }
    ensures { fields.new ≡ field_list page }
{
    fields[0] = page.kind;
    fields[1] = page.small;
    fields[2] = page.file;
    fields[3] = page.action;
    fields[4] = page.link;
    fields[5] = page.start;
}

// The number of an answer; the fields of a page that fits.
#[tactic(auto, unfolding(crate::specs::Exports::fields_given))]
fn give_found(fields: &mut [u64], found: Unpacked) -> u64
    requires { length fields.old ≡ field_count }
    ensures { (result, fields.new) ≡ fields_given found fields.old }
{
    match found {
        Unpacked::Refused => 1,
        Unpacked::Blank => 3,
        Unpacked::Torn => 4,
        Unpacked::Opening(page) | Unpacked::Image(page) | Unpacked::Outcome(page) => {
            give(fields, page);
            0
        }
        Unpacked::Unfit => 2,
    }
}

// Tests a page. 0: it fits, and its six fields are given; 1: a length, the place or the file count is wrong; 2: unfit; 3: blank;
// 4: torn.
pub fn desk_test(part: &[u8], place: u64, files: u64, fields: &mut [u64]) -> u64
    ensures { (result, fields.new) ≡ tested_for part.now place files fields.old }
{
    if fields.len() != FIELDS {
        return 1;
    }
    let found = Page::test(part, place, files);
    give_found(fields, found)
}

// Inspects a sheet: 0 if it is lawful, the lowest place that is bad or does not fit, or REFUSED.
pub fn desk_inspect(sheet: &[u8], files: u64) -> u64
    ensures { result ≡ inspected_for sheet.now files }
{
    inspection::inspect(sheet, files).unwrap_or(REFUSED)
}

// Tests a week: its edition, or a refusal.
pub fn desk_week_test(week: &[u8]) -> u64
    ensures { result ≡ week_tested_for week.now }
{
    match weeks::week_test(week) {
        Ok(edition) => edition,
        Err(refusal) => u64::from(refusal),
    }
}

// Writes a week in another edition, with the mask where that has one: 0, or a refusal.
pub fn desk_convert(week: &[u8], mask: u16, out: &mut [u8]) -> u64
    ensures { (result, out.new) ≡ converted_for week.now mask out.old }
{
    match weeks::convert(week, mask, out) {
        Ok(()) => 0,
        Err(refusal) => u64::from(refusal),
    }
}
