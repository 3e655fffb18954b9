// The library for C, libdesk.a with the header c/desk.h: each function is the desk's of the same name, under the name by which C calls it.
#![tactic(auto)]

ghost use Rattle.std.specs.Prelude.{◌≡◌};
ghost use Rattle.desk.specs.Exports.{packed_for, tested_for, inspected_for, week_tested_for, converted_for};

use desk::exports;

// Packs a page into the 64 bytes lent. 0: done; 1: a length, the place or the file count is wrong; 2: no such page.
#[unsafe(no_mangle)]
pub extern "C" fn desk_pack(
    kind: u64,
    small: u64,
    file: u64,
    action: u64,
    link: u64,
    start: u64,
    value: &[u8],
    place: u64,
    files: u64,
    out: &mut [u8],
) -> u64
    ensures { (result, out.new) ≡ packed_for (record { kind = kind; small = small; file = file; action = action; link = link; start = start }) value.now place files out.old }
{
    exports::desk_pack(
        kind, small, file, action, link, start, value, place, files, out,
    )
}

// Tests a page. 0: it fits, and its six fields are given; 1: a length, the place or the file count is wrong; 2: unfit; 3: blank;
// 4: torn.
#[unsafe(no_mangle)]
pub extern "C" fn desk_test(part: &[u8], place: u64, files: u64, fields: &mut [u64]) -> u64
    ensures { (result, fields.new) ≡ tested_for part.now place files fields.old }
{
    exports::desk_test(part, place, files, fields)
}

// Inspects a sheet: 0 if it is lawful, the lowest place that is bad or does not fit, or the largest number.
#[unsafe(no_mangle)]
pub extern "C" fn desk_inspect(sheet: &[u8], files: u64) -> u64
    ensures { result ≡ inspected_for sheet.now files }
{
    exports::desk_inspect(sheet, files)
}

// Tests a week: its edition, or a refusal.
#[unsafe(no_mangle)]
pub extern "C" fn desk_week_test(week: &[u8]) -> u64
    ensures { result ≡ week_tested_for week.now }
{
    exports::desk_week_test(week)
}

// Writes a week in another edition, with the mask where that has one: 0, or a refusal.
#[unsafe(no_mangle)]
pub extern "C" fn desk_convert(week: &[u8], mask: u16, out: &mut [u8]) -> u64
    ensures { (result, out.new) ≡ converted_for week.now mask out.old }
{
    exports::desk_convert(week, mask, out)
}
