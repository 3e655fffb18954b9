// The page: document 01's table (docs/STORE.md, The page), packing fields into 64 bytes and testing 64 bytes for a page.
// The layers above know pages only through what these functions promise and the laws of `proofs/`.
#![tactic(auto)]

ghost use Rattle.std.specs.Prelude.{true, false, cond, ◌++◌, ◌≡◌, ◌+◌, ◌≤◌, ◌<◌, ◌-◌, length, take, replicate, MatchOption};
ghost use Rattle.encoding.specs.Bytes.{bytes, zeros, same, check};
ghost use Rattle.page.specs.Layout.{value_at, page_size, most_places, value_size};
ghost use Rattle.page.specs.Table.{head, front, packed, field, fields_of, opening_as, opening, image, outcome, lowest, highest, within, between, used, meets_rules, is_page_of, torn};
ghost use Rattle.page.specs.Steps.{framed, has_kind, named};
ghost use Rattle.page.specs.Answers.{in_bounds, by_kind, tested, is_blank_page, is_fit_page, is_opening_page, is_carried_page, is_outcome_of, packs, image_of_file, image_above, value_in};

use encoding::{
    byte_at, check_few, check_word, copy, is_zero, is_zero_from, read_number, write_number,
};

// The fields of a page (a log record), kind to start. The 32 bytes of the value stay beside it.
#[derive(Clone, Copy)]
pub struct Page {
    // A number and no enum: desk_pack (C) lends any, and `packs` says what is answered to every kind.
    pub kind: u64,
    pub small: u64,
    pub file: u64,
    pub action: u64,
    pub link: u64,
    pub start: u64,
}

// What the page test finds in a part: the fields of a page that fits, by kind, or why there are none.
#[derive(Clone, Copy)]
pub enum Unpacked {
    Refused,
    Blank,
    Torn,
    Opening(Page),
    Image(Page),
    Outcome(Page),
    Unfit,
}

// Why pack writes no page: refusals 1 and 2.
#[derive(Clone, Copy)]
pub enum PackError {
    OutOfBounds,
    Unfit,
}

// x lies between two numbers.
#[tactic(auto, unfolding(crate::specs::Table::within))]
fn is_within(x: u64, low: u64, high: u64) -> bool
    ensures { result ≡ within x low high }
{
    (low..=high).contains(&x)
}

// Each field lies between those of two pages.
fn is_between(p: Page, low: Page, high: Page) -> bool
    ensures { result ≡ between p low high }
{
    is_within(p.kind, low.kind, high.kind)
        & is_within(p.small, low.small, high.small)
        & is_within(p.file, low.file, high.file)
        & is_within(p.action, low.action, high.action)
        & is_within(p.link, low.link, high.link)
        & is_within(p.start, low.start, high.start)
}

// Line 1 of the refusals, for the bytes of a page.
fn is_in_bounds(place: u64, files: u64) -> bool
    ensures { result ≡ in_bounds page_size place files }
{
    is_within(place, 1, Page::MOST_PLACES) & is_within(files, 1, Page::MOST_FILES)
}

// The bytes of a page, if line 1 refuses neither their count nor the place nor the file count.
fn in_bounds(part: &[u8], place: u64, files: u64) -> Option<&[u8; Page::SIZE]>
    ensures { MatchOption result (in_bounds (length part.now) place files ≡ false) (λ s. (s.now ≡ part.now) × (in_bounds (length part.now) place files ≡ true)) }
{
    let bytes = part.as_array()?;
    if !is_in_bounds(place, files) {
        return None;
    }
    Some(bytes)
}

// The number from `at` up to `end`. A range in place of both would be asked the same, here and where a field is put.
fn field(part: &[u8], at: usize, end: usize) -> u64
    requires { (at ≤ end) × (end ≤ length part.now) × (end ≤ at + 8) }
    ensures { result ≡ field at end part.now }
{
    read_number(&part[at..end])
}

// Writes a number from `at` up to `end`; the bytes before it stay.
fn put_number(out: &mut [u8], at: usize, end: usize, x: u64)
    requires { (at ≤ end) × (end ≤ length out.old) }
    ensures { take end out.new ≡ take at out.old ++ bytes (end - at) x }
{
    write_number(&mut out[at..end], x);
}

// Writes a run from `at` up to `end`; the bytes before it stay.
fn put_run(out: &mut [u8], at: usize, end: usize, s: &[u8])
    requires { (at ≤ end) × (end ≤ length out.old) × (length s.now ≡ end - at) }
    ensures { take end out.new ≡ take at out.old ++ s.now }
{
    copy(&mut out[at..end], s);
}

// Part, place and file count come together, and are no struct: it would be made anew for each page, and above pages `recovery::View` is it.
impl Page {
    pub const SIZE: usize = 64;

    // Where each field begins; it ends where the next one begins.
    pub const KIND: usize = 0;

    pub const SMALL: usize = 1;

    pub const SPARE: usize = 2;

    pub const FILE: usize = 4;

    pub const ACTION: usize = 8;

    pub const LINK: usize = 12;

    pub const START: usize = 16;

    pub const VALUE: usize = 24;

    pub const PLACE: usize = 56;

    pub const CHECK: usize = 60;

    pub const SPARE_END: usize = 62;

    pub const MARK: usize = 63;

    pub const END_MARK: u64 = 0xA5;

    pub const VALUE_SIZE: usize = Page::PLACE - Page::VALUE;

    pub const MOST_PLACES: u64 = 65536;

    pub const MOST_FILES: u64 = 256;

    // The fields of each kind of page: columns of a table, and whoever makes one knows its kind. The small byte of an opening is 1 where its
    // action carries another sheet's versions: carried.
    pub fn opening_as(small: u64, place: u64) -> Page
        ensures { result ≡ opening_as small place }
    {
        Page {
            kind: 1,
            small,
            file: 0,
            action: place,
            link: 0,
            start: 0,
        }
    }

    pub fn opening(place: u64) -> Page
        ensures { result ≡ opening place }
    {
        Page::opening_as(0, place)
    }

    pub fn image(size: u64, file: u64, action: u64, link: u64, start: u64) -> Page
        ensures { result ≡ image size file action link start }
    {
        Page {
            kind: 2,
            small: size,
            file,
            action,
            link,
            start,
        }
    }

    pub fn outcome(action: u64, verdict: u64) -> Page
        ensures { result ≡ outcome action verdict }
    {
        Page {
            kind: 3,
            small: verdict,
            file: 0,
            action,
            link: 0,
            start: 0,
        }
    }

    // The least that each field may be. It and `highest` have no number in common, and so no function that serves both.
    #[tactic(auto, unfolding(crate::specs::Table::lowest))]
    fn lowest(kind: u64, place: u64) -> Page
        ensures { result ≡ lowest kind place }
    {
        match kind {
            1 => Page::opening(place),
            2 => Page::image(0, 1, 1, 0, 1),
            _ => Page::outcome(1, 1),
        }
    }

    // The greatest that each field may be. That the place is 1 or more is asked here and below, and is no type's: line 1 has let it through
    // by then, and a type would be made of it again at each call.
    #[tactic(auto, unfolding(crate::specs::Table::highest))]
    fn highest(kind: u64, place: u64, files: u64) -> Page
        requires { 1 ≤ place }
        ensures { result ≡ highest kind place files }
    {
        let size = Page::VALUE_SIZE as u64;
        let below = place - 1;
        match kind {
            1 => Page::opening_as(1, place),
            2 => Page::image(size, files, below, below, u64::MAX),
            _ => Page::outcome(below, 2),
        }
    }

    // How many of the value's bytes are used. One test of the kind: an image alone has any.
    fn used_bytes(self, kind: u64) -> u64
        requires { self.kind ≡ kind }
        ensures { result ≡ used self }
    {
        if kind == 2 { self.small } else { 0 }
    }

    // The fields and the value obey the rules of their kind.
    #[inline(always)]
    fn is_by_rules(self, kind: u64, value: &[u8], place: u64, files: u64) -> bool
        requires { (1 ≤ place) × (self.kind ≡ kind) }
        ensures { result ≡ meets_rules self value.now place files }
    {
        let low = Page::lowest(kind, place);
        let high = Page::highest(kind, place, files);
        if !is_between(self, low, high) {
            return false;
        }
        is_zero_from(value, self.used_bytes(kind))
    }

    // The fields in the bytes of a page.
    fn fields(part: &[u8; Page::SIZE]) -> Page
        ensures { result ≡ fields_of part.now }
    {
        Page {
            kind: field(part, Page::KIND, Page::SMALL),
            small: field(part, Page::SMALL, Page::SPARE),
            file: field(part, Page::FILE, Page::ACTION),
            action: field(part, Page::ACTION, Page::LINK),
            link: field(part, Page::LINK, Page::START),
            start: field(part, Page::START, Page::VALUE),
        }
    }

    // Writes bytes 0 to 23.
    fn write_head(self, out: &mut [u8; Page::SIZE])
        ensures { take value_at out.new ≡ head self }
    {
        put_number(out, Page::KIND, Page::SMALL, self.kind);
        put_number(out, Page::SMALL, Page::SPARE, self.small);
        put_number(out, Page::SPARE, Page::FILE, 0);
        put_number(out, Page::FILE, Page::ACTION, self.file);
        put_number(out, Page::ACTION, Page::LINK, self.action);
        put_number(out, Page::LINK, Page::START, self.link);
        put_number(out, Page::START, Page::VALUE, self.start);
    }

    // Writes the page that the table gives, from byte 0 to byte 63.
    fn write(self, value: &[u8; Page::VALUE_SIZE], place: u64, out: &mut [u8; Page::SIZE])
        ensures { out.new ≡ packed self value.now place }
    {
        self.write_head(out);
        put_run(out, Page::VALUE, Page::PLACE, value);
        put_number(out, Page::PLACE, Page::CHECK, place);
        let word = check_word(&out[Page::KIND..Page::CHECK]);
        put_number(out, Page::CHECK, Page::SPARE_END, word);
        put_number(out, Page::SPARE_END, Page::MARK, 0);
        put_number(out, Page::MARK, Page::SIZE, Page::END_MARK);
    }

    // What every kind has alike: the place, the spare bytes and the end mark.
    fn is_framed(part: &[u8; Page::SIZE], place: u64) -> bool
        ensures { result ≡ framed part.now place }
    {
        (byte_at(part, Page::MARK) == Page::END_MARK)
            & (field(part, Page::PLACE, Page::CHECK) == place)
            & (field(part, Page::SPARE, Page::FILE) == 0)
            & (byte_at(part, Page::SPARE_END) == 0)
    }

    // The bytes are the page of these fields, which were read from them: what is cheap comes first, the check word last. Who knows the kind
    // gives it as a number: put in place there, this chooses no other kind's bounds.
    #[inline(always)]
    fn is_fit(self, kind: u64, part: &[u8; Page::SIZE], place: u64, files: u64) -> bool
        requires { (1 ≤ place) × (place ≤ most_places) × (self.kind ≡ kind) × (self ≡ fields_of part.now) }
        ensures { result ≡ is_page_of self part.now place files }
    {
        if !Page::is_framed(part, place) {
            return false;
        }
        if !self.is_by_rules(kind, &part[Page::VALUE..Page::PLACE], place, files) {
            return false;
        }
        field(part, Page::CHECK, Page::SPARE_END) == check_word(&part[Page::KIND..Page::CHECK])
    }

    // The answer for a page that fits.
    fn by_kind(self) -> Unpacked
        ensures { result ≡ by_kind self }
    {
        match self.kind {
            1 => Unpacked::Opening(self),
            2 => Unpacked::Image(self),
            _ => Unpacked::Outcome(self),
        }
    }

    // Torn, of a part of 64 bytes.
    fn is_torn(part: &[u8]) -> bool
        ensures { result ≡ torn part.now }
    {
        is_within(byte_at(part, Page::KIND), 1, 3) & (byte_at(part, Page::MARK) == 0)
    }

    // The answer for 64 bytes whose last is 0: no page that fits ends so.
    fn unmarked(part: &[u8]) -> Unpacked
        ensures { result ≡ cond (torn part.now) Unpacked.Torn (cond (zeros part.now) Unpacked.Blank Unpacked.Unfit) }
    {
        if Page::is_torn(part) {
            return Unpacked::Torn;
        }
        if is_zero(part) {
            return Unpacked::Blank;
        }
        Unpacked::Unfit
    }

    // The page test.
    pub fn test(part: &[u8], place: u64, files: u64) -> Unpacked
        ensures { result ≡ tested part.now place files }
    {
        let Some(part) = in_bounds(part, place, files) else {
            return Unpacked::Refused;
        };
        if byte_at(part, Page::MARK) == 0 {
            return Page::unmarked(part);
        }
        let p = Page::fields(part);
        if !p.is_fit(p.kind, part, place, files) {
            return Unpacked::Unfit;
        }
        p.by_kind()
    }

    // Whether the page test finds a page that fits, of a part with the kind of an image: no other kind's rules are asked. A function of its
    // own, that answers one bool: so the quick looks have no more to them than what passes a page over, and are put in place in their loops.
    fn is_fit_image(part: &[u8], place: u64, files: u64) -> bool
        requires { has_kind part.now 2 ≡ true }
        ensures { result ≡ is_fit_page (tested part.now place files) }
    {
        let Some(part) = in_bounds(part, place, files) else {
            return false;
        };
        Page::fields(part).is_fit(2, part, place, files)
    }

    // The page that the page test finds, of such a part. Put in place in the quick looks: no fields are stored on the way.
    #[inline(always)]
    fn fit_image(part: &[u8], place: u64, files: u64) -> Option<Page>
        requires { has_kind part.now 2 ≡ true }
        ensures { MatchOption result (is_fit_page (tested part.now place files) ≡ false) (λ p. (p ≡ fields_of part.now) × (is_fit_page (tested part.now place files) ≡ true)) }
    {
        if !Page::is_fit_image(part, place, files) {
            return None;
        }
        Some(Page::fields(part.as_array()?))
    }

    // Whether the page test finds a blank page. This look and those at openings read other bytes each: they share line 1 alone.
    pub fn is_blank(part: &[u8], place: u64, files: u64) -> bool
        ensures { result ≡ is_blank_page (tested part.now place files) }
    {
        let Some(part) = in_bounds(part, place, files) else {
            return false;
        };
        is_zero(part)
    }

    // Whether 64 bytes are the opening at a place with this small byte, eight bytes at a time. But for its kind, its small byte and its
    // place, which stands there twice, the bytes below the check word are 0.
    fn is_packed_opening(part: &[u8; Page::SIZE], small: u64, place: u64) -> bool
        requires { (small ≤ 1) × (place ≤ most_places) }
        ensures { result ≡ same part.now (packed (opening_as small place) (replicate value_size 0) place) }
    {
        let first = 1 + (small << 8);
        let end = place + (check_few(small == 1, place) << 32) + (Page::END_MARK << 56);
        (field(part, Page::KIND, Page::ACTION) == first)
            & (field(part, Page::ACTION, Page::START) == place)
            & (field(part, Page::START, Page::VALUE) == 0)
            & is_zero_from(&part[Page::VALUE..Page::PLACE], 0)
            & (field(part, Page::PLACE, Page::SIZE) == end)
    }

    // Whether the page test finds an opening. Its small byte and its place give all its bytes.
    pub fn is_opening(part: &[u8], place: u64, files: u64) -> bool
        ensures { result ≡ is_opening_page (tested part.now place files) }
    {
        let Some(part) = in_bounds(part, place, files) else {
            return false;
        };
        let small = byte_at(part, Page::SMALL);
        if 1 < small {
            return false;
        }
        Page::is_packed_opening(part, small, place)
    }

    // Whether the page test finds a carried opening, by its small byte before anything else.
    pub fn is_carried(part: &[u8], place: u64, files: u64) -> bool
        ensures { result ≡ is_carried_page (tested part.now place files) }
    {
        if part.len() != Page::SIZE {
            return false;
        }
        if byte_at(part, Page::SMALL) != 1 {
            return false;
        }
        Page::is_opening(part, place, files)
    }

    // A part of a page's size with this kind. It and the looks that begin with it take any part, as their callers have it.
    fn has_kind(part: &[u8], kind: u64) -> bool
        ensures { result ≡ has_kind part.now kind }
    {
        if part.len() != Page::SIZE {
            return false;
        }
        byte_at(part, Page::KIND) == kind
    }

    // Whether the page test finds an outcome of this action, by its kind and action before anything else.
    pub fn is_outcome_of(part: &[u8], place: u64, files: u64, action: u64) -> bool
        ensures { result ≡ is_outcome_of action (tested part.now place files) }
    {
        if !Page::has_kind(part, 3) {
            return false;
        }
        if field(part, Page::ACTION, Page::LINK) != action {
            return false;
        }
        let Unpacked::Outcome(outcome) = Page::test(part, place, files) else {
            return false;
        };
        outcome.action == action
    }

    // The cheap look: a part with the kind of an image and with this file. No other part is an image of the file.
    pub fn names(part: &[u8], file: u64) -> bool
        ensures { result ≡ named part.now file }
    {
        if !Page::has_kind(part, 2) {
            return false;
        }
        field(part, Page::FILE, Page::ACTION) == file
    }

    // The quick look: the image of this file in a part, by its kind and file before anything else.
    pub fn seek(part: &[u8], place: u64, files: u64, file: u64) -> Option<Page>
        ensures { result ≡ image_of_file file (tested part.now place files) }
    {
        if !Page::names(part, file) {
            return None;
        }
        Page::fit_image(part, place, files)
    }

    // The image in a part that starts above a time, by its kind and start before anything else. What it and `seek` share is `fit_image`; a
    // closure for the one test before that would be longer than the test.
    pub fn seek_above(part: &[u8], place: u64, files: u64, time: u64) -> Option<Page>
        ensures { result ≡ image_above time (tested part.now place files) }
    {
        if !Page::has_kind(part, 2) {
            return None;
        }
        if field(part, Page::START, Page::VALUE) <= time {
            return None;
        }
        Page::fit_image(part, place, files)
    }

    // Writes the page of these fields and this value into the 64 bytes lent, or leaves them as they are.
    pub fn pack(
        self,
        value: &[u8; Page::VALUE_SIZE],
        place: u64,
        files: u64,
        out: &mut [u8],
    ) -> Result<(), PackError>
        ensures { (result, out.new) ≡ packs self value.now place files out.old }
    {
        let Some(out) = out.as_mut_array() else {
            return Err(PackError::OutOfBounds);
        };
        if !is_in_bounds(place, files) {
            return Err(PackError::OutOfBounds);
        }
        if !self.is_by_rules(self.kind, value, place, files) {
            return Err(PackError::Unfit);
        }
        self.write(value, place, out);
        Ok(())
    }

    // The value's 32 bytes, zeros where the part is not a page's size.
    pub fn value(part: &[u8]) -> [u8; Page::VALUE_SIZE]
        ensures { result ≡ value_in part.now }
    {
        let mut v = [0u8; Page::VALUE_SIZE];
        if part.len() != Page::SIZE {
            return v;
        }
        copy(&mut v, &part[Page::VALUE..Page::PLACE]);
        v
    }
}
