// Append: one page above the end, and nothing else of the sheet.
ghost use Rattle.std.specs.Prelude.{◌≡◌};
ghost use Rattle.calls.specs.Leaves.{appended};

use page::Page;

// Stores a page above the end, byte 0 first and byte 63 last, as pack writes it; nothing where there is no room or pack refuses it.
// The sheet is lent to be written here, and so is no View.
pub fn append(sheet: &mut [u8], end: u64, files: u64, page: Page, value: &[u8; Page::VALUE_SIZE])
    ensures { sheet.new ≡ appended sheet.old end files page value.now }
{
    if (sheet.len() / Page::SIZE) as u64 <= end {
        return;
    }
    let a = Page::SIZE * (end as usize);
    let e = a + Page::SIZE;
    let _ = page.pack(value, end + 1, files, &mut sheet[a..e]);
}
