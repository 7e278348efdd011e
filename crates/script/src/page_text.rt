//! The text that tells the bytes of a page.

ghost use Rattle.std.specs.Prelude.{◌≡◌, ◌≤◌, ◌<◌, ◌+◌, ◌*◌, ◌∷◌, ◌++◌, length, OnOk, Some, if◌then◌else◌};
ghost use Rattle.page_layout.specs.declared.sizes.TheConstants.{PAGE_BYTES};
ghost use Rattle.tuple_header.specs.declared.version.TheConstants.{MOST_SLOTS};
ghost use Rattle.page_layout.specs.Faults.{word_in};
ghost use Rattle.page_sheet.specs.Slots.{slot_at};
ghost use Rattle.script_text.specs.Grammar.{spaced, with_feed};
ghost use Rattle.script.specs.PageText.{hex16_text, place_text, marks_text, bytes_text, inspected_line, inspected_lines, inspected_head, page_line, inspected_text};

use page_layout::{PAGE_HEADER_BYTES, u32_at};
use page_slots::{Page, Slot};
use script_text::{RefusedGrowth, hex, label, push, put_unsigned, slot, spaced_number};
use tuple_header::Header;

// A space and four hexadecimal digits.
fn spaced_hex(out: &mut Vec<u8>, n: u16) -> Result<(), RefusedGrowth>
    ensures { OnOk result (out.new.items ≡ out.old.items ++ spaced (hex16_text n)) }
{
    let halves = [(n / 256) as u8, (n % 256) as u8];
    push(out, b' ')?;
    hex(out, halves.as_slice())
}

// The word of the line pointer at an index.
fn word_at(bytes: &[u8], index: usize) -> u32
    requires { 28 + 4 * index ≤ length bytes.now }
    ensures { result ≡ word_in bytes.now index }
{
    u32_at(bytes, PAGE_HEADER_BYTES + 4 * index)
}

// Where a line pointer's word says that a version begins, and how many bytes it has.
fn place(out: &mut Vec<u8>, word: u32) -> Result<(), RefusedGrowth>
    ensures { OnOk result (out.new.items ≡ out.old.items ++ place_text word) }
{
    spaced_number(out, u64::from(word % 32768))?;
    spaced_number(out, u64::from(word / 131072))
}

fn marks(out: &mut Vec<u8>, header: &Header) -> Result<(), RefusedGrowth>
    ensures { OnOk result (out.new.items ≡ out.old.items ++ marks_text header.now) }
{
    spaced_hex(out, header.mask2)?;
    spaced_hex(out, header.mask)
}

// The place and the marks of a version, told besides its ids and its key.
fn slot_bytes(out: &mut Vec<u8>, word: u32, slot: &Slot) -> Result<(), RefusedGrowth>
    ensures { OnOk result (out.new.items ≡ out.old.items ++ bytes_text word slot.now) }
{
    match slot {
        Slot::Unused => Ok(()),
        Slot::Dead => Ok(()),
        Slot::Redirect(_target) => Ok(()),
        Slot::Normal(version) => {
            place(out, word)?;
            marks(out, &version.header)
        }
    }
}

// A line feed, and then the line of the slot at an index.
#[tactic(auto, unfolding(crate::specs::PageText::inspected_line))]
fn line(out: &mut Vec<u8>, bytes: &[u8], index: u16, one: &Slot) -> Result<(), RefusedGrowth>
    requires { 28 + 4 * index ≤ length bytes.now }
    ensures { OnOk result
        (out.new.items ≡ out.old.items ++ inspected_line bytes.now index (Some one.now)) }
{
    push(out, b'\n')?;
    put_unsigned(out, u64::from(index) + 1)?;
    slot(out, one)?;
    slot_bytes(out, word_at(bytes, usize::from(index)), one)
}

// As above, if there is such a slot.
#[tactic(auto, unfolding(crate::specs::PageText::inspected_line))]
fn line_if_there(
    out: &mut Vec<u8>,
    page: &Page,
    bytes: &[u8],
    index: u16,
) -> Result<(), RefusedGrowth>
    requires few { index < MOST_SLOTS }
    requires long { PAGE_BYTES ≤ length bytes.now }
    ensures { OnOk result
        (out.new.items
        ≡ out.old.items ++ inspected_line bytes.now index (slot_at page.now.slots (index + 1))) }
{
    match page.slot(index + 1) {
        Some(one) => line(out, bytes, index, &one),
        None => Ok(()),
    }
}

fn lines(out: &mut Vec<u8>, page: &Page, bytes: &[u8]) -> Result<(), RefusedGrowth>
    requires { PAGE_BYTES ≤ length bytes.now }
    ensures { OnOk result
        (out.new.items
        ≡ out.old.items ++ inspected_lines bytes.now (length page.now.slots) page.now.slots) }
{
    for i in 0..page.slots() {
        line_if_there(out, page, bytes, i)?;
    }
    Ok(())
}

#[tactic(auto, unfolding(crate::specs::PageText::inspected_head))]
fn head(
    out: &mut Vec<u8>,
    change: u64,
    visible: u64,
    slots: u64,
    room: u64,
) -> Result<(), RefusedGrowth>
    ensures { OnOk result
        (out.new.items ≡ out.old.items ++ inspected_head change visible slots room) }
{
    label(out, b"page change", change)?;
    label(out, b" visible", visible)?;
    label(out, b" slots", slots)?;
    label(out, b" room", room)
}

// 1 where the page says that all its versions are visible to all.
fn visible(page: &Page) -> u64
    ensures { result ≡ (if page.now.flag then 1 else 0) }
{
    if page.flag() { 1 } else { 0 }
}

// The page's own line.
#[tactic(auto, unfolding(crate::specs::PageText::page_line))]
fn page_head(out: &mut Vec<u8>, page: &Page) -> Result<(), RefusedGrowth>
    ensures { OnOk result (out.new.items ≡ out.old.items ++ page_line page.now) }
{
    let (change, room) = (page.change(), page.room() as u64);
    head(out, change, visible(page), u64::from(page.slots()), room)
}

/// Adds the lines of a page that has these bytes: one of the page, and one of each slot.
pub(crate) fn tell_bytes(out: &mut Vec<u8>, page: &Page, bytes: &[u8]) -> Result<(), RefusedGrowth>
    requires { PAGE_BYTES ≤ length bytes.now }
    ensures { OnOk result
        (out.new.items ≡ out.old.items ++ with_feed (inspected_text page.now bytes.now)) }
{
    page_head(out, page)?;
    lines(out, page, bytes)?;
    push(out, b'\n')
}
