//! The text of what the engine holds besides its indexes: its ids, and the slots of a page.

ghost use Rattle.std.specs.Prelude.{◌≡◌, ◌∷◌, ◌++◌, length, OnOk};
ghost use Rattle.std.specs.Fmt.{decimal};
ghost use Rattle.script_text.specs.Grammar.{spaced, with_feed};
ghost use Rattle.script_text.specs.Answers.{labelled, ids_text, slot_text, slot_lines, page_head_text, page_text, no_page_text};

use crate::answer::put_unsigned;
use crate::growth::{RefusedGrowth, extend, push};
use page_slots::{Page, Slot};
use xid_circle::Xid;

/// Adds a space and a number.
pub fn spaced_number(out: &mut Vec<u8>, n: u64) -> Result<(), RefusedGrowth>
    ensures { OnOk result (out.new.items ≡ out.old.items ++ spaced (decimal n)) }
{
    push(out, b' ')?;
    put_unsigned(out, n)
}

/// Adds a word or words, and a number behind them.
#[tactic(auto, unfolding(crate::specs::Answers::labelled))]
pub fn label(out: &mut Vec<u8>, words: &[u8], n: u64) -> Result<(), RefusedGrowth>
    ensures { OnOk result (out.new.items ≡ out.old.items ++ labelled words.now n) }
{
    extend(out, words)?;
    spaced_number(out, n)
}

fn ids(out: &mut Vec<u8>, next: Xid, frozen_below: Xid) -> Result<(), RefusedGrowth>
    ensures { OnOk result (out.new.items ≡ out.old.items ++ ids_text next.0 frozen_below.0) }
{
    label(out, b"next", u64::from(next.0))?;
    label(out, b" frozen_below", u64::from(frozen_below.0))
}

/// Adds the line of the next id and of that below which all are frozen.
pub fn tell_ids(out: &mut Vec<u8>, next: Xid, frozen_below: Xid) -> Result<(), RefusedGrowth>
    ensures { OnOk result
        (out.new.items ≡ out.old.items ++ with_feed (ids_text next.0 frozen_below.0)) }
{
    ids(out, next, frozen_below)?;
    push(out, b'\n')
}

/// Adds the line for a page that isn't there.
pub fn tell_no_page(out: &mut Vec<u8>) -> Result<(), RefusedGrowth>
    ensures { OnOk result (out.new.items ≡ out.old.items ++ with_feed no_page_text) }
{
    extend(out, b"error 19 NoSuchPage\n")
}

/// What a slot holds: its kind, and where it leads, or the ids and the key of its version.
pub fn slot(out: &mut Vec<u8>, slot: &Slot) -> Result<(), RefusedGrowth>
    ensures { OnOk result (out.new.items ≡ out.old.items ++ slot_text slot.now) }
{
    match slot {
        Slot::Unused => extend(out, b" unused"),
        Slot::Dead => extend(out, b" dead"),
        Slot::Redirect(target) => {
            extend(out, b" redirect")?;
            spaced_number(out, u64::from(*target))
        }
        Slot::Normal(version) => {
            extend(out, b" normal")?;
            spaced_number(out, u64::from(version.header.xmin.0))?;
            spaced_number(out, u64::from(version.header.xmax.0))?;
            spaced_number(out, version.row.key)
        }
    }
}

// A line feed, and then the line of a slot.
fn slot_line(out: &mut Vec<u8>, number: u16, one: &Slot) -> Result<(), RefusedGrowth>
    ensures { OnOk result
        (out.new.items ≡ out.old.items ++ 10 ∷ (decimal number ++ slot_text one.now)) }
{
    push(out, b'\n')?;
    put_unsigned(out, u64::from(number))?;
    slot(out, one)
}

#[tactic(auto, using(crate::proofs::TellingLemmas::slot_lemmas))]
fn slots(out: &mut Vec<u8>, page: &Page) -> Result<(), RefusedGrowth>
    ensures { OnOk result
        (out.new.items ≡ out.old.items ++ slot_lines (length page.now.slots) page.now.slots) }
{
    for i in 0..page.slots() {
        if let Some(one) = page.slot(i + 1) {
            slot_line(out, i + 1, &one)?;
        }
    }
    Ok(())
}

fn page_head(out: &mut Vec<u8>, number: u32, page: &Page, visible: u8) -> Result<(), RefusedGrowth>
    ensures { OnOk result
        (out.new.items
        ≡ out.old.items ++ page_head_text number page.now.change visible (length page.now.slots)) }
{
    label(out, b"page", u64::from(number))?;
    label(out, b" change", page.change())?;
    label(out, b" visible", u64::from(visible))?;
    label(out, b" slots", u64::from(page.slots()))
}

/// Adds the lines of a page: one of the page, and one of each slot.
pub fn tell_page(
    out: &mut Vec<u8>,
    number: u32,
    page: &Page,
    visible: u8,
) -> Result<(), RefusedGrowth>
    ensures { OnOk result
        (out.new.items
        ≡ out.old.items ++ with_feed (page_text number page.now.change visible page.now.slots)) }
{
    page_head(out, number, page, visible)?;
    slots(out, page)?;
    push(out, b'\n')
}
