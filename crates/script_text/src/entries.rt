//! The text of an index: its entries in their order.

ghost use Rattle.std.specs.Prelude.{◌≡◌, ◌∷◌, ◌++◌, length, OnOk, Some};
ghost use Rattle.std.specs.Fmt.{signed_decimal};
ghost use Rattle.script_text.specs.Grammar.{spaced, with_feed};
ghost use Rattle.script_text.specs.Answers.{entry_text, entry_lines, index_head_text, index_text, no_index_text};

use crate::growth::{RefusedGrowth, extend, push};
use crate::page::{label, spaced_number};
use itoa::Buffer;
use root_index::{Entry, RootIndex};

// A space and a value, which has its sign and up to 128 bits.
pub(crate) fn spaced_value(out: &mut Vec<u8>, value: i128) -> Result<(), RefusedGrowth>
    ensures { OnOk result (out.new.items ≡ out.old.items ++ spaced (signed_decimal value)) }
{
    let mut buffer = Buffer::new();
    push(out, b' ')?;
    extend(out, buffer.format(value).as_bytes())
}

fn entry(out: &mut Vec<u8>, entry: &Entry) -> Result<(), RefusedGrowth>
    ensures { OnOk result (out.new.items ≡ out.old.items ++ entry_text entry.now) }
{
    extend(out, b"entry")?;
    spaced_value(out, entry.value)?;
    spaced_number(out, entry.key)?;
    spaced_number(out, u64::from(entry.tid.page))?;
    spaced_number(out, u64::from(entry.tid.slot))
}

// A line feed, and then the line of an entry.
fn entry_line(out: &mut Vec<u8>, one: &Entry) -> Result<(), RefusedGrowth>
    ensures { OnOk result (out.new.items ≡ out.old.items ++ 10 ∷ entry_text one.now) }
{
    push(out, b'\n')?;
    entry(out, one)
}

fn entries(out: &mut Vec<u8>, index: &RootIndex) -> Result<(), RefusedGrowth>
    ensures { OnOk result (out.new.items ≡ out.old.items ++ entry_lines index.now.entries) }
{
    index.fact_ascending();
    let mut next = index.next_after(None);
    for _ in 0..index.len() {
        if let Some(one) = next {
            entry_line(out, &one)?;
            next = index.next_after(Some(one));
        }
    }
    Ok(())
}

fn index_head(out: &mut Vec<u8>, number: u8, index: &RootIndex) -> Result<(), RefusedGrowth>
    ensures { OnOk result
        (out.new.items ≡ out.old.items ++ index_head_text number (length index.now.entries)) }
{
    label(out, b"entries", u64::from(number))?;
    spaced_number(out, index.len())
}

/// Adds the lines of an index: one of the index, and one of each entry.
pub fn tell_index(out: &mut Vec<u8>, number: u8, index: &RootIndex) -> Result<(), RefusedGrowth>
    ensures { OnOk result
        (out.new.items ≡ out.old.items ++ with_feed (index_text number (Some index.now.entries))) }
{
    index_head(out, number, index)?;
    entries(out, index)?;
    push(out, b'\n')
}

/// Adds the line for an index that isn't there.
pub fn tell_no_index(out: &mut Vec<u8>) -> Result<(), RefusedGrowth>
    ensures { OnOk result (out.new.items ≡ out.old.items ++ with_feed no_index_text) }
{
    extend(out, b"error 20 NoSuchIndex\n")
}
