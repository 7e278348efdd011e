//! What is told of a line.

ghost use Rattle.std.specs.Prelude.{◌≡◌, ◌++◌, OnOk, IfOk, IfErr};
ghost use Rattle.std.specs.Bool.{OnTrue, OnFalse};
ghost use Rattle.shapes.specs.Pictures.{AddsText};
ghost use Rattle.viewing.specs.Steps.{IsNoView};
ghost use Rattle.stories.specs.Html.{first_item, item_html, head_html};
ghost use Rattle.stories.specs.Telling.{IsBegun, IsEnded, IsFirstTold, IsUndrawn, TellsLine, IsTellFault};

use crate::draw_fault::{DrawFault, fault_of, no_memory};
use crate::explaining::{escape, explain_line};
use script_text::{RefusedGrowth, extend};
use session_core::{Engine, Reply};
use shapes::draw_all;
use std::alloc::Global;
use viewing::do_view;

/// Adds the first line to the list.
fn list_first(items: &mut Vec<u8>, line: &[u8]) -> Result<(), RefusedGrowth>
    ensures { OnOk result (items.new.items ≡ items.old.items ++ first_item line.now) }
{
    extend(items, b"<li>")?;
    escape(items, line)?;
    extend(items, b"</li>")
}

/// Adds a line to the list, with its answer.
fn list_line(items: &mut Vec<u8>, line: &[u8], answer: &[u8]) -> Result<(), RefusedGrowth>
    ensures { OnOk result (items.new.items ≡ items.old.items ++ item_html line.now answer.now) }
{
    extend(items, b"<li>")?;
    escape(items, line)?;
    extend(items, b"<i>")?;
    escape(items, answer)?;
    extend(items, b"</i></li>")
}

/// Begins what is told of a line.
fn head(told: &mut Vec<u8>, line: &[u8]) -> Result<(), RefusedGrowth>
    ensures { OnOk result (told.new.items ≡ told.old.items ++ head_html line.now) }
{
    extend(told, b"<section><h1>")?;
    escape(told, line)?;
    extend(told, b"</h1>")
}

/// The same, with what the line finds as the table is before it.
fn begin(
    told: &mut Vec<u8>,
    alloc: Global,
    engine: &Engine,
    line: &[u8],
) -> Result<(), RefusedGrowth>
    ensures { OnOk result
        (AddsText (IsBegun engine.now.engine.core line.now) told.old.items told.new.items) }
{
    head(told, line)?;
    explain_line(told, alloc, engine, line)
}

/// Ends it with a picture of all pages.
fn end(told: &mut Vec<u8>, alloc: Global, engine: &mut Engine) -> Result<(), DrawFault>
    ensures same { engine.new ≡ engine.old }
    ensures ended { OnOk result (AddsText (IsEnded engine.old) told.old.items told.new.items) }
    ensures fault { IfErr result (IsUndrawn engine.old) }
{
    match draw_all(engine, alloc, told) {
        Ok(()) => {}
        Err(fault) => return Err(fault_of(fault)),
    }
    match extend(told, b"</section>") {
        Ok(()) => Ok(()),
        Err(refused) => Err(no_memory(refused)),
    }
}

/// Tells the first line, which made the table.
pub(crate) fn tell_first(
    items: &mut Vec<u8>,
    told: &mut Vec<u8>,
    alloc: Global,
    engine: &mut Engine,
    line: &[u8],
) -> Result<(), DrawFault>
    ensures same { engine.new ≡ engine.old }
    ensures item { OnOk result (items.new.items ≡ items.old.items ++ first_item line.now) }
    ensures told { OnOk result
        (AddsText (IsFirstTold engine.old line.now) told.old.items told.new.items) }
    ensures fault { IfErr result (IsUndrawn engine.old) }
{
    match list_first(items, line) {
        Ok(()) => {}
        Err(refused) => return Err(no_memory(refused)),
    }
    match head(told, line) {
        Ok(()) => {}
        Err(refused) => return Err(no_memory(refused)),
    }
    end(told, alloc, engine)
}

/// Does a line, and tells it; false where it is no line of a script and no look, and then it is not done. The reply and the answer are put
/// in the place of earlier ones.
pub(crate) fn tell_line(
    items: &mut Vec<u8>,
    told: &mut Vec<u8>,
    alloc: Global,
    engine: &mut Engine,
    reply: &mut Reply,
    answer: &mut Vec<u8>,
    line: &[u8],
) -> Result<bool, DrawFault>
    ensures done { IfOk result
        (λ b. OnTrue b (TellsLine line.now engine.old engine.new items.old.items items.new.items
        told.old.items told.new.items)) }
    ensures bad { IfOk result (λ b. OnFalse b (IsNoView line.now)) }
    ensures fault { IfErr result (IsTellFault line.now engine.old engine.new) }
{
    match begin(told, alloc, engine, line) {
        Ok(()) => {}
        Err(refused) => return Err(no_memory(refused)),
    }
    answer.clear();
    match do_view(alloc, engine, reply, answer, line) {
        Ok(true) => {}
        Ok(false) => return Ok(false),
        Err(refused) => return Err(no_memory(refused)),
    }
    match list_line(items, line, answer.as_slice()) {
        Ok(()) => {}
        Err(refused) => return Err(no_memory(refused)),
    }
    match end(told, alloc, engine) {
        Ok(()) => Ok(true),
        Err(fault) => Err(fault),
    }
}
