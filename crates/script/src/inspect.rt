//! Shows the engine: its ids, its pages and its indexes.

ghost use Rattle.std.specs.Prelude.{◌≡◌, ◌++◌, OnOk};
ghost use Rattle.std.specs.Option.{option_map};
ghost use Rattle.script_text.specs.Grammar.{with_feed};
ghost use Rattle.script_text.specs.Answers.{ids_text, shown_text, index_text};
ghost use Rattle.script.specs.Engine.{engine_index, next_id};
ghost use Rattle.script.specs.Script.{shown_of};

use script_text::{RefusedGrowth, tell_ids, tell_index, tell_no_index, tell_no_page, tell_page};
use session_core::Engine;

// Shows the next id, and that below which all are frozen.
pub(crate) fn show_ids(text: &mut Vec<u8>, engine: &Engine) -> Result<(), RefusedGrowth>
    ensures { OnOk result
        (text.new.items
        ≡ text.old.items
        ++ with_feed
        (ids_text (next_id engine.now.engine.core.heap.statuses)
        engine.now.engine.core.heap.statuses.first)) }
{
    let (next, frozen_below) = engine.ids();
    tell_ids(text, next, frozen_below)
}

// Shows a page, or that it isn't there.
pub(crate) fn show_page(
    text: &mut Vec<u8>,
    engine: &Engine,
    number: u32,
) -> Result<(), RefusedGrowth>
    ensures { OnOk result
        (text.new.items
        ≡ text.old.items ++ with_feed (shown_text number (shown_of engine.now number))) }
{
    match (engine.page(number), engine.page_bits(number)) {
        (Some(page), Some(bits)) => tell_page(text, number, page, bits),
        _ => tell_no_page(text),
    }
}

// Shows the entries of an index, or that it isn't there.
pub(crate) fn show_index(
    text: &mut Vec<u8>,
    engine: &Engine,
    number: u8,
) -> Result<(), RefusedGrowth>
    ensures { OnOk result
        (text.new.items
        ≡ text.old.items
        ++ with_feed
        (index_text number
        (option_map (λ index. index.entries) (engine_index engine.now.engine.core number)))) }
{
    match engine.index(number) {
        Some(index) => tell_index(text, number, index),
        None => tell_no_index(text),
    }
}
