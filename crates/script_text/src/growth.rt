//! All growths of texts and buffers.
//!
//! Each function here asks for memory once, for no more than the bytes that it is given need, or for one buffer. A [`RefusedGrowth`]
//! is made of the refusal of that request, and of nothing else: no other module can make one.

ghost use Rattle.std.specs.Prelude.{◌≡◌, ◌∷◌, ◌++◌, ◌+◌, ◌/◌, ◌<◌, ◌≤◌, [], length, vec_len, vec_capacity, IfOk, OnOk, OnErr};

use calls::Action;
use std::alloc::Global;

/// A growth was refused.
#[derive(Drop)]
pub struct RefusedGrowth {
    _of_this_module: (),
}

const REFUSED: RefusedGrowth = RefusedGrowth {
    _of_this_module: (),
};

/// Adds a byte.
pub fn push(out: &mut Vec<u8>, byte: u8) -> Result<(), RefusedGrowth>
    ensures added { OnOk result (out.new.items ≡ out.old.items ++ byte ∷ []) }
    ensures full { OnErr result (vec_capacity out.old ≤ vec_len out.old) }
{
    match out.push(byte) {
        Ok(()) => Ok(()),
        Err(_) => Err(REFUSED),
    }
}

/// Adds what is done to a slot.
pub(crate) fn push_action(
    actions: &mut Vec<(u16, Action)>,
    slot: u16,
    action: Action,
) -> Result<(), RefusedGrowth>
    ensures added { OnOk result (actions.new.items ≡ actions.old.items ++ (slot, action) ∷ []) }
    ensures full { OnErr result (vec_capacity actions.old ≤ vec_len actions.old) }
{
    match actions.push((slot, action)) {
        Ok(()) => Ok(()),
        Err(_) => Err(REFUSED),
    }
}

/// Adds an item to a list.
pub fn push_item<T: Drop>(list: &mut Vec<T>, item: T) -> Result<(), RefusedGrowth>
    ensures added { OnOk result (list.new.items ≡ list.old.items ++ item ∷ []) }
    ensures full { OnErr result (vec_capacity list.old ≤ vec_len list.old) }
{
    match list.push(item) {
        Ok(()) => Ok(()),
        Err(_) => Err(REFUSED),
    }
}

/// A list of these numbers.
pub fn copy_numbers(alloc: Global, numbers: &[u32]) -> Result<Vec<u32>, RefusedGrowth>
    ensures { IfOk result (λ list. list.items ≡ numbers.now) }
{
    match Vec::from_slice(alloc, numbers) {
        Ok(list) => Ok(list),
        Err(_) => Err(REFUSED),
    }
}

/// Adds bytes.
pub fn extend(out: &mut Vec<u8>, bytes: &[u8]) -> Result<(), RefusedGrowth>
    ensures added { OnOk result (out.new.items ≡ out.old.items ++ bytes.now) }
    ensures full { OnErr result (vec_capacity out.old < vec_len out.old + length bytes.now) }
{
    match out.extend_from_slice(bytes) {
        Ok(()) => Ok(()),
        Err(_) => Err(REFUSED),
    }
}

/// An empty list with room for the bytes that a word spells, two digits each.
pub(crate) fn room_for_pairs(alloc: Global, word: &[u8]) -> Result<Vec<u8>, RefusedGrowth>
    ensures empty { IfOk result (λ bytes. bytes.items ≡ []) }
    ensures some { OnErr result (0 < length word.now / 2) }
{
    match Vec::with_capacity(alloc, word.len() / 2) {
        Ok(bytes) => Ok(bytes),
        Err(_) => Err(REFUSED),
    }
}

// How many bytes a buffer has.
const CAPACITY: usize = 65536;

/// A buffer of zeros.
pub fn buffer(alloc: Global) -> Result<Vec<u8>, RefusedGrowth>
    ensures { IfOk result (λ bytes. length bytes.items ≡ 65536) }
{
    match vec![in alloc; 0; CAPACITY] {
        Ok(bytes) => Ok(bytes),
        Err(_) => Err(REFUSED),
    }
}
