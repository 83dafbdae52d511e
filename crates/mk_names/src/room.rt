//! Appending to vectors: where there is room, no function is called.

ghost use Rattle.std.specs.Prelude.{◌≡◌, ◌+◌, ◌≤◌, ◌++◌, [], ◌∷◌, vec_len, vec_capacity, OnOk, OnErr};

use std::alloc::{AllocError, Global};

/// No items, with room for as many, where there is memory for it.
pub fn with_room<T>(alloc: Global, items: usize) -> Vec<T>
    ensures { result.items ≡ [] }
{
    match Vec::with_capacity(alloc, items) {
        Ok(empty) => empty,
        Err(_) => Vec::new(alloc),
    }
}

/// Takes room for so many more items where there is less.
#[inline(always)]
pub fn make_room<T>(items: &mut Vec<T>, more: usize) -> Result<(), AllocError>
    ensures items { items.new.items ≡ items.old.items }
    ensures len { vec_len items.new ≡ vec_len items.old }
    ensures room { OnOk result (vec_len items.new + more ≤ vec_capacity items.new) }
{
    if more > items.capacity() - items.len() {
        return items.reserve(more);
    }
    Ok(())
}

/// Appends an item.
#[inline(always)]
pub fn push<T: Copy>(items: &mut Vec<T>, item: T) -> Result<(), AllocError>
    ensures ok { OnOk result (items.new.items ≡ items.old.items ++ item ∷ []) }
    ensures err { OnErr result (items.new.items ≡ items.old.items) }
{
    make_room(items, 1)?;
    items.push_reserved(item);
    Ok(())
}

/// Up to so many numbers a loop costs less than a copy of a block.
const FEW: usize = 8;

/// Appends numbers.
#[inline(always)]
pub fn append(numbers: &mut Vec<u32>, more: &[u32]) -> Result<(), AllocError>
    ensures ok { OnOk result (numbers.new.items ≡ numbers.old.items ++ more.now) }
    ensures err { OnErr result (numbers.new.items ≡ numbers.old.items) }
{
    if more.len() > FEW {
        return numbers.extend_from_slice(more);
    }
    make_room(numbers, more.len())?;
    for number in more {
        numbers.push_reserved(*number);
    }
    Ok(())
}
