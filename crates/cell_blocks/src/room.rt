//! Lists that grow by a quarter.
ghost use Rattle.std.specs.Prelude.{◌≡◌, ◌≤◌, length, insert, OnOk, OnErr};

use std::alloc::AllocError;

/// Makes room for so many more: where it takes memory, for a quarter more than there are.
#[inline]
pub fn make_room<T>(items: &mut Vec<T>, more: usize) -> Result<(), AllocError>
    ensures { items.new.items ≡ items.old.items }
{
    if items.capacity() - items.len() < more {
        let quarter = items.len() / 4 + 4;
        items.reserve_exact(if quarter < more { more } else { quarter })?;
    }
    Ok(())
}

/// Puts an item before the one at `i`, or behind the last one.
#[inline]
#[tactic(auto, using(std::proofs::lemmas::List::Edits::insert_end))]
pub fn place<T: Drop>(items: &mut Vec<T>, i: usize, item: T) -> Result<(), AllocError>
    requires { i ≤ length items.old.items }
    ensures ok { OnOk result (items.new.items ≡ insert items.old.items i item) }
    ensures err { OnErr result (items.new.items ≡ items.old.items) }
{
    make_room(items, 1)?;
    if i == items.len() {
        items.push(item)?;
        return Ok(());
    }
    if let Err(refused) = items.insert(i, item) {
        return Err(AllocError::from(refused));
    }
    Ok(())
}
