//! Clones of items.
ghost use Rattle.std.specs.Prelude.{◌≡◌, ◌++◌, IfOk};

use std::alloc::Global;
use ts_schema::NoMemory;

/// Appends clones of items.
pub(crate) fn push_clones<T: Clone>(items: &mut Vec<T>, more: &[T]) -> Result<(), NoMemory>
    requires faithful { (x y : T) → T.is_clone x y → x ≡ y }
    ensures { IfOk result (λ _. items.new.items ≡ items.old.items ++ more.now) }
{
    items.extend_with_clones(more)?;
    Ok(())
}

/// The clones of two lists of items, concatenated.
pub(crate) fn concat<T: Clone + Drop>(
    alloc: Global,
    first: &[T],
    second: &[T],
) -> Result<Vec<T>, NoMemory>
    requires faithful { (x y : T) → T.is_clone x y → x ≡ y }
    ensures { IfOk result (λ items. items.items ≡ first.now ++ second.now) }
{
    let mut items = Vec::new(alloc);
    push_clones(&mut items, first)?;
    push_clones(&mut items, second)?;
    Ok(items)
}
