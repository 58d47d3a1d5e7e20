//! Lists that grow by one item.

ghost use Rattle.std.specs.Prelude.{◌≡◌, ◌∷◌, ◌++◌, [], IfOk};

use std::alloc::AllocError;
use tester_types::Items;

/// One more item behind the others.
pub fn with_one<T: Drop>(list: Items<T>, one: T) -> Result<Items<T>, AllocError>
    ensures { IfOk result (λ more. more ≡ list ++ one ∷ []) }
{
    let mut items = list.into_vec();
    items.push(one)?;
    Ok(Items::from_vec(items))
}
