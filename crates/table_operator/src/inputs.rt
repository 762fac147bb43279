//! The inputs of an operator that are given as a list, and lists that it is made of.

ghost use Rattle.std.specs.Prelude.{◌≡◌, ◌∷◌, [], length, IfOk};
ghost use Rattle.table_operator.specs.Inputs.{tables};

use std::alloc::{AllocError, Global};
use tick_model::items::Items;
use tick_table::{Shared, TickTable};

/// The only input.
pub fn one_input(inputs: &[Shared]) -> &TickTable
    requires { length (tables inputs.now) ≡ 1 }
    ensures { tables inputs.now ≡ result.now ∷ [] }
{
    &inputs[0]
}

/// The left input and the right one.
pub fn two_inputs(inputs: &[Shared]) -> (&TickTable, &TickTable)
    requires { length (tables inputs.now) ≡ 2 }
    ensures { tables inputs.now ≡ result.0.now ∷ result.1.now ∷ [] }
{
    (&inputs[0], &inputs[1])
}

/// Members that hold no memory once more.
pub fn copied<T: Copy + Drop>(alloc: Global, items: &Items<T>) -> Result<Items<T>, AllocError>
    ensures { IfOk result (λ copies. copies ≡ items.now) }
{
    Ok(Items::of(Vec::from_slice(alloc, items.as_slice())?))
}
