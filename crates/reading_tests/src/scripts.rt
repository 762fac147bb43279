//! Scripts that are read.

ghost use Rattle.std.specs.Prelude.{◌<◌, ◌^◌, IfOk, length};
ghost use Rattle.std.specs.List.{All};

use script_reader::reader::read_script;
use script_reader::script::Script;
use std::alloc::{AllocError, Global};

/// A script without a fault.
pub(super) fn script_of(alloc: Global, text: &str) -> Result<Script, AllocError>
    ensures nodes { IfOk result (λ script. length script.plan.nodes < 2 ^ 32) }
    ensures columns { IfOk result (λ script. All (λ node. length node.columns < 2 ^ 32) script.plan.nodes) }
{
    match read_script(alloc, text.as_bytes()) {
        Ok(script) => Ok(script),
        Err(_) => Err(AllocError),
    }
}
