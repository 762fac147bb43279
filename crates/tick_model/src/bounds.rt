//! Key bounds: a number for each node that is greater than each of its keys.

ghost use Rattle.std.specs.Prelude.{◌≡◌, ◌^◌, ◌<◌, ◌≤◌, map, sum, length, nat_lt, slice_index};
ghost use Rattle.std.specs.List.{All, list_all};
ghost use Rattle.tick_model.specs.Plans.{key_bounds};
ghost use Rattle.tick_model.specs.Operators.{bound_of as bound_in};

use crate::limits::{KEY_SPACE, MOST_NODES};
use crate::plan::Node;

/// Whether the bound of each node leaves its keys below 2^62.
pub fn have_key_space(nodes: &[Node]) -> bool
    requires { length nodes.now ≤ 256 }
    ensures { result ≡ list_all (λ bound. nat_lt bound (2 ^ 62)) (key_bounds nodes.now) }
{
    let mut bounds = [0u64; MOST_NODES];
    for (i, node) in nodes.iter().enumerate() {
        let bound = node.op.bound(&bounds[..i]);
        if bound >= u128::from(KEY_SPACE) {
            return false;
        }
        bounds[i] = bound as u64;
    }
    true
}
