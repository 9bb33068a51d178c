//! What root signatures cost.

ghost use Rattle.std.specs.Prelude.{◌≡◌, ◌-◌, ◌≤◌, ◌^◌, length, min, IsTrue};
ghost use Rattle.std.specs.List.{list_all};
ghost use Rattle.root_signature.specs.Costs.{cost_of_param, cost_of, has_few_constants};

use crate::params::Param;

/// What a parameter costs, in words of 32 bits.
fn param_cost(param: &Param) -> u32
    ensures { result ≡ cost_of_param param.now }
{
    match param {
        Param::Const { count, .. } => *count,
        Param::Root { .. } => 2,
        Param::Table { .. } => 1,
    }
}

/// What parameters cost together, in words of 32 bits: 1 for a table, 2 for a root descriptor, and its count for
/// constants (Direct3D 12 programming guide, "Root Signature Limits"). A cost of 2^32 or more is cut to
/// 2^32 - 1; there is none of at most 64 parameters with counts of at most 64.
pub fn cost(params: &[Param]) -> u32
    ensures value { result ≡ min (cost_of params.now) (2 ^ 32 - 1) }
    ensures exact { length params.now ≤ 64 → IsTrue (list_all has_few_constants params.now) → result ≡ cost_of params.now }
{
    let mut cost: u32 = 0;
    for param in params {
        cost = cost.saturating_add(param_cost(param));
    }
    cost
}
