// Whether two origins are one.

ghost use Rattle.std.specs.Prelude.{◌≡◌, ◌↔◌, IsTrue, map};
ghost use Rattle.spec_core.specs.Code.{relabelling_of};
ghost use Rattle.node_trees.specs.Origins.{source_of};

use node_trees::origin::Origin;
use spec_core::items::Gate;
use spec_core::value::Value;

// Whether the same variables have the same values.
fn same_values(left: &[(u32, Value)], right: &[(u32, Value)]) -> bool
    ensures { IsTrue result ↔ (left.now ≡ right.now) }
{
    match left {
        [] => right.is_empty(),
        [first, rest @ ..] => match right {
            [] => false,
            [other, others @ ..] => {
                first.0 == other.0 && first.1.same(&other.1) && same_values(rest, others)
            }
        },
    }
}

// Whether two relabellings are one.
fn same_relabelling(left: &[(Gate, Gate)], right: &[(Gate, Gate)]) -> bool
    ensures { IsTrue result ↔ (map relabelling_of left.now ≡ map relabelling_of right.now) }
{
    match left {
        [] => right.is_empty(),
        [first, rest @ ..] => match right {
            [] => false,
            [other, others @ ..] => {
                first.0.0 == other.0.0 && first.1.0 == other.1.0 && same_relabelling(rest, others)
            }
        },
    }
}

/// Whether two origins are one. It takes no memory.
pub fn is_same_origin(one: &Origin, other: &Origin) -> bool
    ensures { IsTrue result ↔ (source_of one.now ≡ source_of other.now) }
{
    one.node == other.node
        && same_values(&one.values, &other.values)
        && same_relabelling(&one.relabel, &other.relabel)
}
