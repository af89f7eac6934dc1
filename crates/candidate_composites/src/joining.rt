// Which actions of a side of a parallel composition may come up, by what the other side can do.

ghost use Rattle.std.specs.Prelude.{◌≡◌, map};
ghost use Rattle.spec_core.specs.Code.{synchronised_of};
ghost use Rattle.symbolic_plans.specs.OpenPlans.{kind_in};
ghost use Rattle.node_trees.specs.Shapes.{beside};
ghost use Rattle.candidate_composites.specs.Joining as joining;
ghost use Rattle.candidate_composites.specs.Joining.{joining_of, right_of};
ghost use Rattle.candidate_composites.specs.Kept.{prunes};
ghost use Rattle.candidate_composites.specs.Known.{found_of};

use crate::found::Found;
use crate::listed::Listed;
use spec_core::code::GateSet;
use symbolic_plans::composite::ActionKind;
use symbolic_plans::kind::{is_alone, same_kind};

/// Actions of whatever kind; or, on the right side of a parallel composition with these gates, those that it does alone, and those that its
/// left side, which has these composites and gaps, may do as well.
#[derive(Clone, Copy)]
pub enum Joining<'a, 'b> {
    Free,
    Beside(&'a GateSet, &'b [Found<'a>]),
}

// Whether it is of this kind, or a gap, from which something of this kind may come.
fn may_be_of(found: &Found<'_>, kind: ActionKind) -> bool
    ensures { result ≡ joining.may_be_of (kind_in kind) (found_of found.now) }
{
    match found {
        Found::Gap(_, _) => true,
        Found::Composite(composite) => same_kind(composite.kind(), kind),
    }
}

// Whether one of these may be of this kind.
fn is_offered(those: &[Found<'_>], kind: ActionKind) -> bool
    ensures { result ≡ joining.is_offered (kind_in kind) (map found_of those.now) }
{
    for found in those {
        if may_be_of(found, kind) {
            return true;
        }
    }
    false
}

impl<'a, 'b> Joining<'a, 'b> {
    /// Whether actions of the kind may come up. It takes no memory.
    pub fn lets(self, kind: ActionKind) -> bool
        ensures { result ≡ joining.lets (joining_of self.entry) (kind_in kind) }
    {
        match self {
            Joining::Free => true,
            Joining::Beside(gates, left) => is_alone(gates, kind) || is_offered(left, kind),
        }
    }
}

/// Which actions of the right side of a parallel composition may come up, where its left side has these composites and gaps. It takes no
/// memory.
pub fn right_of<'a, 'b>(
    listed: Listed,
    gates: &'a GateSet,
    left: &'b [Found<'a>],
    above: Joining<'a, 'b>,
) -> Joining<'a, 'b>
    ensures { joining_of result ≡
        right_of (prunes listed) (beside (synchronised_of gates.now)) (map found_of left.now) (joining_of above.entry) }
{
    if listed.prunes() {
        Joining::Beside(gates, left)
    } else {
        above
    }
}
