// Behaviours of the code, whichever gates and values they have.

ghost use Rattle.std.specs.Prelude.{◌≡◌, map};
ghost use Rattle.spec_core.specs.Code.{program_of, relabelling_of};
ghost use Rattle.spec_core.specs.Ready.{IsReady};
ghost use Rattle.rule_origins.specs.Parts.{behaviour_at};
ghost use Rattle.symbolic_plans.specs.Plans.{Plan};
ghost use Rattle.node_trees.specs.Origins.{meaning, source_of};
ghost use Rattle.candidate_count.specs.Places.{placed, renamed_by, renamed_once};
ghost use Rattle.candidate_count.specs.Predicates.{has_predicate};

use node_trees::origin::Origin;
use rule_origins::code::construct_at;
use spec_core::code::{Checked, CodeNode};
use spec_core::items::Gate;

/// A behaviour of the code. Gates and values aren't told.
#[derive(Clone, Copy)]
pub enum Place {
    /// The behaviour at this number.
    At(u32),
    /// The behaviour at this number under a relabelling.
    Renamed(u32),
    /// A call of the process with this number.
    Called(u32),
}

// The behaviour with this number of the code under a relabelling, tidied. It recurs as deep as relabellings nest.
fn renamed_place(checked: &Checked, number: u32) -> Place
    requires ready { IsReady (program_of checked.now) }
    ensures renamed { placed (program_of checked.now) result ≡ renamed_once (behaviour_at (program_of checked.now) number) }
{
    match construct_at(checked, number) {
        None => Place::Renamed(number),
        Some(construct) => match construct {
            CodeNode::Relabel(_, body) => renamed_place(checked, body.0),
            CodeNode::Call { process, .. } => Place::Called(*process),
            CodeNode::Stop
            | CodeNode::Exit(..)
            | CodeNode::Inner(..)
            | CodeNode::Act { .. }
            | CodeNode::Choice(..)
            | CodeNode::Guard(..)
            | CodeNode::Let(..)
            | CodeNode::Values(..)
            | CodeNode::Gates(..)
            | CodeNode::Par(..)
            | CodeNode::Hide(..)
            | CodeNode::Enable(..)
            | CodeNode::Disable(..)
            | CodeNode::Process { .. } => Place::Renamed(number),
        },
    }
}

// The same under a relabelling that may be empty, which is none.
fn place_under(checked: &Checked, number: u32, pairs: &[(Gate, Gate)]) -> Place
    requires ready { IsReady (program_of checked.now) }
    ensures renamed { placed (program_of checked.now) result ≡
        renamed_by (map relabelling_of pairs.now) (behaviour_at (program_of checked.now) number) }
{
    match pairs {
        [] => Place::At(number),
        [_, ..] => renamed_place(checked, number),
    }
}

/// Where the code of an origin stands under the origin's relabelling. Along each plan it has a predicate where the behaviour that the
/// origin stands for has one.
pub fn place_of(checked: &Checked, origin: &Origin) -> Place
    requires ready { IsReady (program_of checked.now) }
    ensures alike { (p : Plan) → has_predicate (program_of checked.now) p (placed (program_of checked.now) result) ≡
        has_predicate (program_of checked.now) p (meaning (program_of checked.now) (source_of origin.now)) }
{
    place_under(checked, origin.node, &origin.relabel)
}
