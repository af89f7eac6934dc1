// What stands at a number of the code under a relabelling, tidied: two relabellings one over the other are one.

ghost use Rattle.std.specs.Prelude.{◌≡◌, IfOk, map};
ghost use Rattle.spec_core.specs.Code.{program_of, relabelling_of};
ghost use Rattle.spec_core.specs.Ready.{IsReady};
ghost use Rattle.rule_model.specs.Constructs.{OnRelabel};
ghost use Rattle.rule_model.specs.Substitution.{tidied};
ghost use Rattle.rule_origins.specs.Parts.{behaviour_at};

use crate::views::relabel_at;
use rule_substitution::relabelling::after;
use spec_core::code::Checked;
use spec_core::items::Gate;
use spec_core::memory::Memory;
use std::alloc::Global;

/// One relabelling, and the number of the code of a behaviour that isn't relabelled itself.
#[derive(Drop)]
pub struct Renamed {
    pub pairs: Vec<(Gate, Gate)>,
    pub node: u32,
}

/// One relabelling in the place of this one and of those at the number, which stand one over the other. It recurs as deep as they do.
#[tactic(auto, using(crate::proofs::Tidied::joins))]
pub fn joined(
    alloc: Global,
    checked: &Checked,
    pairs: &[(Gate, Gate)],
    number: u32,
) -> Result<Renamed, Memory>
    requires ready { IsReady (program_of checked.now) }
    ensures same { IfOk result (λ r.
        tidied (map relabelling_of pairs.now) (behaviour_at (program_of checked.now) number) ≡
        tidied (map relabelling_of r.pairs.items) (behaviour_at (program_of checked.now) r.node)) }
    ensures alone { IfOk result (λ r. OnRelabel (behaviour_at (program_of checked.now) r.node) (λ pairs body. Unit {0}) → ⊥) }
{
    match relabel_at(checked, number) {
        None => Ok(Renamed {
            pairs: Vec::from_slice(alloc, pairs)?,
            node: number,
        }),
        Some((before, body)) => {
            let all = after(alloc, pairs, before)?;
            joined(alloc, checked, &all, body)
        }
    }
}
