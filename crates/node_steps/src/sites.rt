// Where the behaviours of origins stand.

ghost use Rattle.std.specs.Prelude.{◌≡◌, IfOk, map};
ghost use Rattle.spec_core.specs.Code.{program_of, relabelling_of};
ghost use Rattle.spec_core.specs.Ready.{IsReady};
ghost use Rattle.rule_model.specs.Behaviours.{relabel};
ghost use Rattle.rule_model.specs.Substitution.{tidied};
ghost use Rattle.rule_origins.specs.Parts.{behaviour_at};
ghost use Rattle.node_trees.specs.Origins.{relabelled_by};
ghost use Rattle.node_steps.specs.Frames.{standing};

use crate::turn::Site;
use node_trees::origin::Origin;
use rule_origins::tidying::joined;
use rule_origins::views::call_at;
use rule_substitution::relabelling::renamed_gates;
use spec_core::code::Checked;
use spec_core::items::Gate;
use spec_core::memory::Memory;
use spec_core::term::copy_terms;
use std::alloc::Global;

// The behaviour with this number of the code under a relabelling, which stays an operator.
fn renamed_site(
    alloc: Global,
    checked: &Checked,
    pairs: &[(Gate, Gate)],
    number: u32,
) -> Result<Site, Memory>
    ensures stands { IfOk result (λ s. standing (program_of checked.now) s ≡
        relabel (map relabelling_of pairs.now) (behaviour_at (program_of checked.now) number)) }
{
    Ok(Site::Renamed(Vec::from_slice(alloc, pairs)?, number))
}

// The behaviour with this number of the code under a relabelling, tidied: two relabellings one over the other are one, and a call is
// relabelled in its gates. It recurs as deep as relabellings nest.
fn tidied_site(
    alloc: Global,
    checked: &Checked,
    pairs: &[(Gate, Gate)],
    number: u32,
) -> Result<Site, Memory>
    requires ready { IsReady (program_of checked.now) }
    ensures stands { IfOk result (λ s. standing (program_of checked.now) s ≡
        tidied (map relabelling_of pairs.now) (behaviour_at (program_of checked.now) number)) }
{
    let one = joined(alloc, checked, pairs, number)?;
    match call_at(checked, one.node) {
        None => renamed_site(alloc, checked, &one.pairs, one.node),
        Some((process, gates, values)) => {
            let actual = renamed_gates(alloc, &one.pairs, gates)?;
            Ok(Site::Called(process, actual, copy_terms(alloc, values)?))
        }
    }
}

/// Where the code of an origin stands under the origin's relabelling; an empty one is none.
pub fn site_of(alloc: Global, checked: &Checked, origin: &Origin) -> Result<Site, Memory>
    requires ready { IsReady (program_of checked.now) }
    ensures stands { IfOk result (λ s. standing (program_of checked.now) s ≡
        relabelled_by (map relabelling_of origin.now.relabel.items) (behaviour_at (program_of checked.now) origin.now.node)) }
{
    if origin.relabel.is_empty() {
        Ok(Site::At(origin.node))
    } else {
        tidied_site(alloc, checked, &origin.relabel, origin.node)
    }
}
