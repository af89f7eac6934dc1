// Expansions of nodes.

ghost use Rattle.std.specs.Prelude.{◌≡◌, IfOk, map};
ghost use Rattle.node_trees.specs.Rests.{way_of, expansion_of};

use crate::rest::{Deed, Rest};
use spec_core::memory::Memory;
use std::alloc::Global;
use symbolic_plans::composite::OpenComposite;
use symbolic_plans::operators::copies;
use symbolic_plans::scheme::Scheme;

/// One way in which an origin can act: a tree of rules whose chosen values are left open until it acts, its action, and what is left then.
#[derive(Drop)]
pub struct Alternative {
    pub scheme: Scheme,
    pub action: Deed,
    pub rest: Rest,
}

/// What an origin can do: what it can take part in, its composites in their order; and the ways to act by them.
#[derive(Drop)]
pub struct Expansion {
    pub composites: Vec<OpenComposite>,
    pub alternatives: Vec<Alternative>,
}

impl Alternative {
    /// An equal one.
    pub fn copy(&self, alloc: Global) -> Result<Alternative, Memory>
        ensures equal { IfOk result (λ a. way_of a ≡ way_of self.now) }
    {
        let scheme = self.scheme.copy(alloc)?;
        let action = self.action.copy(alloc)?;
        let rest = self.rest.copy(alloc)?;
        Ok(Alternative {
            scheme,
            action,
            rest,
        })
    }
}

// Equal ways to act, in the same order.
fn copy_alternatives(
    alloc: Global,
    alternatives: &[Alternative],
) -> Result<Vec<Alternative>, Memory>
    ensures { IfOk result (λ all. map way_of all.items ≡ map way_of alternatives.now) }
{
    let mut all = Vec::new(alloc);
    for alternative in alternatives {
        all.push(alternative.copy(alloc)?)?;
    }
    Ok(all)
}

impl Expansion {
    /// An equal expansion.
    pub fn copy(&self, alloc: Global) -> Result<Expansion, Memory>
        ensures equal { IfOk result (λ e. expansion_of e ≡ expansion_of self.now) }
    {
        let composites = copies(alloc, &self.composites)?;
        let alternatives = copy_alternatives(alloc, &self.alternatives)?;
        Ok(Expansion {
            composites,
            alternatives,
        })
    }
}
