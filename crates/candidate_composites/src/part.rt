// Composites with gaps.

use crate::step::Step;
use node_trees::origin::Gen;
use symbolic_plans::composite::OpenComposite;

/// A composite of a tree of nodes; or the place of a node that isn't expanded, with the steps from it up to the whole, the lowest first.
#[derive(Drop)]
pub enum Part<'a> {
    Gap(Gen, Vec<Step<'a>>),
    Composite(OpenComposite),
}
