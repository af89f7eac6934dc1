// What is listed of the composites of a tree.

ghost use Rattle.std.specs.Prelude.{◌≡◌};
ghost use Rattle.candidate_composites.specs.Kept as kept;

/// Composites, and gaps in the places of nodes that wait; the same, without what right sides of parallel compositions can't do by their left
/// sides; and the latter without gaps.
#[derive(Clone, Copy)]
pub enum Listed {
    All,
    Pruned,
    Expanded,
}

impl Listed {
    /// Whether what right sides of parallel compositions can't do by their left sides is left out. It takes no memory.
    pub fn prunes(self) -> bool
        ensures { result ≡ kept.prunes self }
    {
        match self {
            Listed::All => false,
            Listed::Pruned => true,
            Listed::Expanded => true,
        }
    }

    /// Whether there is a gap in the place of each node that waits. It takes no memory.
    pub fn has_gaps(self) -> bool
        ensures { result ≡ kept.has_gaps self }
    {
        match self {
            Listed::All => true,
            Listed::Pruned => true,
            Listed::Expanded => false,
        }
    }
}
