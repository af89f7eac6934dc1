// Where an evaluation stands, and what is kept of it.

ghost use Rattle.std.specs.Prelude.{◌≡◌, []};

use crate::frames::Frames;
use crate::hints::Hints;
use crate::memo::Memo;
use rewriter::step::Todo;
use rewriter::values::Values;
use std::alloc::Global;
use value_nodes::node::Nodes;

/// The most terms that are found again by what they are made of.
pub const MOST_TERMS: usize = 1_048_576;

/// Nodes, those of them that are found again by what they are made of, and the calls that are remembered.
#[derive(Drop)]
pub struct Store {
    pub nodes: Nodes,
    pub hints: Hints,
    pub memo: Memo,
}

/// The calls that are run by themselves, the steps and values of the innermost one, and the uses of equations so far.
#[derive(Drop)]
pub struct Runs {
    pub frames: Frames,
    pub todo: Todo,
    pub values: Values,
    pub uses: u64,
}

impl Store {
    /// No nodes. It takes no memory.
    pub fn new(alloc: Global) -> Store
        ensures nodes { result.nodes ≡ [] }
        ensures entries { result.memo.entries.items ≡ [] }
    {
        Store {
            nodes: Nodes::new(alloc),
            hints: Hints::new(alloc),
            memo: Memo::new(alloc),
        }
    }

    /// No nodes, where none is found again and no call is remembered until it is opened. It takes no memory.
    pub fn closed(alloc: Global) -> Store
        ensures nodes { result.nodes ≡ [] }
        ensures entries { result.memo.entries.items ≡ [] }
    {
        Store {
            nodes: Nodes::new(alloc),
            hints: Hints::closed(alloc),
            memo: Memo::closed(alloc),
        }
    }

    /// From now on nodes are found again and calls are remembered. It takes no memory.
    pub fn open(&mut self)
        ensures nodes { self.new.nodes ≡ self.old.nodes }
        ensures entries { self.new.memo.entries ≡ self.old.memo.entries }
    {
        self.hints.open();
        self.memo.open();
    }

    /// Whether nothing more is remembered.
    pub fn is_full(&self) -> bool {
        self.memo.is_full() || self.nodes.len() >= MOST_TERMS
    }
}

impl Runs {
    /// Nothing to do. It takes no memory.
    pub fn new(alloc: Global) -> Runs
        ensures frames { result.frames ≡ [] }
        ensures todo { result.todo ≡ [] }
        ensures values { result.values ≡ [] }
        ensures uses { result.uses ≡ 0 }
    {
        Runs {
            frames: Frames::new(alloc),
            todo: Todo::new(alloc),
            values: Values::new(alloc),
            uses: 0,
        }
    }
}
