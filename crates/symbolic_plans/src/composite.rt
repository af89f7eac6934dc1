// Composites.

ghost use Rattle.std.specs.Prelude.{◌≡◌, IfOk, map};
ghost use Rattle.symbolic_plans.specs.OpenPlans.{open_plan_of};

use crate::column::{Column, copy_columns};
use crate::scheme::Scheme;
use spec_core::items::Gate;
use spec_core::memory::Memory;
use std::alloc::Global;

/// An action without its values.
#[derive(Clone, Copy, Debug, PartialEq, Eq)]
pub enum ActionKind {
    Inner,
    Exit,
    At(Gate),
}

/// A composite: what a behaviour can take part in, with its chosen values left open.
#[derive(Drop)]
pub struct OpenComposite {
    pub kind: ActionKind,
    pub columns: Vec<Column>,
    pub scheme: Scheme,
}

impl OpenComposite {
    /// An equal composite.
    pub fn copy(&self, alloc: Global) -> Result<OpenComposite, Memory>
        ensures equal { IfOk result (λ c. open_plan_of c ≡ open_plan_of self.now) }
    {
        let columns = copy_columns(alloc, &self.columns)?;
        let scheme = self.scheme.copy(alloc)?;
        Ok(OpenComposite {
            kind: self.kind,
            columns,
            scheme,
        })
    }
}
