// What a behaviour shows by a tree of rules.

ghost use Rattle.std.specs.Prelude.{◌≡◌, IfOk};
ghost use Rattle.symbolic_actions.specs.Models.{show_of};

use crate::field::{ShownField, copy_fields};
use spec_core::memory::Memory;
use std::alloc::Global;
use symbolic_plans::composite::ActionKind;

/// The kind of an action, and its fields.
#[derive(Drop)]
pub struct Shown {
    pub kind: ActionKind,
    pub fields: Vec<ShownField>,
}

impl Shown {
    /// An equal one.
    pub fn copy(&self, alloc: Global) -> Result<Shown, Memory>
        ensures equal { IfOk result (λ s. show_of s ≡ show_of self.now) }
    {
        let fields = copy_fields(alloc, &self.fields)?;
        Ok(Shown {
            kind: self.kind,
            fields,
        })
    }
}
