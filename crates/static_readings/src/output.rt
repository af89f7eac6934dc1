// What reading puts out.

ghost use Rattle.std.specs.Prelude.{◌≡◌, ◌++◌, ◌∷◌, [], IfOk, OnOk, length, take, pred};
ghost use Rattle.spec_core.specs.Code.{node_of};
ghost use Rattle.sort_overloads.specs.Refused.{refused};
ghost use Rattle.static_readings.specs.Views.{output_of};

use lotos_ast::names::Names;
use lotos_ast::place::Place;
use lotos_ast::refusal::{Refusal, RefusalKind};
use spec_core::code::{CodeNode, Part};
use spec_core::memory::Memory;
use std::alloc::Global;

/// Code and refusals.
#[derive(Drop)]
pub struct Output {
    /// The nodes of what is read, each behind those of its parts.
    pub code: Vec<CodeNode>,
    /// What is refused.
    pub refusals: Vec<Refusal>,
}

impl Output {
    /// Nothing. It takes no memory.
    pub fn new(alloc: Global) -> Output
        ensures code { (output_of result).code ≡ [] }
        ensures refusals { (output_of result).refusals ≡ [] }
    {
        Output {
            code: Vec::new(alloc),
            refusals: Vec::new(alloc),
        }
    }

    /// The number of the last node; 0 where there is none. Want of memory is answered where it is 2^32 or more.
    pub fn last(&self) -> Result<Part, Memory>
        ensures { IfOk result (λ part. part.0 ≡ pred (length (output_of self.now).code)) }
    {
        let last = self.code.len().saturating_sub(1);
        if last >= 4_294_967_296 {
            return Err(Memory);
        }
        Ok(Part(last as u32))
    }

    /// Puts a node behind the others.
    pub fn push(&mut self, node: CodeNode) -> Result<(), Memory>
        ensures code { OnOk result ((output_of self.new).code ≡ (output_of self.old).code ++ node_of node ∷ []) }
        ensures refusals { OnOk result ((output_of self.new).refusals ≡ (output_of self.old).refusals) }
    {
        self.code.push(node)?;
        Ok(())
    }

    /// Leaves only the first nodes. It takes no memory.
    pub fn truncate(&mut self, len: usize)
        ensures code { (output_of self.new).code ≡ take len (output_of self.old).code }
        ensures refusals { (output_of self.new).refusals ≡ (output_of self.old).refusals }
    {
        self.code.truncate(len);
    }

    /// Refuses what stands at a place.
    pub fn refuse(&mut self, alloc: Global, kind: RefusalKind, place: Place) -> Result<(), Memory>
        ensures code { OnOk result ((output_of self.new).code ≡ (output_of self.old).code) }
        ensures refusals { OnOk result ((output_of self.new).refusals ≡ (output_of self.old).refusals ++ refused kind place [] ∷ []) }
    {
        self.refusals.push(Refusal {
            kind,
            place,
            names: Names::none(alloc),
        })?;
        Ok(())
    }
}
