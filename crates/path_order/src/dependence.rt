// Which operations depend on one.

ghost use Rattle.std.specs.Prelude.{◌≡◌, ◌↔◌, IfOk, IfSome, IsTrue, OnOk};
ghost use Rattle.path_order.specs.Mentioning.{AreDependents, AreMentions, IsGrown};
ghost use Rattle.spec_core.specs.Lists.{IsOneOf, OneOf};
ghost use Rattle.spec_core.specs.Theories.{Heads, Theory};

use crate::mentions::Mentions;
use indexmap::IndexSet;
use spec_core::items::Op;
use spec_core::memory::Memory;
use std::alloc::Global;

// Puts those of a row that aren't there yet behind the others.
fn add_row(row: &[u32], found: &mut IndexSet<u32>) -> Result<(), Memory>
    ensures { OnOk result (IsGrown row.now found.old.keys found.new.keys) }
{
    for head in row {
        found.insert(*head)?;
    }
    Ok(())
}

// The operations that depend on one that heads an equation: itself, those whose equations mention it, those whose equations mention
// one of these, and so on.
fn depending_on(alloc: Global, mentions: &Mentions, op: Op) -> Result<IndexSet<u32>, Memory>
    ensures exact { IfOk result (λ found. (theory : Theory) → AreMentions theory mentions.now → OneOf (Heads op.0) theory.equations →
        AreDependents theory op.0 found.keys) }
{
    let mut found = IndexSet::new(alloc);
    found.insert(op.0)?;
    for place in 0..usize::MAX {
        match found.get_index(place) {
            None => return Ok(found),
            Some(next) => {
                let next = *next;
                add_row(mentions.row(next), &mut found)?;
            }
        }
    }
    Err(Memory)
}

/// An operation with those that depend on it.
#[derive(Drop)]
pub struct Dependents {
    pub op: Op,
    pub found: IndexSet<u32>,
}

impl Dependents {
    /// Whether an operation depends on this one. It takes no memory.
    pub fn has(&self, op: Op) -> bool
        ensures decides { IsTrue result ↔ IsOneOf op.0 self.now.found.keys }
    {
        self.found.contains(&op.0)
    }
}

/// The operations that depend on one that heads an equation. Those that were found last are given again where they are the same.
pub fn dependents_of(
    alloc: Global,
    mentions: &Mentions,
    op: Op,
    last: Option<Dependents>,
) -> Result<Dependents, Memory>
    ensures same { IfOk result (λ d. d.op ≡ op) }
    ensures exact { IfOk result (λ d. (theory : Theory) → AreMentions theory mentions.now → OneOf (Heads op.0) theory.equations →
        IfSome last (λ l. AreDependents theory l.op.0 l.found.keys) → AreDependents theory op.0 d.found.keys) }
{
    if let Some(known) = last {
        if known.op.0 == op.0 {
            return Ok(known);
        }
    }
    let found = depending_on(alloc, mentions, op)?;
    Ok(Dependents { op, found })
}
