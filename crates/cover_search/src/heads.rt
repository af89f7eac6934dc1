// Equations by the operations of their left sides.

ghost use Rattle.std.specs.Prelude.{ℕ, ◌≡◌, ◌↔◌, ◌++◌, ◌∷◌, [], List, IfOk, OnOk, IsTrue, map, nat_eq, if◌then◌else◌};
ghost use Rattle.cover_search.specs.Heads.{headed_at, headed_in, is_headed, IsHeadIndexOf};
ghost use Rattle.spec_core.specs.Constructors.{IsConstructor};
ghost use Rattle.spec_core.specs.Lists.{Each};
ghost use Rattle.spec_core.specs.Theories.{ConditionalEquation, Heads, equation_of, theory_of};

use indexmap::IndexMap;
use spec_core::constructors::is_marked;
use spec_core::equation::{DataSpec, Equation};
use spec_core::items::Op;
use spec_core::memory::Memory;
use spec_core::term::Term;
use std::alloc::Global;

/// An equation of an index.
#[derive(Drop)]
pub struct Headed<'a> {
    pub equation: &'a Equation,
}

/// The equations of each operation.
#[derive(Drop)]
pub struct HeadIndex<'a> {
    // by the numbers of operations
    all: IndexMap<u32, Vec<Headed<'a>>>,
}

impl<'a> HeadIndex<'a> {
    /// The index of these equations.
    pub fn of(alloc: Global, equations: &'a [Equation]) -> Result<HeadIndex<'a>, Memory>
        ensures { IfOk result (λ index. IsHeadIndexOf index (map equation_of equations.now)) }
    {
        let mut index = HeadIndex {
            all: IndexMap::new(alloc),
        };
        for equation in equations {
            index.add(equation)?;
        }
        Ok(index)
    }

    // Adds an equation of this operation.
    fn add_under(&mut self, head: u32, equation: &'a Equation) -> Result<(), Memory>
        ensures { OnOk result ((f : ℕ) → headed_at self.new f
            ≡ headed_at self.old f ++ (if nat_eq f head then equation_of equation.now ∷ [] else [])) }
    {
        self.all
            .entry(head)?
            .or_default()
            .push(Headed { equation })?;
        Ok(())
    }

    // Adds an equation.
    fn add(&mut self, equation: &'a Equation) -> Result<(), Memory>
        ensures { OnOk result ((f : ℕ) → headed_at self.new f
            ≡ headed_at self.old f ++ (if is_headed f (equation_of equation.now) then equation_of equation.now ∷ [] else [])) }
    {
        match &equation.left {
            Term::Var(_) => Ok(()),
            Term::App(head, _) => self.add_under(head.0, equation),
        }
    }

    /// The equations of an operation, in their order, if it has any. It takes no memory.
    pub fn headed(&self, op: Op) -> Option<&[Headed<'a>]>
        ensures { headed_in result ≡ headed_at self.now op.0 }
    {
        match self.all.get(&op.0) {
            None => None,
            Some(all) => Some(all),
        }
    }

    // Whether an operation heads no equation.
    fn heads_none(&self, op: Op) -> bool
        ensures { (es : List ConditionalEquation) → IsHeadIndexOf self.now es → IsTrue result ↔ Each (λ e. Heads op.0 e → ⊥) es }
    {
        match self.headed(op) {
            None => true,
            Some(headed) => headed.is_empty(),
        }
    }

    /// Whether an operation is a constructor: it heads no equation, or its declaration marks it. It takes no memory.
    pub fn is_constructor(&self, algebra: &DataSpec, op: Op) -> bool
        requires index { IsHeadIndexOf self.now (theory_of algebra.now).equations }
        ensures decides { IsTrue result ↔ IsConstructor (theory_of algebra.now) op.0 }
    {
        is_marked(algebra, op) || self.heads_none(op)
    }
}
