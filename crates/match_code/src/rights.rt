// Right sides of equations in postfix order.

ghost use Rattle.std.specs.Prelude.{ℕ, ◌≡◌, ◌<◌, ◌∷◌, ◌++◌, [], IfOk, IfSome, OnOk, IsTrue, MatchOption};
ghost use Rattle.std.specs.Prelude.{length, map, reverse};
ghost use Rattle.spec_core.specs.Executable.{IsExecutable};
ghost use Rattle.spec_core.specs.Lists.{Each};
ghost use Rattle.spec_core.specs.Terms.{TermTree, Occurs, OccursInAny, terms, term_of};
ghost use Rattle.spec_core.specs.Theories.{Theory, Heads, theory_of};
ghost use Rattle.rewriter.specs.Machine.{plan, plan_all, put};
ghost use Rattle.rewriter.specs.Steps.{equation_at, IsWithinArity, AreWithinArity, AllWithinArity};
ghost use Rattle.match_code.specs.Rights.{task_by, OnVariable, OnOperation, IsRight, IsUnconditional, IsNoted, AreUnconditional, AreForms};

use crate::trees::Trees;
use rewriter::equations::{head_of, most_variables, numbered};
use rewriter::heads::FirstEquations;
use spec_core::equation::DataSpec;
use spec_core::items::Op;
use spec_core::memory::Memory;
use spec_core::term::Term;
use std::alloc::{AllocError, Global};
use std::marker::Model;

/// A symbol of a term.
#[derive(Clone, Copy)]
pub enum Symbol {
    /// A variable.
    Variable(u32),
    /// An operation, with its number of arguments.
    Operation(Op, usize),
}

/// Symbols of terms in postfix order, each operation behind its arguments. A contract sees them as a list, the next one first.
#[derive(Drop)]
pub struct Postfix {
    symbols: Vec<Symbol>,
}

impl Model for Postfix {
    ghost use Rattle.std.specs.Prelude.{List, reverse};
    ghost use Rattle.match_code.specs.declared.rights.Symbol.{Symbol};

    ghost Value = { List Symbol };

    ghost view = { λ p. reverse p.symbols.items };
}

/// The right side of an equation in postfix order: the variables with which it begins, and the symbols that follow.
#[derive(Drop)]
pub struct Right {
    /// The number of the equation.
    pub place: usize,
    pub first: Vec<u32>,
    pub rest: Postfix,
}

/// What is made once of the equations: which of them each operation heads, the greatest number of variables of one, of which operations
/// it is noted that none of their equations has a premise, decision trees for the left sides, and the right sides by the equations'
/// numbers.
#[derive(Drop)]
pub struct Forms {
    pub heads: FirstEquations,
    pub room: usize,
    pub unconditional: Vec<bool>,
    pub trees: Trees,
    pub rights: Vec<Right>,
}

impl Postfix {
    /// No symbols. It takes no memory.
    pub fn new(alloc: Global) -> Postfix
        ensures none { result ≡ [] }
    {
        Postfix {
            symbols: Vec::new(alloc),
        }
    }

    /// One more symbol, which is the next.
    pub fn push(&mut self, symbol: Symbol) -> Result<(), AllocError>
        ensures pushed { OnOk result (self.new ≡ symbol ∷ self.old) }
    {
        self.symbols.push(symbol)?;
        Ok(())
    }

    /// Takes the next symbol.
    pub fn pop(&mut self) -> Option<Symbol>
        ensures popped { MatchOption result ((self.old ≡ []) × (self.new ≡ [])) (λ s. self.old ≡ s ∷ self.new) }
    {
        self.symbols.pop()
    }

    /// The symbols, the next one last. It takes no memory.
    pub fn all(&self) -> &[Symbol]
        ensures seen { result.now ≡ reverse self.now }
    {
        &self.symbols
    }
}

// Puts the symbols of a term before those that are there. It recurs as deep as the term nests.
#[cycle(flattening)]
fn flatten(symbols: &mut Postfix, term: &Term) -> Result<(), AllocError>
    ensures planned { OnOk result
        ((s : ℕ → TermTree) → map (task_by s) symbols.new ≡ plan s (term_of term.now) (map (task_by s) symbols.old)) }
    ensures there { OnOk result
        ((u : TermTree) →
        ((x : ℕ) → Occurs x (term_of term.now) → Occurs x u) → Each (OnVariable (λ x. Occurs x u)) symbols.old →
        Each (OnVariable (λ x. Occurs x u)) symbols.new) }
    ensures arities { OnOk result
        ((theory : Theory) →
        AreWithinArity theory (term_of term.now) → Each (OnOperation (IsWithinArity theory)) symbols.old →
        Each (OnOperation (IsWithinArity theory)) symbols.new) }
{
    match term {
        Term::Var(x) => symbols.push(Symbol::Variable(*x)),
        Term::App(op, args) => {
            symbols.push(Symbol::Operation(*op, args.len()))?;
            flatten_all(symbols, args)
        }
    }
}

// Puts the symbols of terms, one after another, before those that are there.
#[cycle(flattening)]
fn flatten_all(symbols: &mut Postfix, all: &[Term]) -> Result<(), AllocError>
    ensures planned { OnOk result
        ((s : ℕ → TermTree) →
        map (task_by s) symbols.new ≡ plan_all s (terms (map term_of all.now)) (map (task_by s) symbols.old)) }
    ensures there { OnOk result
        ((u : TermTree) →
        ((x : ℕ) → OccursInAny x (terms (map term_of all.now)) → Occurs x u) →
        Each (OnVariable (λ x. Occurs x u)) symbols.old →
        Each (OnVariable (λ x. Occurs x u)) symbols.new) }
    ensures arities { OnOk result
        ((theory : Theory) →
        AllWithinArity theory (terms (map term_of all.now)) → Each (OnOperation (IsWithinArity theory)) symbols.old →
        Each (OnOperation (IsWithinArity theory)) symbols.new) }
{
    match all {
        [] => Ok(()),
        [term, others @ ..] => {
            flatten_all(symbols, others)?;
            flatten(symbols, term)
        }
    }
}

// Takes the variables with which the symbols begin.
fn take_variables(alloc: Global, symbols: &mut Postfix) -> Result<Vec<u32>, AllocError>
    ensures same { IfOk result (λ first. (s : ℕ → TermTree) →
        map (λ x. put (s x)) first.items ++ map (task_by s) symbols.new ≡ map (task_by s) symbols.old) }
    ensures there { IfOk result (λ first. (u : TermTree) →
        Each (OnVariable (λ x. Occurs x u)) symbols.old →
        Each (λ x. Occurs x u) first.items × Each (OnVariable (λ x. Occurs x u)) symbols.new) }
    ensures arities { IfOk result (λ first. (theory : Theory) →
        Each (OnOperation (IsWithinArity theory)) symbols.old → Each (OnOperation (IsWithinArity theory)) symbols.new) }
{
    let mut first = Vec::new(alloc);
    for _turn in 0..u64::MAX {
        match symbols.pop() {
            None => return Ok(first),
            Some(Symbol::Variable(x)) => first.push(x)?,
            Some(Symbol::Operation(op, count)) => {
                symbols.push(Symbol::Operation(op, count))?;
                return Ok(first);
            }
        }
    }
    Ok(first)
}

// The right side of an equation in postfix order.
fn right_of(alloc: Global, algebra: &DataSpec, place: usize) -> Result<Right, AllocError>
    requires executable { IsExecutable (theory_of algebra.now) }
    requires there { place < length (theory_of algebra.now).equations }
    ensures right { IfOk result (IsRight (theory_of algebra.now)) }
{
    let mut rest = Postfix::new(alloc);
    flatten(&mut rest, &numbered(algebra, place).right)?;
    let first = take_variables(alloc, &mut rest)?;
    Ok(Right { place, first, rest })
}

// Takes back the note of an equation's operation, where the equation has a premise.
fn see_premises(algebra: &DataSpec, noted: &mut [bool], place: usize)
    requires executable { IsExecutable (theory_of algebra.now) }
    requires there { place < length (theory_of algebra.now).equations }
    ensures length { length noted.new ≡ length noted.old }
    ensures fewer { (f : ℕ) → IsNoted noted.new f → IsNoted noted.old f }
    ensures seen { (f : ℕ) →
        IsNoted noted.new f →
        Heads f (equation_at (theory_of algebra.now) place) → (equation_at (theory_of algebra.now) place).premises ≡ [] }
{
    if !numbered(algebra, place).premises.is_empty() {
        let (op, _) = head_of(algebra, place);
        let head = op.0 as usize;
        if head < noted.len() {
            noted[head] = false;
        }
    }
}

// Notes the operations none of whose equations has a premise.
fn unconditional_operations(alloc: Global, algebra: &DataSpec) -> Result<Vec<bool>, AllocError>
    requires executable { IsExecutable (theory_of algebra.now) }
    ensures unconditional { IfOk result (λ noted. AreUnconditional (theory_of algebra.now) noted.items) }
{
    let mut noted = Vec::from_elem(alloc, true, algebra.signature.ops.len())?;
    for place in 0..algebra.equations.len() {
        see_premises(algebra, &mut noted, place);
    }
    Ok(noted)
}

impl Forms {
    /// What is made of the equations of executable data.
    pub fn new(alloc: Global, algebra: &DataSpec) -> Result<Forms, Memory>
        requires executable { IsExecutable (theory_of algebra.now) }
        ensures forms { IfOk result (AreForms (theory_of algebra.now)) }
    {
        let heads = FirstEquations::new(alloc, algebra)?;
        let unconditional = unconditional_operations(alloc, algebra)?;
        let mut rights = Vec::new(alloc);
        for place in 0..algebra.equations.len() {
            rights.push(right_of(alloc, algebra, place)?)?;
        }
        Ok(Forms {
            heads,
            room: most_variables(algebra),
            unconditional,
            trees: Trees::new(alloc, algebra)?,
            rights,
        })
    }

    /// Whether it is noted of an operation that none of its equations has a premise. It takes no memory.
    pub fn is_unconditional(&self, op: Op) -> bool
        ensures yes { IsTrue result → (theory : Theory) → AreForms theory self.now → IsUnconditional theory op.0 }
    {
        let place = op.0 as usize;
        place < self.unconditional.len() && self.unconditional[place]
    }

    /// The right side of an equation. It takes no memory.
    pub fn right(&self, place: usize) -> Option<&Right>
        ensures { IfSome result (λ r.
            (r.now.place ≡ place) × ((theory : Theory) → AreForms theory self.now → IsRight theory r.now)) }
    {
        if place < self.rights.len() {
            let right = &self.rights[place];
            if right.place == place {
                return Some(right);
            }
        }
        None
    }
}
