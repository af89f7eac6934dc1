// What is left to do.

ghost use Rattle.std.specs.Prelude.{ℕ, ◌≡◌, ◌<◌, ◌∷◌, [], List, IfOk, OnOk, MatchOption, length, map};
ghost use Rattle.spec_core.specs.Lists.{Each};
ghost use Rattle.spec_core.specs.Terms.{Occurs, OccursInAny, terms, term_of};
ghost use Rattle.spec_core.specs.Theories.{Theory};
ghost use Rattle.value_nodes.specs.declared.node.Node.{Node};
ghost use Rattle.value_nodes.specs.Copies.{AreCopies};
ghost use Rattle.value_nodes.specs.Nodes.{IsNode, IsLonger};
ghost use Rattle.rewriter.specs.Machine.{plan, plan_all};
ghost use Rattle.rewriter.specs.Steps.{task_of, put_by, bound_at, IsStep, IsHeld, AreWithinArity, AllWithinArity};

use spec_core::items::Op;
use spec_core::memory::Memory;
use spec_core::term::Term;
use std::alloc::{AllocError, Global};
use std::marker::Model;
use value_nodes::copies::Copies;
use value_nodes::node::Nodes;

/// A step of an evaluation.
#[derive(Clone, Copy)]
pub enum Step {
    /// A value, by its node.
    Put(u32),
    /// An operation over so many values.
    Call(Op, usize),
    /// Two values are those of the sides of a premise of this equation; the premises from this one on come next, in a call that began after
    /// so many uses.
    Decide(u32, usize, u64),
}

/// The steps that are left. A contract sees them as a list, the next one first.
#[derive(Drop)]
pub struct Todo {
    steps: Vec<Step>,
}

impl Model for Todo {
    ghost use Rattle.std.specs.Prelude.{List, reverse};
    ghost use Rattle.rewriter.specs.declared.step.Step.{Step};

    ghost Value = { List Step };

    ghost view = { λ t. reverse t.steps.items };
}

impl Todo {
    /// No steps.
    pub fn new(alloc: Global) -> Todo
        ensures none { result ≡ [] }
    {
        Todo {
            steps: Vec::new(alloc),
        }
    }

    /// One more step, which is the next.
    pub fn push(&mut self, step: Step) -> Result<(), AllocError>
        ensures pushed { OnOk result (self.new ≡ step ∷ self.old) }
    {
        self.steps.push(step)?;
        Ok(())
    }

    /// Takes the next step.
    pub fn pop(&mut self) -> Option<Step>
        ensures popped { MatchOption result ((self.old ≡ []) × (self.new ≡ [])) (λ s. self.old ≡ s ∷ self.new) }
    {
        self.steps.pop()
    }

    /// Has the copies of nodes in another table in place of the nodes.
    pub fn follow(
        &mut self,
        alloc: Global,
        from: &Nodes,
        into: &mut Nodes,
        copies: &mut Copies,
    ) -> Result<(), Memory>
        requires copies { AreCopies from.now into.old copies.old }
        requires held { Each (IsHeld from.now) self.old }
        ensures copies { OnOk result (AreCopies from.now into.new copies.new) }
        ensures longer { OnOk result (IsLonger into.old into.new) }
        ensures steps { OnOk result
            ((theory : Theory) → Each (IsStep theory from.now) self.old → Each (IsStep theory into.new) self.new) }
        ensures same { OnOk result
            ((theory : Theory) → map (task_of theory into.new) self.new ≡ map (task_of theory from.now) self.old) }
    {
        let mut steps = Vec::new(alloc);
        for step in &self.steps {
            let followed = follow_step(alloc, from, into, copies, *step)?;
            steps.push(followed)?;
        }
        self.steps = steps;
        Ok(())
    }
}

// The step with the copy of its node, where it has one.
fn follow_step(
    alloc: Global,
    from: &Nodes,
    into: &mut Nodes,
    copies: &mut Copies,
    step: Step,
) -> Result<Step, Memory>
    requires copies { AreCopies from.now into.old copies.old }
    requires held { IsHeld from.now step }
    ensures copies { IfOk result (λ s. AreCopies from.now into.new copies.new) }
    ensures longer { IfOk result (λ s. IsLonger into.old into.new) }
    ensures held { IfOk result (λ s. IsHeld into.new s) }
    ensures step { IfOk result (λ s. (theory : Theory) → IsStep theory from.now step → IsStep theory into.new s) }
    ensures same { IfOk result (λ s. (theory : Theory) → task_of theory into.new s ≡ task_of theory from.now step) }
{
    match step {
        Step::Put(node) => {
            let copy = copies.copy(alloc, from, into, node)?;
            Ok(Step::Put(copy))
        }
        Step::Call(op, count) => Ok(Step::Call(op, count)),
        Step::Decide(place, next, start) => Ok(Step::Decide(place, next, start)),
    }
}

/// Puts the steps that evaluate a term under what its variables stand for before those that are left. It recurs as deep as the term
/// nests.
#[cycle(planning)]
pub fn push_instance(todo: &mut Todo, bound: &[u32], term: &Term) -> Result<(), AllocError>
    requires room { (x : ℕ) → Occurs x (term_of term.now) → x < length bound.now }
    ensures planned { OnOk result
        ((theory : Theory) (rows : List Node) →
        map (task_of theory rows) todo.new ≡
        plan (put_by rows bound.now) (term_of term.now) (map (task_of theory rows) todo.old)) }
    ensures steps { OnOk result
        ((theory : Theory) (rows : List Node) →
        AreWithinArity theory (term_of term.now) →
        ((x : ℕ) → Occurs x (term_of term.now) → IsNode rows (bound_at bound.now x)) →
        Each (IsStep theory rows) todo.old →
        Each (IsStep theory rows) todo.new) }
{
    match term {
        Term::Var(x) => todo.push(Step::Put(bound[*x as usize])),
        Term::App(op, args) => {
            todo.push(Step::Call(*op, args.len()))?;
            push_instances(todo, bound, args)
        }
    }
}

// The steps that evaluate terms, the first one first.
#[cycle(planning)]
fn push_instances(todo: &mut Todo, bound: &[u32], all: &[Term]) -> Result<(), AllocError>
    requires room { (x : ℕ) → OccursInAny x (terms (map term_of all.now)) → x < length bound.now }
    ensures planned { OnOk result
        ((theory : Theory) (rows : List Node) →
        map (task_of theory rows) todo.new ≡
        plan_all (put_by rows bound.now) (terms (map term_of all.now)) (map (task_of theory rows) todo.old)) }
    ensures steps { OnOk result
        ((theory : Theory) (rows : List Node) →
        AllWithinArity theory (terms (map term_of all.now)) →
        ((x : ℕ) → OccursInAny x (terms (map term_of all.now)) → IsNode rows (bound_at bound.now x)) →
        Each (IsStep theory rows) todo.old →
        Each (IsStep theory rows) todo.new) }
{
    match all {
        [] => Ok(()),
        [term, others @ ..] => {
            push_instances(todo, bound, others)?;
            push_instance(todo, bound, term)
        }
    }
}
