// Which operations head the equations in which an operation stands.

ghost use Rattle.std.specs.Prelude.{ℕ, ◌≡◌, ◌<◌, ◌⊎◌, [], IfOk, OnOk, map, replicate, slice_index_or, vec_len};
ghost use Rattle.path_order.specs.Mentioning.{AreNoted, AreMentions, HeadIsBelow, MentionsAt, numbers_of};
ghost use Rattle.spec_core.specs.Lists.{Each};
ghost use Rattle.spec_core.specs.Order.{HasOperation, AnyHasOperation, PremisesHaveOperation};
ghost use Rattle.spec_core.specs.Terms.{term_of, terms};
ghost use Rattle.spec_core.specs.Theories.{Heads, theory_of, premise_of, equation_of};

use spec_core::equation::{DataSpec, Equation};
use spec_core::items::Op;
use spec_core::memory::Memory;
use spec_core::term::Term;
use std::alloc::Global;
use std::marker::Model;

/// A row for each operation, up to the last one that heads an equation: the operations that head an equation in which it stands. A
/// contract sees it as the list of these rows.
#[derive(Drop)]
pub struct Mentions {
    rows: Vec<Vec<u32>>,
}

impl Model for Mentions {
    ghost use Rattle.std.specs.Prelude.{ℕ, List, map};
    ghost use Rattle.path_order.specs.Mentioning.{numbers_of};

    ghost Value = { List (List ℕ) };

    ghost view = { λ m. map numbers_of m.rows.items };
}

// Puts an operation into a row.
fn push_into(rows: &mut Vec<Vec<u32>>, place: usize, head: u32) -> Result<(), Memory>
    requires there { place < vec_len rows.old }
    ensures { OnOk result (AreNoted (λ g h. (g ≡ place) × (h ≡ head)) (map numbers_of rows.old.items) (map numbers_of rows.new.items)) }
{
    rows[place].push(head)?;
    Ok(())
}

impl Mentions {
    // Empty rows.
    #[tactic(auto, using(crate::proofs::Noting::one_empty_more))]
    fn empty(alloc: Global, count: usize) -> Result<Mentions, Memory>
        ensures { IfOk result (λ mentions. mentions ≡ replicate count []) }
    {
        let mut rows = Vec::new(alloc);
        for _ in 0..count {
            rows.push(Vec::new(alloc))?;
        }
        Ok(Mentions { rows })
    }

    // Puts an operation into the row of another one, if that has a row.
    fn note(&mut self, op: Op, head: Op) -> Result<(), Memory>
        ensures { OnOk result (AreNoted (λ g h. (g ≡ op.0) × (h ≡ head.0)) self.old self.new) }
    {
        let place = op.0 as usize;
        if place < self.rows.len() {
            push_into(&mut self.rows, place, head.0)?;
        }
        Ok(())
    }

    // Puts an operation into the rows of those in a term.
    #[cycle(noting)]
    fn note_term(&mut self, term: &Term, head: Op) -> Result<(), Memory>
        ensures { OnOk result (AreNoted (λ g h. HasOperation g (term_of term.now) × (h ≡ head.0)) self.old self.new) }
    {
        match term {
            Term::Var(_) => Ok(()),
            Term::App(op, args) => {
                self.note(*op, head)?;
                self.note_terms(args, head)?;
                Ok(())
            }
        }
    }

    // Puts one into the rows of those in terms.
    #[cycle(noting)]
    fn note_terms(&mut self, all: &[Term], head: Op) -> Result<(), Memory>
        ensures { OnOk result (AreNoted (λ g h. AnyHasOperation g (terms (map term_of all.now)) × (h ≡ head.0)) self.old self.new) }
    {
        for term in all {
            self.note_term(term, head)?;
        }
        Ok(())
    }

    // Puts one into the rows of those in the two sides of a premise.
    fn note_premise(&mut self, premise: &(Term, Term), head: Op) -> Result<(), Memory>
        ensures { OnOk result (AreNoted (λ g h. (HasOperation g (term_of premise.now.0) ⊎ HasOperation g (term_of premise.now.1)) × (h ≡ head.0))
            self.old self.new) }
    {
        self.note_term(&premise.0, head)?;
        self.note_term(&premise.1, head)?;
        Ok(())
    }

    // Puts one into the rows of those in premises.
    fn note_premises(&mut self, premises: &[(Term, Term)], head: Op) -> Result<(), Memory>
        ensures { OnOk result (AreNoted (λ g h. PremisesHaveOperation g (map premise_of premises.now) × (h ≡ head.0)) self.old self.new) }
    {
        for premise in premises {
            self.note_premise(premise, head)?;
        }
        Ok(())
    }

    // Puts the operation that heads an equation, if one does, into the rows of those in it.
    fn note_equation(&mut self, equation: &Equation) -> Result<(), Memory>
        ensures { OnOk result (AreNoted (MentionsAt (equation_of equation.now)) self.old self.new) }
    {
        match &equation.left {
            Term::Var(_) => Ok(()),
            Term::App(op, _) => {
                self.note_term(&equation.left, *op)?;
                self.note_term(&equation.right, *op)?;
                self.note_premises(&equation.premises, *op)?;
                Ok(())
            }
        }
    }

    /// Of each operation, those that head an equation in which it stands.
    pub fn of(alloc: Global, algebra: &DataSpec) -> Result<Mentions, Memory>
        ensures { IfOk result (AreMentions (theory_of algebra.now)) }
    {
        let mut mentions = Mentions::empty(alloc, heads_bound(algebra))?;
        for equation in &algebra.equations {
            mentions.note_equation(equation)?;
        }
        Ok(mentions)
    }

    /// The operations that head an equation in which this one stands; none where it has no row. It takes no memory.
    pub fn row(&self, op: u32) -> &[u32]
        ensures { result.now ≡ slice_index_or self.now op [] }
    {
        let place = op as usize;
        if place < self.rows.len() {
            &self.rows[place]
        } else {
            &[]
        }
    }
}

// One more than the number of the operation that heads an equation; 0 where none does.
fn head_bound(equation: &Equation) -> usize
    ensures { (f : ℕ) → Heads f (equation_of equation.now) → f < result }
{
    match &equation.left {
        Term::Var(_) => 0,
        Term::App(op, _) => op.0 as usize + 1,
    }
}

// One more than the largest number of an operation that heads an equation.
fn heads_bound(algebra: &DataSpec) -> usize
    ensures { Each (HeadIsBelow result) (theory_of algebra.now).equations }
{
    let mut bound = 0;
    for equation in &algebra.equations {
        let needed = head_bound(equation);
        if bound < needed {
            bound = needed;
        }
    }
    bound
}
