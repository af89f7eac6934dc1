// What the terms of a script may speak of.

ghost use Rattle.std.specs.Prelude.{◌≡◌, ◌<◌, ◌^◌, [], None, IfOk, length, vec_len};
ghost use Rattle.std.specs.List.{list_any};
ghost use Rattle.lotos_ast.specs.ExpressionTrees.{expr_tree};
ghost use Rattle.spec_core.specs.Terms.{TermTree, term_of};
ghost use Rattle.spec_core.specs.Theories.{theory_of, operations_of};
ghost use Rattle.sort_overloads.specs.Expressions.{expression};
ghost use Rattle.sort_overloads.specs.Indexes.{IsIndexOf};
ghost use Rattle.sort_overloads.specs.Overloads.{IsOnlyReading};
ghost use Rattle.sort_overloads.specs.Views.{context_of};
ghost use Rattle.script_text.specs.Answers.{IfKind};
ghost use Rattle.script_text.specs.Meanings.{context_in, first_named, is_of_sort, says_unknown_sort, IsUnclear};

use crate::fault::LineFault;
use crate::names::first_named;
use lotos_ast::expression::Expr;
use lotos_ast::refusal::{FrontFault, Refusal};
use lotos_ast::text_kind::TextKind;
use lotos_ast::token::Token;
use sort_overloads::name_index::NameIndex;
use sort_overloads::resolution::{TypedTerm, resolve_with_index};
use sort_overloads::scope::Scope;
use sort_overloads::unknowns::add_unknowns;
use sort_overloads::variables::Variables;
use spec_core::equation::DataSpec;
use spec_core::memory::Memory;
use std::alloc::Global;

// The sorts and operations of a specification, with an index of the operations.
#[derive(Drop)]
pub struct Vocabulary {
    // Without variables.
    pub scope: Scope,
    index: NameIndex,
    ghost few: { vec_len scope.signature.ops < 2 ^ 32 },
    ghost indexed: { IsIndexOf index (operations_of scope.signature) },
    ghost no_variables: { scope.vars ≡ [] },
}

// Whether a refusal is of a sort that isn't known.
fn is_of_sort(refusal: &Refusal) -> bool
    ensures { result ≡ is_of_sort refusal.now }
{
    refusal.number() == 8
}

// Whether one of the refusals is of a sort.
fn any_of_sort(refusals: &[Refusal]) -> bool
    ensures { result ≡ list_any is_of_sort refusals.now }
{
    refusals.iter().any(|refusal| is_of_sort(refusal))
}

impl Vocabulary {
    // What the terms over these data may speak of.
    pub fn new(alloc: Global, algebra: &DataSpec) -> Result<Vocabulary, Memory>
        requires few { length algebra.now.signature.ops.items < 2 ^ 32 }
        ensures context { IfOk result (λ v. context_of v.scope ≡ context_in (theory_of algebra.now)) }
    {
        let signature = algebra.signature.copy(alloc)?;
        let index = NameIndex::new(alloc, &signature.ops)?;
        let scope = Scope {
            signature,
            vars: Variables::new(alloc),
        };
        Ok(Vocabulary { scope, index })
    }

    // The number of the sort of this name.
    pub fn sort(&self, name: &Token) -> Result<Option<u32>, Memory>
        ensures { IfOk result (λ found. found ≡ first_named name.now.text (context_of self.now.scope).sorts) }
    {
        first_named(name.text.as_str(), &self.scope.signature.sorts)
    }

    // Whether an expression says of a term that it is of an unknown sort.
    pub fn says_unknown_sort(&self, alloc: Global, expr: &Expr) -> Result<bool, Memory>
        ensures { IfOk result (λ found.
            found ≡ says_unknown_sort (context_of self.now.scope) (expression (expr_tree expr.now))) }
    {
        let mut refusals = Vec::new(alloc);
        add_unknowns(alloc, &self.scope, &self.index, expr, &mut refusals)?;
        Ok(any_of_sort(&refusals))
    }

    // The one reading of an expression.
    #[tactic(auto, using(crate::proofs::OneReadings::refused_unclear))]
    pub fn term(&self, alloc: Global, expr: &Expr) -> Result<TypedTerm, LineFault>
        ensures read { IfOk result (λ t.
            IsOnlyReading (context_of self.now.scope) (expression (expr_tree expr.now)) None (term_of t.term) t.sort.0) }
        ensures unclear { IfKind result (λ kind. IsUnclear (context_of self.now.scope) (expression (expr_tree expr.now))) }
        ensures term { IfKind result (λ kind. kind ≡ TextKind.Term) }
    {
        match resolve_with_index(alloc, expr, &self.scope, &self.index, None) {
            Ok(found) => Ok(found),
            Err(FrontFault::Refused(_)) => Err(LineFault::Kind(TextKind::Term)),
            Err(FrontFault::Memory) => Err(LineFault::Memory),
        }
    }
}
