// The one reading of an expression.

ghost use Rattle.std.specs.Prelude.{◌≡◌, ◌<◌, ◌^◌, ◌∷◌, [], ℕ, IfOk, map, vec_len, slice_index_or};
ghost use Rattle.lotos_ast.specs.ExpressionTrees.{expr_tree};
ghost use Rattle.lotos_ast.specs.ListTrees.{tree_place};
ghost use Rattle.lotos_ast.specs.declared.refusal.FrontFault.TheVariants.{Refused};
ghost use Rattle.lotos_ast.specs.declared.refusal.RefusalKind.TheVariants.{NoReading, Ambiguous};
ghost use Rattle.lotos_ast.specs.Refusals.{IfRefused, OnRefusal};
ghost use Rattle.spec_core.specs.Terms.{term_of};
ghost use Rattle.spec_core.specs.Theories.{operations_of};
ghost use Rattle.sort_overloads.specs.Expressions.{expression};
ghost use Rattle.sort_overloads.specs.Indexes.{IsIndexOf};
ghost use Rattle.sort_overloads.specs.Overloads.{IsOnlyReading};
ghost use Rattle.sort_overloads.specs.Picks.{IsOneReading, IsPickRefusal};
ghost use Rattle.sort_overloads.specs.Refused.{unknowns, refused, text_in, IsOverloadRefusal, IsExpressionRefusal};
ghost use Rattle.sort_overloads.specs.Tables.{table_of, no_reading_there, IsWantedAs};
ghost use Rattle.sort_overloads.specs.Views.{context_of};

use crate::name_index::NameIndex;
use crate::readings::expression_readings;
use crate::scope::Scope;
use crate::selection::{Wanted, selected};
use crate::table::Table;
use crate::unknowns::add_unknowns;
use crate::variables::Variable;
use lotos_ast::expression::Expr;
use lotos_ast::first_refusal::first_refusal;
use lotos_ast::names::Names;
use lotos_ast::place::Place;
use lotos_ast::refusal::{FrontFault, Refusal, RefusalKind};
use spec_core::items::Sort;
use spec_core::memory::Memory;
use spec_core::name::Name;
use spec_core::term::Term;
use spec_core::term_text::term_text;
use std::alloc::Global;

/// A term with its sort.
#[derive(Drop)]
pub struct TypedTerm {
    /// The term.
    pub term: Term,
    /// Its sort.
    pub sort: Sort,
}

/// The one reading of an expression, of the wanted sort if there is one. Of the names and sorts that aren't known the first is refused
/// (8 UnknownSort, 12 UnknownName); where all are known, that there is no reading (13 NoReading) or more than one (14 Ambiguous).
pub fn resolve(
    alloc: Global,
    expr: &Expr,
    scope: &Scope,
    wanted: Option<Sort>,
) -> Result<Term, FrontFault>
    requires few { vec_len scope.now.signature.ops < 2 ^ 32 }
    ensures known { IfOk result (λ t. unknowns (context_of scope.now) (expression (expr_tree expr.now)) ≡ []) }
    ensures read { IfOk result (λ t.
        (sort : ℕ) × IsOnlyReading (context_of scope.now) (expression (expr_tree expr.now)) wanted (term_of t) sort) }
    ensures refused { IfRefused result (λ r.
        IsExpressionRefusal (context_of scope.now) (expression (expr_tree expr.now)) wanted (tree_place (expr_tree expr.now)) r) }
{
    match resolve_with_sort(alloc, expr, scope, wanted) {
        Ok(resolved) => Ok(resolved.term),
        Err(fault) => Err(fault),
    }
}

/// The same, with the sort of the reading.
pub fn resolve_with_sort(
    alloc: Global,
    expr: &Expr,
    scope: &Scope,
    wanted: Option<Sort>,
) -> Result<TypedTerm, FrontFault>
    requires few { vec_len scope.now.signature.ops < 2 ^ 32 }
    ensures known { IfOk result (λ t. unknowns (context_of scope.now) (expression (expr_tree expr.now)) ≡ []) }
    ensures read { IfOk result (λ t.
        IsOnlyReading (context_of scope.now) (expression (expr_tree expr.now)) wanted (term_of t.term) t.sort.0) }
    ensures refused { IfRefused result (λ r.
        IsExpressionRefusal (context_of scope.now) (expression (expr_tree expr.now)) wanted (tree_place (expr_tree expr.now)) r) }
{
    let index = NameIndex::new(alloc, &scope.signature.ops)?;
    resolve_with_index(alloc, expr, scope, &index, wanted)
}

/// The same, with an index of the operations that the caller keeps, for many expressions over one signature.
pub fn resolve_with_index(
    alloc: Global,
    expr: &Expr,
    scope: &Scope,
    index: &NameIndex,
    wanted: Option<Sort>,
) -> Result<TypedTerm, FrontFault>
    requires few { vec_len scope.now.signature.ops < 2 ^ 32 }
    requires index { IsIndexOf index.now (operations_of scope.now.signature) }
    ensures known { IfOk result (λ t. unknowns (context_of scope.now) (expression (expr_tree expr.now)) ≡ []) }
    ensures read { IfOk result (λ t.
        IsOnlyReading (context_of scope.now) (expression (expr_tree expr.now)) wanted (term_of t.term) t.sort.0) }
    ensures refused { IfRefused result (λ r.
        IsExpressionRefusal (context_of scope.now) (expression (expr_tree expr.now)) wanted (tree_place (expr_tree expr.now)) r) }
{
    let mut refusals = Vec::new(alloc);
    add_unknowns(alloc, scope, index, expr, &mut refusals)?;
    match first_refusal(refusals) {
        Some(refusal) => Err(FrontFault::Refused(refusal)),
        None => resolve_known(alloc, expr, scope, index, wanted),
    }
}

/// The one reading of an expression whose names are known, of the wanted sort if there is one.
pub fn resolve_known(
    alloc: Global,
    expr: &Expr,
    scope: &Scope,
    index: &NameIndex,
    wanted: Option<Sort>,
) -> Result<TypedTerm, FrontFault>
    requires few { vec_len scope.now.signature.ops < 2 ^ 32 }
    requires index { IsIndexOf index.now (operations_of scope.now.signature) }
    ensures read { IfOk result (λ t.
        IsOnlyReading (context_of scope.now) (expression (expr_tree expr.now)) wanted (term_of t.term) t.sort.0) }
    ensures refused { IfRefused result (λ r.
        IsOverloadRefusal (context_of scope.now) (expression (expr_tree expr.now)) wanted (tree_place (expr_tree expr.now)) r) }
{
    let all = expression_readings(alloc, scope, index, expr)?;
    let fitting = selected(alloc, &wanted_of(wanted), all)?;
    only_reading(alloc, scope, expr.place, &fitting)
}

// Which sorts are wanted.
fn wanted_of(wanted: Option<Sort>) -> Wanted<'static>
    ensures { IsWantedAs wanted result }
{
    match wanted {
        None => Wanted::Any,
        Some(sort) => Wanted::Just(sort),
    }
}

// The only reading of a table, or the refusal.
fn only_reading(
    alloc: Global,
    scope: &Scope,
    place: Place,
    table: &Table,
) -> Result<TypedTerm, FrontFault>
    ensures one { IfOk result (λ t. IsOneReading (table_of table.now) (term_of t.term) t.sort.0) }
    ensures refused { IfRefused result (IsPickRefusal (context_of scope.now) place (table_of table.now)) }
{
    match table.readings() {
        [] => Err(no_reading(alloc, place)),
        [only] => first_reading(alloc, table, only.sort),
        [_, _, ..] => Err(ambiguous(alloc, scope, place, table)),
    }
}

// The first reading, which is of this sort.
fn first_reading(alloc: Global, table: &Table, sort: Sort) -> Result<TypedTerm, FrontFault>
    ensures one { IfOk result (λ t.
        (term_of t.term ≡ (slice_index_or (table_of table.now) 0 no_reading_there).term) × (t.sort ≡ sort)) }
    ensures refused { IfRefused result (λ _. ⊥) }
{
    let term = table.term(alloc, 0)?;
    Ok(TypedTerm { term, sort })
}

// The refusal of what has no reading.
fn no_reading(alloc: Global, place: Place) -> FrontFault
    ensures { result ≡ Refused (refused NoReading place []) }
{
    FrontFault::Refused(Refusal {
        kind: RefusalKind::NoReading,
        place,
        names: Names::none(alloc),
    })
}

// The refusal of what has more than one reading.
fn ambiguous(alloc: Global, scope: &Scope, place: Place, table: &Table) -> FrontFault
    ensures { OnRefusal result (λ r. r ≡ refused Ambiguous place
        (text_in (context_of scope.now) (slice_index_or (table_of table.now) 0 no_reading_there).term
        ∷ text_in (context_of scope.now) (slice_index_or (table_of table.now) 1 no_reading_there).term ∷ [])) }
{
    match two_texts(alloc, scope, table) {
        Ok(names) => FrontFault::Refused(Refusal {
            kind: RefusalKind::Ambiguous,
            place,
            names,
        }),
        Err(Memory) => FrontFault::Memory,
    }
}

// The first two readings as texts.
fn two_texts(alloc: Global, scope: &Scope, table: &Table) -> Result<Names, Memory>
    ensures { IfOk result (λ names. names
        ≡ text_in (context_of scope.now) (slice_index_or (table_of table.now) 0 no_reading_there).term
        ∷ text_in (context_of scope.now) (slice_index_or (table_of table.now) 1 no_reading_there).term ∷ []) }
{
    let one = reading_text(alloc, scope, table, 0)?;
    let other = reading_text(alloc, scope, table, 1)?;
    Ok(Names::new(vec![in alloc; one, other]?))
}

// A reading as text.
fn reading_text(alloc: Global, scope: &Scope, table: &Table, number: usize) -> Result<Name, Memory>
    ensures { IfOk result (λ text. text
        ≡ text_in (context_of scope.now) (slice_index_or (table_of table.now) number no_reading_there).term) }
{
    let term = table.term(alloc, number)?;
    let names = variable_names(alloc, scope.vars.as_slice())?;
    Ok(Name::new(term_text(alloc, &scope.signature, &term, &names)?))
}

// The names of variables, in the same order.
fn variable_names(alloc: Global, variables: &[Variable]) -> Result<Vec<Name>, Memory>
    ensures { IfOk result (λ names. names.items ≡ map (λ v. v.name) variables.now) }
{
    let mut names = Vec::new(alloc);
    for variable in variables {
        names.push(variable.name.copy(alloc)?)?;
    }
    Ok(names)
}
