// Expressions of declared sorts, and values with which a behaviour ends.

ghost use Rattle.std.specs.Prelude.{◌≡◌, ◌++◌, ◌∷◌, [], IfOk, OnOk, length, map, option_map};
ghost use Rattle.spec_core.specs.Numbers.{sort_number};
ghost use Rattle.spec_core.specs.Terms.{term_of};
ghost use Rattle.sort_overloads.specs.Judged.{Adds};
ghost use Rattle.static_readings.specs.Calls.{IsArgumentRead, IsValueRead, AreValuesRead};
ghost use Rattle.static_readings.specs.Offers.{IsExitValueRead, AreExitValuesRead};
ghost use Rattle.static_readings.specs.ReadsAll.{all_before};
ghost use Rattle.static_readings.specs.Views.{exit_value_at, sort_if_known};

use crate::site::Site;
use lotos_ast::behaviour::ExitValue;
use lotos_ast::expression::Expr;
use lotos_ast::refusal::Refusal;
use spec_core::code::ExitField;
use spec_core::items::Sort;
use spec_core::memory::Memory;
use spec_core::term::Term;
use std::alloc::Global;

#[tactic(auto, using(crate::proofs::Single::value_unsorted, crate::proofs::Single::value_unread, crate::proofs::Single::value_read))]
/// An expression of a sort; where the sort isn't known, the expression is asked for its unknown names alone.
pub fn value(
    alloc: Global,
    site: &Site<'_>,
    sort: Option<Sort>,
    expr: &Expr,
    refusals: &mut Vec<Refusal>,
) -> Result<Option<Term>, Memory>
    ensures { IfOk result (λ found. Adds (IsValueRead site.now (sort_if_known sort) expr.now (option_map term_of found))
        refusals.old.items refusals.new.items) }
{
    match sort {
        None => {
            site.add_unknowns(alloc, expr, refusals)?;
            Ok(None)
        }
        Some(sort) => match site.judge(alloc, expr, Some(sort), refusals)? {
            None => Ok(None),
            Some(found) => Ok(Some(found.term)),
        },
    }
}

// A value with which a behaviour ends, and its sort.
#[tactic(auto, using(crate::proofs::Single::exit_rows))]
fn exit_value(
    alloc: Global,
    site: &Site<'_>,
    from: &ExitValue,
    refusals: &mut Vec<Refusal>,
) -> Result<Option<(ExitField, Sort)>, Memory>
    ensures { IfOk result (λ found. Adds (IsExitValueRead site.now from.now (option_map exit_value_at found))
        refusals.old.items refusals.new.items) }
{
    match from {
        ExitValue::Any { place: _, sort } => {
            site.add_unknown_sort(alloc, sort, refusals)?;
            match site.sort(sort) {
                None => Ok(None),
                Some(number) => Ok(Some((ExitField::Any(number), number))),
            }
        }
        ExitValue::Value { place: _, value } => match site.judge(alloc, value, None, refusals)? {
            None => Ok(None),
            Some(found) => Ok(Some((ExitField::Give(found.term), found.sort))),
        },
    }
}

/// These and one more, where all are there.
pub fn with_one<T: Drop>(all: Option<Vec<T>>, one: Option<T>) -> Result<Option<Vec<T>>, Memory>
    ensures { IfOk result (λ found. option_map (λ v. v.items) found
        ≡ all_before (option_map (λ v. v.items) all) (option_map (λ x. x ∷ []) one)) }
{
    match (all, one) {
        (Some(mut all), Some(one)) => {
            all.push(one)?;
            Ok(Some(all))
        }
        _ => Ok(None),
    }
}

/// Values with which a behaviour ends, each with its sort.
pub fn exit_values(
    alloc: Global,
    site: &Site<'_>,
    from: &[ExitValue],
    refusals: &mut Vec<Refusal>,
) -> Result<Option<Vec<(ExitField, Sort)>>, Memory>
    ensures { IfOk result (λ found. Adds (AreExitValuesRead site.now from.now
        (option_map (map exit_value_at) (option_map (λ v. v.items) found)))
        refusals.old.items refusals.new.items) }
{
    let mut all = Some(Vec::new(alloc));
    for one in from {
        let found = exit_value(alloc, site, one, refusals)?;
        all = with_one(all, found)?;
    }
    Ok(all)
}

// An expression for a parameter; where the parameter's sort isn't known, each expression fits of which nothing is refused.
#[tactic(auto, using(crate::proofs::Single::argument_open, crate::proofs::Single::argument_hindered, crate::proofs::Single::argument_known))]
fn argument(
    alloc: Global,
    site: &Site<'_>,
    sort: Option<Sort>,
    expr: &Expr,
    refusals: &mut Vec<Refusal>,
) -> Result<Option<Term>, Memory>
    ensures { IfOk result (λ found. Adds (IsArgumentRead site.now (sort_if_known sort) expr.now (option_map term_of found))
        refusals.old.items refusals.new.items) }
{
    let before = refusals.len();
    let found = value(alloc, site, sort, expr, refusals)?;
    match sort {
        Some(_) => Ok(found),
        None => {
            if refusals.len() == before {
                Ok(Some(Term::Var(0)))
            } else {
                Ok(None)
            }
        }
    }
}

/// Expressions, each for a parameter of its sort.
pub fn values(
    alloc: Global,
    site: &Site<'_>,
    sorts: &[Option<Sort>],
    from: &[Expr],
    refusals: &mut Vec<Refusal>,
) -> Result<Option<Vec<Term>>, Memory>
    requires { length sorts.now ≡ length from.now }
    ensures { IfOk result (λ found. Adds (AreValuesRead site.now (map sort_if_known sorts.now) from.now
        (option_map (map term_of) (option_map (λ v. v.items) found))) refusals.old.items refusals.new.items) }
{
    let mut all = Some(Vec::new(alloc));
    for (i, expr) in from.iter().enumerate() {
        let found = argument(alloc, site, sorts[i], expr, refusals)?;
        all = with_one(all, found)?;
    }
    Ok(all)
}
