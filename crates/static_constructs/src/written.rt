// The construct that a part of a syntax tree is.

ghost use Rattle.std.specs.Prelude.{◌≡◌, IfOk, option_map};
ghost use Rattle.static_constructs.specs.Views.{construct_of};
ghost use Rattle.static_constructs.specs.Written.{listed, gates_in, declarations_in, action_written};
ghost use Rattle.static_constructs.specs.Written.{behaviour_written, disable_written, parallel_written};
ghost use Rattle.static_constructs.specs.Written.{choice_written, unary_written, atom_written};

use crate::construct::Construct;
use lotos_ast::behaviour::{Action, Atom, Behaviour, Choice, Disable, Parallel, Unary};
use lotos_ast::declaration::{Declaration, Declarations, GateList};
use lotos_ast::token::Token;
use spec_core::memory::Memory;
use std::alloc::Global;

// The parts of a list that may be left out.
fn listed<T>(all: &Option<Vec<T>>) -> &[T]
    ensures { result.now ≡ listed all.now }
{
    match all {
        None => &[],
        Some(all) => all,
    }
}

fn gates_in(list: &Option<GateList>) -> &[Token]
    ensures { result.now ≡ gates_in list.now }
{
    match list {
        None => &[],
        Some(list) => &list.gates,
    }
}

fn declarations_in(declarations: &Option<Declarations>) -> &[Declaration]
    ensures { result.now ≡ declarations_in declarations.now }
{
    match declarations {
        None => &[],
        Some(declarations) => &declarations.list,
    }
}

// An action and what follows it.
fn action<'a>(
    alloc: Global,
    action: &'a Action,
    rest: Construct<'a>,
) -> Result<Construct<'a>, Memory>
    ensures { IfOk result (λ c. construct_of c ≡ action_written action.now (construct_of rest.entry)) }
{
    let rest = Box::new(alloc, rest)?;
    Ok(match action {
        Action::Internal { place: _ } => Construct::Inner { rest },
        Action::Plain { place: _, gate } => Construct::Act {
            gate,
            offers: &[],
            predicate: None,
            rest,
        },
        Action::Offering {
            place: _,
            gate,
            offers,
            predicate,
        } => Construct::Act {
            gate,
            offers,
            predicate: predicate.as_ref(),
            rest,
        },
    })
}

/// The construct that a behaviour is.
#[cycle(behaviours)]
pub fn behaviour<'a>(alloc: Global, from: &'a Behaviour) -> Result<Construct<'a>, Memory>
    ensures { IfOk result (λ c. construct_of c ≡ behaviour_written from.now) }
{
    let first = disable(alloc, &from.first)?;
    match &from.rest {
        None => Ok(first),
        Some(enabling) => Ok(Construct::Enable {
            place: enabling.place,
            left: Box::new(alloc, first)?,
            accepts: declarations_in(&enabling.accepts),
            right: Box::new(alloc, behaviour(alloc, &enabling.right)?)?,
        }),
    }
}

#[cycle(behaviours)]
fn disable<'a>(alloc: Global, from: &'a Disable) -> Result<Construct<'a>, Memory>
    ensures { IfOk result (λ c. construct_of c ≡ disable_written from.now) }
{
    let first = parallel(alloc, &from.first)?;
    match &from.rest {
        None => Ok(first),
        Some(disabling) => Ok(Construct::Disable {
            place: disabling.place,
            left: Box::new(alloc, first)?,
            right: Box::new(alloc, disable(alloc, &disabling.right)?)?,
        }),
    }
}

#[cycle(behaviours)]
fn parallel<'a>(alloc: Global, from: &'a Parallel) -> Result<Construct<'a>, Memory>
    ensures { IfOk result (λ c. construct_of c ≡ parallel_written from.now) }
{
    let first = choice(alloc, &from.first)?;
    match &from.rest {
        None => Ok(first),
        Some(composing) => Ok(Construct::Parallel {
            place: composing.place,
            operator: &composing.operator,
            left: Box::new(alloc, first)?,
            right: Box::new(alloc, parallel(alloc, &composing.right)?)?,
        }),
    }
}

#[cycle(behaviours)]
fn choice<'a>(alloc: Global, from: &'a Choice) -> Result<Construct<'a>, Memory>
    ensures { IfOk result (λ c. construct_of c ≡ choice_written from.now) }
{
    let first = unary(alloc, &from.first)?;
    match &from.rest {
        None => Ok(first),
        Some(choosing) => Ok(Construct::Choice {
            place: choosing.place,
            left: Box::new(alloc, first)?,
            right: Box::new(alloc, choice(alloc, &choosing.right)?)?,
        }),
    }
}

#[cycle(behaviours)]
fn unary<'a>(alloc: Global, from: &'a Unary) -> Result<Construct<'a>, Memory>
    ensures { IfOk result (λ c. construct_of c ≡ unary_written from.now) }
{
    match from {
        Unary::Guarded {
            place: _,
            guard,
            rest,
        } => Ok(Construct::Guard {
            condition: guard,
            inner: Box::new(alloc, unary(alloc, rest)?)?,
        }),
        Unary::Prefixed {
            place: _,
            action: prefix,
            rest,
        } => {
            let rest = unary(alloc, rest)?;
            action(alloc, prefix, rest)
        }
        Unary::Atomic(inner) => atom(alloc, inner),
    }
}

#[cycle(behaviours)]
fn atom<'a>(alloc: Global, from: &'a Atom) -> Result<Construct<'a>, Memory>
    ensures { IfOk result (λ c. construct_of c ≡ atom_written from.now) }
{
    match from {
        Atom::Stop { place: _ } => Ok(Construct::Stop),
        Atom::Exit { place: _, values } => Ok(Construct::Exit {
            values: listed(values),
        }),
        Atom::Call {
            place: _,
            name,
            gates,
            values,
        } => Ok(Construct::Call {
            name,
            gates: gates_in(gates),
            values: listed(values),
        }),
        Atom::Group { place: _, inner } => behaviour(alloc, inner),
        Atom::Hide {
            place: _,
            gates,
            inner,
        } => Ok(Construct::Hide {
            gates,
            inner: Box::new(alloc, behaviour(alloc, inner)?)?,
        }),
        Atom::Let {
            place: _,
            bindings,
            inner,
        } => Ok(Construct::Let {
            bindings,
            inner: Box::new(alloc, behaviour(alloc, inner)?)?,
        }),
        Atom::ChoiceOfValues {
            place: _,
            declarations,
            brackets: _,
            inner,
        } => Ok(Construct::Values {
            declarations: &declarations.list,
            inner: Box::new(alloc, behaviour(alloc, inner)?)?,
        }),
        Atom::ChoiceOfGates {
            place: _,
            choices,
            brackets: _,
            inner,
        } => Ok(Construct::Gates {
            choices,
            inner: Box::new(alloc, behaviour(alloc, inner)?)?,
        }),
        Atom::Par {
            place: _,
            gate,
            gates,
            operator,
            inner,
        } => Ok(Construct::Par {
            gate,
            gates: &gates.gates,
            operator,
            inner: Box::new(alloc, behaviour(alloc, inner)?)?,
        }),
    }
}
