// Constructs.

use lotos_ast::behaviour::{Binding, ExitValue, GateChoice, Offer, Operator};
use lotos_ast::declaration::Declaration;
use lotos_ast::expression::{Expr, Premiss};
use lotos_ast::place::Place;
use lotos_ast::token::Token;

/// A construct of behaviour over its parts. What it holds beside them is that of the syntax tree.
pub enum Construct<'a> {
    /// `stop`
    Stop,
    /// `exit` with these values.
    Exit {
        values: &'a [ExitValue],
    },
    /// `i` and what follows.
    Inner {
        rest: Box<Construct<'a>>,
    },
    /// An action at a gate and what follows.
    Act {
        gate: &'a Token,
        offers: &'a [Offer],
        predicate: Option<&'a Premiss>,
        rest: Box<Construct<'a>>,
    },
    /// A choice; the place is that of the `[]`.
    Choice {
        place: Place,
        left: Box<Construct<'a>>,
        right: Box<Construct<'a>>,
    },
    /// A behaviour under a condition.
    Guard {
        condition: &'a Premiss,
        inner: Box<Construct<'a>>,
    },
    /// A behaviour in which variables have values.
    Let {
        bindings: &'a [Binding],
        inner: Box<Construct<'a>>,
    },
    /// A behaviour for any values of variables.
    Values {
        declarations: &'a [Declaration],
        inner: Box<Construct<'a>>,
    },
    /// A behaviour at any of some gates.
    Gates {
        choices: &'a [GateChoice],
        inner: Box<Construct<'a>>,
    },
    /// Two behaviours beside each other; the place is that of the operator.
    Parallel {
        place: Place,
        operator: &'a Operator,
        left: Box<Construct<'a>>,
        right: Box<Construct<'a>>,
    },
    /// A behaviour whose actions at some gates can't be seen.
    Hide {
        gates: &'a [Token],
        inner: Box<Construct<'a>>,
    },
    /// A behaviour, and what follows when it ends; the place is that of the `>>`.
    Enable {
        place: Place,
        left: Box<Construct<'a>>,
        accepts: &'a [Declaration],
        right: Box<Construct<'a>>,
    },
    /// A behaviour, and one that may break into it; the place is that of the `[>`.
    Disable {
        place: Place,
        left: Box<Construct<'a>>,
        right: Box<Construct<'a>>,
    },
    /// A process with actual gates and values.
    Call {
        name: &'a Token,
        gates: &'a [Token],
        values: &'a [Expr],
    },
    /// Copies of a behaviour at several gates, beside one another.
    Par {
        gate: &'a Token,
        gates: &'a [Token],
        operator: &'a Operator,
        inner: Box<Construct<'a>>,
    },
}

// Constructs behind each other may be as many as constructs may be nested. They are let go one after another, but for what stands at the
// left of an operator.
impl Drop for Construct<'_> {
    fn drop(mut self) {
        loop {
            match self {
                Construct::Stop => return,
                Construct::Exit { values: _ } => return,
                Construct::Call {
                    name: _,
                    gates: _,
                    values: _,
                } => return,
                Construct::Inner { rest } => self = Box::into_inner(rest),
                Construct::Act {
                    gate: _,
                    offers: _,
                    predicate: _,
                    rest,
                } => self = Box::into_inner(rest),
                Construct::Guard {
                    condition: _,
                    inner,
                } => self = Box::into_inner(inner),
                Construct::Let { bindings: _, inner } => self = Box::into_inner(inner),
                Construct::Values {
                    declarations: _,
                    inner,
                } => self = Box::into_inner(inner),
                Construct::Gates { choices: _, inner } => self = Box::into_inner(inner),
                Construct::Hide { gates: _, inner } => self = Box::into_inner(inner),
                Construct::Par {
                    gate: _,
                    gates: _,
                    operator: _,
                    inner,
                } => self = Box::into_inner(inner),
                Construct::Choice {
                    place: _,
                    left: _,
                    right,
                } => self = Box::into_inner(right),
                Construct::Disable {
                    place: _,
                    left: _,
                    right,
                } => self = Box::into_inner(right),
                Construct::Parallel {
                    place: _,
                    operator: _,
                    left: _,
                    right,
                } => self = Box::into_inner(right),
                Construct::Enable {
                    place: _,
                    left: _,
                    accepts: _,
                    right,
                } => self = Box::into_inner(right),
            }
        }
    }
}
