// Behaviours. Each level of operators is a type; operators of one level group to the right (profile).

ghost use Rattle.std.specs.Prelude.{◌≡◌, IfOk, map};
ghost use Rattle.lotos_ast.specs.Reads.{unkept, leaf, both, left, right, node};
ghost use Rattle.lotos_ast.specs.ListTrees.{list_tree, token_list_tree, behind, between};
ghost use Rattle.lotos_ast.specs.ExpressionTrees.{values_tree};
ghost use Rattle.lotos_ast.specs.DeclarationTrees.{gate_list_tree, optional_gates_tree};
ghost use Rattle.lotos_ast.specs.BehaviourTrees.{behaviour_tree, enabling_tree, disable_tree, disabling_tree};
ghost use Rattle.lotos_ast.specs.BehaviourTrees.{parallel_tree, composing_tree, choice_tree, choosing_tree, unary_tree};
ghost use Rattle.lotos_ast.specs.BehaviourTrees.{atom_tree, enabling_rest_tree, disabling_rest_tree};
ghost use Rattle.lotos_ast.specs.BehaviourTrees.{composing_rest_tree, choosing_rest_tree, operator_tree};
ghost use Rattle.lotos_ast.specs.BehaviourTrees.{predicate_tree, action_tree, exit_values_tree, binding_tree};
ghost use Rattle.lotos_ast.specs.BehaviourTrees.{brackets_tree, choice_declarations_tree, choice_gates_tree};
ghost use Rattle.lotos_ast.specs.BehaviourTrees.{atomic_tree, accepts_tree};

use crate::declaration::{Declarations, GateList};
use crate::expression::{Expr, Premiss};
use crate::place::Place;
use crate::token::Token;
use spec_core::memory::Memory;
use std::alloc::Global;

/// A behaviour, and what follows it when it ends.
#[cycle(behaviour)]
pub struct Behaviour {
    /// The place of its first token.
    pub place: Place,
    /// The first behaviour.
    pub first: Disable,
    /// What follows it.
    pub rest: Option<Enabling>,
}

/// `>>` and the behaviour behind it.
#[derive(Drop)]
#[cycle(behaviour)]
pub struct Enabling {
    /// The place of the `>>`.
    pub place: Place,
    /// The variables that take the values with which the first behaviour ends.
    pub accepts: Option<Declarations>,
    /// The behaviour that follows.
    pub right: Box<Behaviour>,
}

/// A behaviour, and one that may break into it.
#[cycle(behaviour)]
pub struct Disable {
    /// The place of its first token.
    pub place: Place,
    /// The first behaviour.
    pub first: Parallel,
    /// What may break into it.
    pub rest: Option<Disabling>,
}

/// `[>` and the behaviour behind it.
#[derive(Drop)]
#[cycle(behaviour)]
pub struct Disabling {
    /// The place of the `[>`.
    pub place: Place,
    /// The behaviour that may break in.
    pub right: Box<Disable>,
}

/// A behaviour, and one beside it.
#[cycle(behaviour)]
pub struct Parallel {
    /// The place of its first token.
    pub place: Place,
    /// The first behaviour.
    pub first: Choice,
    /// What stands beside it.
    pub rest: Option<Composing>,
}

/// A parallel operator and the behaviour behind it.
#[derive(Drop)]
#[cycle(behaviour)]
pub struct Composing {
    /// The place of the operator.
    pub place: Place,
    /// The operator.
    pub operator: Operator,
    /// The behaviour behind it.
    pub right: Box<Parallel>,
}

/// A parallel operator.
#[derive(Drop)]
pub enum Operator {
    /// `|||`: no gate is shared.
    Interleave {
        /// The place of its token.
        place: Place,
    },
    /// `||`: every gate is shared.
    Synchronise {
        /// The place of its token.
        place: Place,
    },
    /// `|[ .. ]|`: these gates are shared.
    Shared {
        /// The place of its first token.
        place: Place,
        /// The gates, at least one.
        gates: Vec<Token>,
    },
}

/// A behaviour, or another one.
#[cycle(behaviour)]
pub struct Choice {
    /// The place of its first token.
    pub place: Place,
    /// The first behaviour.
    pub first: Unary,
    /// The other one.
    pub rest: Option<Choosing>,
}

/// `[]` and the behaviour behind it.
#[derive(Drop)]
#[cycle(behaviour)]
pub struct Choosing {
    /// The place of the `[]`.
    pub place: Place,
    /// The behaviour behind it.
    pub right: Box<Choice>,
}

/// A behaviour without an operator between two parts.
#[cycle(behaviour)]
pub enum Unary {
    /// A behaviour under a condition.
    Guarded {
        /// The place of its first token.
        place: Place,
        /// The condition.
        guard: Premiss,
        /// The behaviour.
        rest: Box<Unary>,
    },
    /// An action and what follows it.
    Prefixed {
        /// The place of its first token.
        place: Place,
        /// The action.
        action: Action,
        /// The behaviour that follows.
        rest: Box<Unary>,
    },
    /// A behaviour that begins with a word of its own; its place is that of the atom.
    Atomic(Atom),
}

/// An action.
#[derive(Drop)]
pub enum Action {
    /// `i`
    Internal {
        /// The place of its token.
        place: Place,
    },
    /// An action at a gate, without values.
    Plain {
        /// The place of its token.
        place: Place,
        /// The gate.
        gate: Token,
    },
    /// An action at a gate, with values.
    Offering {
        /// The place of its first token.
        place: Place,
        /// The gate.
        gate: Token,
        /// The values, at least one.
        offers: Vec<Offer>,
        /// What has to hold of them.
        predicate: Option<Premiss>,
    },
}

/// Values that an action offers.
#[derive(Drop)]
pub enum Offer {
    /// The value of an expression.
    Value {
        /// The place of its first token.
        place: Place,
        /// The expression.
        value: Expr,
    },
    /// Any values of a sort, which variables take.
    Variables {
        /// The place of its first token.
        place: Place,
        /// The variables, at least one.
        names: Vec<Token>,
        /// Their sort.
        sort: Token,
    },
}

/// A behaviour that is no guard and begins with no action.
#[derive(Drop)]
#[cycle(behaviour)]
pub enum Atom {
    /// `stop`
    Stop {
        /// The place of its token.
        place: Place,
    },
    /// The end, with values.
    Exit {
        /// The place of its first token.
        place: Place,
        /// The values, where there are parentheses; at least one.
        values: Option<Vec<ExitValue>>,
    },
    /// A process with actual gates and values.
    Call {
        /// The place of its first token.
        place: Place,
        /// The process.
        name: Token,
        /// The gates.
        gates: Option<GateList>,
        /// The values, where there are parentheses; at least one.
        values: Option<Vec<Expr>>,
    },
    /// A behaviour in parentheses.
    Group {
        /// The place of the parenthesis.
        place: Place,
        /// The behaviour.
        inner: Box<Behaviour>,
    },
    /// A behaviour whose actions at some gates can't be seen.
    Hide {
        /// The place of its first token.
        place: Place,
        /// The gates, at least one.
        gates: Vec<Token>,
        /// The behaviour.
        inner: Box<Behaviour>,
    },
    /// A behaviour in which variables have values.
    Let {
        /// The place of its first token.
        place: Place,
        /// The variables with their values, at least one.
        bindings: Vec<Binding>,
        /// The behaviour.
        inner: Box<Behaviour>,
    },
    /// A behaviour for any values of variables.
    ChoiceOfValues {
        /// The place of its first token.
        place: Place,
        /// The variables.
        declarations: Declarations,
        /// The place of the `[]`.
        brackets: Place,
        /// The behaviour.
        inner: Box<Behaviour>,
    },
    /// A behaviour at any of some gates.
    ChoiceOfGates {
        /// The place of its first token.
        place: Place,
        /// The gates, at least one.
        choices: Vec<GateChoice>,
        /// The place of the `[]`.
        brackets: Place,
        /// The behaviour.
        inner: Box<Behaviour>,
    },
    /// Copies of a behaviour at several gates, beside one another.
    Par {
        /// The place of its first token.
        place: Place,
        /// The gate that stands for each of them.
        gate: Token,
        /// The gates.
        gates: GateList,
        /// The operator between the copies.
        operator: Operator,
        /// The behaviour.
        inner: Box<Behaviour>,
    },
}

/// A value with which a behaviour ends.
#[derive(Drop)]
pub enum ExitValue {
    /// Any value of a sort.
    Any {
        /// The place of its first token.
        place: Place,
        /// The sort.
        sort: Token,
    },
    /// The value of an expression.
    Value {
        /// The place of its first token.
        place: Place,
        /// The expression.
        value: Expr,
    },
}

/// A variable with its value.
#[derive(Drop)]
pub struct Binding {
    /// The place of its first token.
    pub place: Place,
    /// The variable.
    pub name: Token,
    /// Its sort.
    pub sort: Token,
    /// Its value.
    pub value: Expr,
}

/// A gate that stands for each of some gates.
#[derive(Drop)]
pub struct GateChoice {
    /// The place of its first token.
    pub place: Place,
    /// The gate.
    pub gate: Token,
    /// The gates.
    pub gates: GateList,
}

// Behaviours of one level behind each other, and actions behind each other, may be as many as constructs may be nested. They are let go one
// after another: only brackets make these functions call each other.

impl Drop for Behaviour {
    #[cycle(let_go)]
    fn drop(mut self) {
        loop {
            let Behaviour {
                place: _place,
                first: _first,
                rest,
            } = self;
            match rest {
                None => return,
                Some(link) => {
                    let Enabling {
                        place: _place,
                        accepts: _accepts,
                        right,
                    } = link;
                    self = Box::into_inner(right);
                }
            }
        }
    }
}

impl Drop for Disable {
    #[cycle(let_go)]
    fn drop(mut self) {
        loop {
            let Disable {
                place: _place,
                first: _first,
                rest,
            } = self;
            match rest {
                None => return,
                Some(link) => {
                    let Disabling {
                        place: _place,
                        right,
                    } = link;
                    self = Box::into_inner(right);
                }
            }
        }
    }
}

impl Drop for Parallel {
    #[cycle(let_go)]
    fn drop(mut self) {
        loop {
            let Parallel {
                place: _place,
                first: _first,
                rest,
            } = self;
            match rest {
                None => return,
                Some(link) => {
                    let Composing {
                        place: _place,
                        operator: _operator,
                        right,
                    } = link;
                    self = Box::into_inner(right);
                }
            }
        }
    }
}

impl Drop for Choice {
    #[cycle(let_go)]
    fn drop(mut self) {
        loop {
            let Choice {
                place: _place,
                first: _first,
                rest,
            } = self;
            match rest {
                None => return,
                Some(link) => {
                    let Choosing {
                        place: _place,
                        right,
                    } = link;
                    self = Box::into_inner(right);
                }
            }
        }
    }
}

impl Drop for Unary {
    #[cycle(let_go)]
    fn drop(mut self) {
        loop {
            match self {
                Unary::Guarded {
                    place: _,
                    guard: _,
                    rest,
                } => self = Box::into_inner(rest),
                Unary::Prefixed {
                    place: _,
                    action: _,
                    rest,
                } => self = Box::into_inner(rest),
                Unary::Atomic(_) => return,
            }
        }
    }
}

impl Behaviour {
    /// A behaviour, and what follows it. It takes no memory.
    pub fn new(place: Place, first: Disable, rest: Option<Enabling>) -> Behaviour
        ensures tree { behaviour_tree result ≡ node place (both (disable_tree first) (enabling_rest_tree rest)) }
    {
        Behaviour { place, first, rest }
    }
}

impl Enabling {
    /// The behaviour that follows when another one ends.
    pub fn new(
        alloc: Global,
        place: Place,
        accepts: Option<Declarations>,
        right: Behaviour,
    ) -> Result<Enabling, Memory>
        ensures tree { IfOk result (λ enabling. enabling_tree enabling
            ≡ node place (behind (both (accepts_tree accepts) (behaviour_tree right)))) }
    {
        Ok(Enabling {
            place,
            accepts,
            right: Box::new(alloc, right)?,
        })
    }
}

impl Disable {
    /// A behaviour, and what may break into it. It takes no memory.
    pub fn new(place: Place, first: Parallel, rest: Option<Disabling>) -> Disable
        ensures tree { disable_tree result ≡ node place (both (parallel_tree first) (disabling_rest_tree rest)) }
    {
        Disable { place, first, rest }
    }
}

impl Disabling {
    /// The behaviour that may break in.
    pub fn new(alloc: Global, place: Place, right: Disable) -> Result<Disabling, Memory>
        ensures tree { IfOk result (λ disabling. disabling_tree disabling ≡ node place (behind (disable_tree right))) }
    {
        Ok(Disabling {
            place,
            right: Box::new(alloc, right)?,
        })
    }
}

impl Parallel {
    /// A behaviour, and what stands beside it. It takes no memory.
    pub fn new(place: Place, first: Choice, rest: Option<Composing>) -> Parallel
        ensures tree { parallel_tree result ≡ node place (both (choice_tree first) (composing_rest_tree rest)) }
    {
        Parallel { place, first, rest }
    }
}

impl Composing {
    /// The operator and the behaviour behind it.
    pub fn new(
        alloc: Global,
        place: Place,
        operator: Operator,
        right: Parallel,
    ) -> Result<Composing, Memory>
        ensures tree { IfOk result (λ composing. composing_tree composing
            ≡ node place (both (operator_tree operator) (parallel_tree right))) }
    {
        Ok(Composing {
            place,
            operator,
            right: Box::new(alloc, right)?,
        })
    }
}

impl Choice {
    /// A behaviour, and another one. It takes no memory.
    pub fn new(place: Place, first: Unary, rest: Option<Choosing>) -> Choice
        ensures tree { choice_tree result ≡ node place (both (unary_tree first) (choosing_rest_tree rest)) }
    {
        Choice { place, first, rest }
    }
}

impl Choosing {
    /// The behaviour that may be chosen.
    pub fn new(alloc: Global, place: Place, right: Choice) -> Result<Choosing, Memory>
        ensures tree { IfOk result (λ choosing. choosing_tree choosing ≡ node place (behind (choice_tree right))) }
    {
        Ok(Choosing {
            place,
            right: Box::new(alloc, right)?,
        })
    }
}

impl Unary {
    /// A behaviour under a condition.
    pub fn guarded(
        alloc: Global,
        place: Place,
        guard: Premiss,
        rest: Unary,
    ) -> Result<Unary, Memory>
        ensures tree { IfOk result (λ unary. unary_tree unary
            ≡ node place (left (both (predicate_tree guard) (behind (unary_tree rest))))) }
    {
        Ok(Unary::Guarded {
            place,
            guard,
            rest: Box::new(alloc, rest)?,
        })
    }

    /// An action and what follows it.
    pub fn prefixed(
        alloc: Global,
        place: Place,
        action: Action,
        rest: Unary,
    ) -> Result<Unary, Memory>
        ensures tree { IfOk result (λ unary. unary_tree unary ≡ node place (action_tree action (unary_tree rest))) }
    {
        Ok(Unary::Prefixed {
            place,
            action,
            rest: Box::new(alloc, rest)?,
        })
    }

    /// A behaviour that begins with a word of its own. It takes no memory.
    pub fn atomic(atom: Atom) -> Unary
        ensures tree { unary_tree result ≡ atom_tree atom }
    {
        Unary::Atomic(atom)
    }
}

impl Atom {
    /// `stop`. It takes no memory.
    pub fn stop(place: Place) -> Atom
        ensures tree { atom_tree result ≡ atomic_tree place (right (right (right (right (right (right unkept)))))) }
    {
        Atom::Stop { place }
    }

    /// The end, with values. It takes no memory.
    pub fn exit(place: Place, values: Option<Vec<ExitValue>>) -> Atom
        ensures tree { atom_tree result
            ≡ atomic_tree place (right (right (right (right (right (left (behind (exit_values_tree values)))))))) }
    {
        Atom::Exit { place, values }
    }

    /// A process with actual gates and values. It takes no memory.
    pub fn call(
        place: Place,
        name: Token,
        gates: Option<GateList>,
        values: Option<Vec<Expr>>,
    ) -> Atom
        ensures tree { atom_tree result
            ≡ node place (right (right (left (node place (both (leaf name)
            (right (right (both (optional_gates_tree gates) (values_tree values))))))))) }
    {
        Atom::Call {
            place,
            name,
            gates,
            values,
        }
    }

    /// A behaviour in parentheses.
    pub fn group(alloc: Global, place: Place, inner: Behaviour) -> Result<Atom, Memory>
        ensures tree { IfOk result (λ atom. atom_tree atom ≡ atomic_tree place (left (between (behaviour_tree inner)))) }
    {
        Ok(Atom::Group {
            place,
            inner: Box::new(alloc, inner)?,
        })
    }

    /// A behaviour whose actions at some gates can't be seen.
    pub fn hide(
        alloc: Global,
        place: Place,
        gates: Vec<Token>,
        inner: Behaviour,
    ) -> Result<Atom, Memory>
        ensures tree { IfOk result (λ atom. atom_tree atom
            ≡ atomic_tree place (right (left (behind (both (token_list_tree gates.items) (behind (behaviour_tree inner))))))) }
    {
        Ok(Atom::Hide {
            place,
            gates,
            inner: Box::new(alloc, inner)?,
        })
    }

    /// A behaviour in which variables have values.
    pub fn with_bindings(
        alloc: Global,
        place: Place,
        bindings: Vec<Binding>,
        inner: Behaviour,
    ) -> Result<Atom, Memory>
        ensures tree { IfOk result (λ atom. atom_tree atom
            ≡ atomic_tree place (right (right (left (behind
            (both (list_tree (map binding_tree bindings.items)) (behind (behaviour_tree inner)))))))) }
    {
        Ok(Atom::Let {
            place,
            bindings,
            inner: Box::new(alloc, inner)?,
        })
    }

    /// A behaviour for any values of variables.
    pub fn choice_of_values(
        alloc: Global,
        place: Place,
        declarations: Declarations,
        brackets: Place,
        inner: Behaviour,
    ) -> Result<Atom, Memory>
        ensures tree { IfOk result (λ atom. atom_tree atom
            ≡ atomic_tree place (right (right (right (left (behind (node declarations.place
            (choice_declarations_tree declarations.list.items (brackets_tree brackets (behaviour_tree inner)))))))))) }
    {
        Ok(Atom::ChoiceOfValues {
            place,
            declarations,
            brackets,
            inner: Box::new(alloc, inner)?,
        })
    }

    /// A behaviour at any of some gates.
    pub fn choice_of_gates(
        alloc: Global,
        place: Place,
        choices: Vec<GateChoice>,
        brackets: Place,
        inner: Behaviour,
    ) -> Result<Atom, Memory>
        ensures tree { IfOk result (λ atom. atom_tree atom
            ≡ atomic_tree place (right (right (right (left (behind
            (choice_gates_tree choices.items (brackets_tree brackets (behaviour_tree inner))))))))) }
    {
        Ok(Atom::ChoiceOfGates {
            place,
            choices,
            brackets,
            inner: Box::new(alloc, inner)?,
        })
    }

    /// Copies of a behaviour at several gates, beside one another.
    pub fn par(
        alloc: Global,
        place: Place,
        gate: Token,
        gates: GateList,
        operator: Operator,
        inner: Behaviour,
    ) -> Result<Atom, Memory>
        ensures tree { IfOk result (λ atom. atom_tree atom
            ≡ atomic_tree place (right (right (right (right (left (behind (both (leaf gate) (behind
            (both (gate_list_tree gates) (both (operator_tree operator) (behaviour_tree inner)))))))))))) }
    {
        Ok(Atom::Par {
            place,
            gate,
            gates,
            operator,
            inner: Box::new(alloc, inner)?,
        })
    }
}
