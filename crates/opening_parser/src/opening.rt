// What stands before the first behaviour inside another one.

ghost use Rattle.std.specs.Prelude.{◌≡◌, ◌<◌, true, false, box_value, IfOk, OnOk, IfErr, length};
ghost use Rattle.lotos_ast.specs.declared.mark.Mark.{Mark};
ghost use Rattle.lotos_ast.specs.MarkNumbers.{is_same_mark};
ghost use Rattle.lotos_ast.specs.Notation.{part, unary};
ghost use Rattle.lotos_ast.specs.Reads.{Reads};
ghost use Rattle.lotos_ast.specs.Begins.{mark_at, is_among};
ghost use Rattle.lotos_ast.specs.BehaviourTrees.{behaviour_tree, unary_tree, atom_tree};
ghost use Rattle.lotos_ast.specs.Nesting.{nesting_of};
ghost use Rattle.syntax_cursor.specs.Parsers.{Halts};
ghost use Rattle.opening_parser.specs.Openings.{prefix_tree, heading_tree, IsOpening, before_last};

use crate::exit::exit_values;
use crate::heading::{choice, hide, par, with_bindings};
use crate::prefix::{guarded, internal, named};
use lotos_ast::behaviour::{Action, Atom, Behaviour, Binding, GateChoice, Operator, Unary};
use lotos_ast::declaration::{Declarations, GateList};
use lotos_ast::expression::Premiss;
use lotos_ast::mark::Mark;
use lotos_ast::nest::Nest;
use lotos_ast::place::Place;
use lotos_ast::token::Token;
use spec_core::memory::Memory;
use std::alloc::Global;
use syntax_cursor::cursor::Cursor;
use syntax_cursor::parse_fault::ParseFault;

// An action or a guard, before the behaviour that follows.
#[derive(Drop)]
pub enum Prefix {
    Guard { place: Place, guard: Premiss },
    Action { place: Place, action: Action },
}

// What begins a behaviour that reaches as far as it can.
#[derive(Drop)]
pub enum Heading {
    Hide {
        place: Place,
        gates: Vec<Token>,
    },
    Let {
        place: Place,
        bindings: Vec<Binding>,
    },
    Values {
        place: Place,
        declarations: Declarations,
        brackets: Place,
    },
    Gates {
        place: Place,
        choices: Vec<GateChoice>,
        brackets: Place,
    },
    Par {
        place: Place,
        gate: Token,
        gates: GateList,
        operator: Operator,
    },
}

// What stands before the first behaviour inside a behaviour; or a whole behaviour, where there is none inside.
#[derive(Drop)]
pub enum Opening {
    Before(Box<Prefix>),
    Around(Box<Heading>),
    Parenthesis { place: Place },
    Whole(Box<Unary>),
}

impl Prefix {
    // The behaviour that begins with the prefix, and goes on with the rest.
    #[inline(never)]
    pub fn before(
        prefix: Box<Prefix>,
        alloc: Global,
        rest: Box<Unary>,
    ) -> Result<Box<Unary>, Memory>
        ensures tree { IfOk result (λ unary. unary_tree (box_value unary) ≡ prefix_tree (box_value prefix) (unary_tree (box_value rest))) }
    {
        let rest = Box::into_inner(rest);
        match Box::into_inner(prefix) {
            Prefix::Guard { place, guard } => {
                let unary = Unary::guarded(alloc, place, guard, rest)?;
                Ok(Box::new(alloc, unary)?)
            }
            Prefix::Action { place, action } => {
                let unary = Unary::prefixed(alloc, place, action, rest)?;
                Ok(Box::new(alloc, unary)?)
            }
        }
    }
}

impl Heading {
    // The behaviour that begins with the heading, with the one inside.
    #[inline(never)]
    pub fn around(
        heading: Box<Heading>,
        alloc: Global,
        inner: Box<Behaviour>,
    ) -> Result<Box<Unary>, Memory>
        ensures tree { IfOk result
            (λ unary. unary_tree (box_value unary) ≡ heading_tree (box_value heading) (behaviour_tree (box_value inner))) }
    {
        let atom = Box::into_inner(heading).atom(alloc, Box::into_inner(inner))?;
        Ok(Box::new(alloc, Unary::atomic(atom))?)
    }

    // The same as an atom.
    fn atom(self, alloc: Global, inner: Behaviour) -> Result<Atom, Memory>
        ensures tree { IfOk result (λ atom. atom_tree atom ≡ heading_tree self (behaviour_tree inner)) }
    {
        match self {
            Heading::Hide { place, gates } => Ok(Atom::hide(alloc, place, gates, inner)?),
            Heading::Let { place, bindings } => {
                Ok(Atom::with_bindings(alloc, place, bindings, inner)?)
            }
            Heading::Values {
                place,
                declarations,
                brackets,
            } => Ok(Atom::choice_of_values(alloc, place, declarations, brackets, inner)?),
            Heading::Gates {
                place,
                choices,
                brackets,
            } => Ok(Atom::choice_of_gates(alloc, place, choices, brackets, inner)?),
            Heading::Par {
                place,
                gate,
                gates,
                operator,
            } => Ok(Atom::par(alloc, place, gate, gates, operator, inner)?),
        }
    }
}

// A behaviour that begins with a word of its own.
pub fn atomic(alloc: Global, atom: Atom) -> Result<Box<Unary>, Memory>
    ensures tree { IfOk result (λ unary. unary_tree (box_value unary) ≡ atom_tree atom) }
{
    Ok(Box::new(alloc, Unary::atomic(atom))?)
}

// What stands before the first behaviour inside a behaviour.
#[inline(never)]
pub fn read_opening(cursor: &mut Cursor<'_>, nest: Nest) -> Result<Opening, ParseFault>
    ensures read { IfOk result (λ opening. IsOpening (nesting_of nest) cursor.old opening cursor.new) }
    ensures halts { IfErr result (λ e. Halts e (nesting_of nest) (part unary) cursor.old cursor.new) }
    ensures fewer { OnOk result (length cursor.new < length cursor.old) }
{
    if cursor.at(Mark::LeftBracket) {
        let prefix = guarded(cursor, nest)?;
        Ok(Opening::Before(Box::new(cursor.alloc(), prefix)?))
    } else if cursor.at(Mark::I) {
        let prefix = internal(cursor, nest)?;
        Ok(Opening::Before(Box::new(cursor.alloc(), prefix)?))
    } else if cursor.at(Mark::Identifier) {
        named(cursor, nest)
    } else if cursor.at(Mark::LeftParenthesis) {
        parenthesis(cursor, nest)
    } else if cursor.at(Mark::Hide) {
        let heading = hide(cursor, nest)?;
        Ok(Opening::Around(Box::new(cursor.alloc(), heading)?))
    } else if cursor.at(Mark::Let) {
        let heading = with_bindings(cursor, nest)?;
        Ok(Opening::Around(Box::new(cursor.alloc(), heading)?))
    } else if cursor.at(Mark::Choice) {
        let heading = choice(cursor, nest)?;
        Ok(Opening::Around(Box::new(cursor.alloc(), heading)?))
    } else if cursor.at(Mark::Par) {
        let heading = par(cursor, nest)?;
        Ok(Opening::Around(Box::new(cursor.alloc(), heading)?))
    } else {
        whole(cursor, nest)
    }
}

// A left parenthesis.
fn parenthesis(cursor: &mut Cursor<'_>, nest: Nest) -> Result<Opening, ParseFault>
    requires here { is_same_mark Mark.LeftParenthesis (mark_at cursor.old) ≡ true }
    ensures read { IfOk result (λ opening. IsOpening (nesting_of nest) cursor.old opening cursor.new) }
    ensures halts { IfErr result (λ e. Halts e (nesting_of nest) (part unary) cursor.old cursor.new) }
    ensures fewer { OnOk result (length cursor.new < length cursor.old) }
{
    let place = cursor.place();
    let inner = nest.bracket()?;
    cursor.pass(inner, Mark::LeftParenthesis)?;
    Ok(Opening::Parenthesis { place })
}

// `exit` with its values, or `stop`.
fn whole(cursor: &mut Cursor<'_>, nest: Nest) -> Result<Opening, ParseFault>
    requires last { is_among before_last (mark_at cursor.old) ≡ false }
    ensures read { IfOk result (λ opening. IsOpening (nesting_of nest) cursor.old opening cursor.new) }
    ensures halts { IfErr result (λ e. Halts e (nesting_of nest) (part unary) cursor.old cursor.new) }
    ensures fewer { OnOk result (length cursor.new < length cursor.old) }
{
    let place = cursor.place();
    if cursor.at(Mark::Exit) {
        cursor.pass(nest, Mark::Exit)?;
        let values = exit_values(cursor, nest)?;
        let atom = Atom::exit(place, values);
        Ok(Opening::Whole(atomic(cursor.alloc(), atom)?))
    } else {
        cursor.pass(nest, Mark::Stop)?;
        let atom = Atom::stop(place);
        Ok(Opening::Whole(atomic(cursor.alloc(), atom)?))
    }
}
