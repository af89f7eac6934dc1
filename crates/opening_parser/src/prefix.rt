// Actions and guards.

ghost use Rattle.std.specs.Prelude.{◌≡◌, ◌≤◌, ◌<◌, true, IfOk, OnOk, IfErr, length};
ghost use Rattle.lotos_ast.specs.declared.mark.Mark.{Mark};
ghost use Rattle.lotos_ast.specs.MarkNumbers.{is_same_mark};
ghost use Rattle.lotos_ast.specs.Notation.{optional, part, unary};
ghost use Rattle.lotos_ast.specs.Grammar.{predicate, prefixed};
ghost use Rattle.lotos_ast.specs.Reads.{Reads};
ghost use Rattle.lotos_ast.specs.Begins.{mark_at};
ghost use Rattle.lotos_ast.specs.BehaviourTrees.{predicate_tree, optional_predicate_tree};
ghost use Rattle.lotos_ast.specs.Nesting.{nesting_of};
ghost use Rattle.syntax_cursor.specs.Parsers.{Halts};
ghost use Rattle.opening_parser.specs.Openings.{offering, offering_tree, IsPrefix, IsOpening};
ghost use Rattle.opening_parser.specs.Leads.{Leads};

use crate::gates::optional_gates;
use crate::offer::OneOffer;
use crate::opening::{Opening, Prefix, atomic};
use data_parser::expressions::{arguments, premiss};
use lotos_ast::behaviour::{Action, Atom, Offer};
use lotos_ast::expression::Premiss;
use lotos_ast::mark::Mark;
use lotos_ast::nest::Nest;
use syntax_cursor::cursor::Cursor;
use syntax_cursor::item::Item;
use syntax_cursor::parse_fault::ParseFault;

// The values of an action, with what has to hold of them.
#[derive(Drop)]
pub struct Offers {
    pub offers: Vec<Offer>,
    pub predicate: Option<Premiss>,
}

// A condition in brackets.
fn predicate(cursor: &mut Cursor<'_>, nest: Nest) -> Result<Premiss, ParseFault>
    ensures read { IfOk result (λ p. Reads (nesting_of nest) predicate cursor.old (predicate_tree p) cursor.new) }
    ensures halts { IfErr result (λ e. Halts e (nesting_of nest) predicate cursor.old cursor.new) }
    ensures fewer { OnOk result (length cursor.new < length cursor.old) }
{
    cursor.pass(nest, Mark::LeftBracket)?;
    let premiss = premiss(cursor, nest)?;
    cursor.pass(nest, Mark::RightBracket)?;
    Ok(premiss)
}

// A condition in brackets, where it stands.
fn optional_predicate(cursor: &mut Cursor<'_>, nest: Nest) -> Result<Option<Premiss>, ParseFault>
    ensures read { IfOk result (λ p. Reads (nesting_of nest) (optional predicate) cursor.old (optional_predicate_tree p) cursor.new) }
    ensures halts { IfErr result (λ e. Halts e (nesting_of nest) (optional predicate) cursor.old cursor.new) }
    ensures no_more { OnOk result (length cursor.new ≤ length cursor.old) }
{
    if cursor.at(Mark::LeftBracket) {
        Ok(Some(predicate(cursor, nest)?))
    } else {
        Ok(None)
    }
}

// A guard, up to its arrow.
pub fn guarded(cursor: &mut Cursor<'_>, nest: Nest) -> Result<Prefix, ParseFault>
    requires here { is_same_mark Mark.LeftBracket (mark_at cursor.old) ≡ true }
    ensures read { IfOk result (λ prefix. IsPrefix (nesting_of nest) cursor.old prefix cursor.new) }
    ensures halts { IfErr result (λ e. Halts e (nesting_of nest) (part unary) cursor.old cursor.new) }
    ensures fewer { OnOk result (length cursor.new < length cursor.old) }
{
    let place = cursor.place();
    let guard = predicate(cursor, nest)?;
    cursor.pass(nest, Mark::Arrow)?;
    Ok(Prefix::Guard { place, guard })
}

// The internal action, up to its semicolon.
pub fn internal(cursor: &mut Cursor<'_>, nest: Nest) -> Result<Prefix, ParseFault>
    requires here { is_same_mark Mark.I (mark_at cursor.old) ≡ true }
    ensures read { IfOk result (λ prefix. IsPrefix (nesting_of nest) cursor.old prefix cursor.new) }
    ensures halts { IfErr result (λ e. Halts e (nesting_of nest) (part unary) cursor.old cursor.new) }
    ensures fewer { OnOk result (length cursor.new < length cursor.old) }
{
    let place = cursor.place();
    cursor.pass(nest, Mark::I)?;
    cursor.pass(nest, Mark::Semicolon)?;
    let action = Action::Internal { place };
    Ok(Prefix::Action { place, action })
}

// The values of an action, with what has to hold of them, up to the semicolon.
fn offering(cursor: &mut Cursor<'_>, nest: Nest) -> Result<Offers, ParseFault>
    ensures read { IfOk result (λ o. Leads (nesting_of nest) offering cursor.old (offering_tree o) (nesting_of nest) prefixed cursor.new) }
    ensures halts { IfErr result (λ e. Halts e (nesting_of nest) offering cursor.old cursor.new) }
    ensures fewer { OnOk result (length cursor.new < length cursor.old) }
{
    let first = OneOffer::read(cursor, nest)?;
    let mut offers = cursor.repeated::<OneOffer>(nest)?;
    let predicate = optional_predicate(cursor, nest)?;
    cursor.pass(nest, Mark::Semicolon)?;
    offers.insert(0, first)?;
    Ok(Offers { offers, predicate })
}

// An action at a gate, up to its semicolon; or a process with its gates and values.
pub fn named(cursor: &mut Cursor<'_>, nest: Nest) -> Result<Opening, ParseFault>
    requires here { is_same_mark Mark.Identifier (mark_at cursor.old) ≡ true }
    ensures read { IfOk result (λ opening. IsOpening (nesting_of nest) cursor.old opening cursor.new) }
    ensures halts { IfErr result (λ e. Halts e (nesting_of nest) (part unary) cursor.old cursor.new) }
    ensures fewer { OnOk result (length cursor.new < length cursor.old) }
{
    let place = cursor.place();
    let name = cursor.token(nest, Mark::Identifier)?;
    if cursor.at(Mark::Semicolon) {
        cursor.pass(nest, Mark::Semicolon)?;
        let action = Action::Plain { place, gate: name };
        let prefix = Prefix::Action { place, action };
        Ok(Opening::Before(Box::new(cursor.alloc(), prefix)?))
    } else if OneOffer::begins(cursor) {
        let Offers { offers, predicate } = offering(cursor, nest)?;
        let action = Action::Offering {
            place,
            gate: name,
            offers,
            predicate,
        };
        let prefix = Prefix::Action { place, action };
        Ok(Opening::Before(Box::new(cursor.alloc(), prefix)?))
    } else {
        let gates = optional_gates(cursor, nest)?;
        let values = arguments(cursor, nest)?;
        let atom = Atom::call(place, name, gates, values);
        Ok(Opening::Whole(atomic(cursor.alloc(), atom)?))
    }
}
