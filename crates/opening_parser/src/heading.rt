// What begins a behaviour that reaches as far as it can.

ghost use Rattle.std.specs.Prelude.{◌≡◌, ◌<◌, true, false, IfOk, OnOk, IfErr, length};
ghost use Rattle.lotos_ast.specs.declared.mark.Mark.{Mark};
ghost use Rattle.lotos_ast.specs.MarkNumbers.{is_same_mark};
ghost use Rattle.lotos_ast.specs.Notation.{part, unary};
ghost use Rattle.lotos_ast.specs.Begins.{mark_at};
ghost use Rattle.lotos_ast.specs.Nesting.{nesting_of};
ghost use Rattle.syntax_cursor.specs.Parsers.{Halts};
ghost use Rattle.opening_parser.specs.Openings.{IsHeading, CompletesChoice, choice_range};

use crate::binding::OneBinding;
use crate::gates::{OneGateChoice, gate_list};
use crate::opening::Heading;
use crate::operator::operator;
use data_parser::declaration::OneDeclaration;
use lotos_ast::behaviour::GateChoice;
use lotos_ast::declaration::{Declaration, Declarations};
use lotos_ast::mark::Mark;
use lotos_ast::nest::Nest;
use lotos_ast::place::Place;
use lotos_ast::token::Token;
use syntax_cursor::cursor::Cursor;
use syntax_cursor::identifier::Identifier;
use syntax_cursor::parse_fault::ParseFault;

// `hide` and its gates, up to `in`.
pub fn hide(cursor: &mut Cursor<'_>, nest: Nest) -> Result<Heading, ParseFault>
    requires here { is_same_mark Mark.Hide (mark_at cursor.old) ≡ true }
    ensures read { IfOk result (λ heading. IsHeading (nesting_of nest) cursor.old heading cursor.new) }
    ensures halts { IfErr result (λ e. Halts e (nesting_of nest) (part unary) cursor.old cursor.new) }
    ensures fewer { OnOk result (length cursor.new < length cursor.old) }
{
    let place = cursor.place();
    let inner = nest.bracket()?;
    cursor.pass(inner, Mark::Hide)?;
    let gates = cursor.list::<Identifier>(inner)?;
    cursor.pass(inner, Mark::In)?;
    Ok(Heading::Hide { place, gates })
}

// `let` and its variables with their values, up to `in`.
pub fn with_bindings(cursor: &mut Cursor<'_>, nest: Nest) -> Result<Heading, ParseFault>
    requires here { is_same_mark Mark.Let (mark_at cursor.old) ≡ true }
    ensures read { IfOk result (λ heading. IsHeading (nesting_of nest) cursor.old heading cursor.new) }
    ensures halts { IfErr result (λ e. Halts e (nesting_of nest) (part unary) cursor.old cursor.new) }
    ensures fewer { OnOk result (length cursor.new < length cursor.old) }
{
    let place = cursor.place();
    let inner = nest.bracket()?;
    cursor.pass(inner, Mark::Let)?;
    let bindings = cursor.list::<OneBinding>(inner)?;
    cursor.pass(inner, Mark::In)?;
    Ok(Heading::Let { place, bindings })
}

// `choice` and its gates or variables, up to `[]`.
pub fn choice(cursor: &mut Cursor<'_>, nest: Nest) -> Result<Heading, ParseFault>
    requires here { is_same_mark Mark.Choice (mark_at cursor.old) ≡ true }
    ensures read { IfOk result (λ heading. IsHeading (nesting_of nest) cursor.old heading cursor.new) }
    ensures halts { IfErr result (λ e. Halts e (nesting_of nest) (part unary) cursor.old cursor.new) }
    ensures fewer { OnOk result (length cursor.new < length cursor.old) }
{
    let place = cursor.place();
    let inner = nest.bracket()?;
    cursor.pass(inner, Mark::Choice)?;
    let first = cursor.place();
    let name = cursor.token(inner, Mark::Identifier)?;
    if cursor.at(Mark::In) {
        let heading = choice_over_gates(cursor, inner, place, first, name)?;
        Ok(heading)
    } else {
        let heading = choice_over_values(cursor, inner, place, first, name)?;
        Ok(heading)
    }
}

// Behind the first gate of a choice, the gates that it stands for, and the others, up to `[]`.
fn choice_over_gates(
    cursor: &mut Cursor<'_>,
    nest: Nest,
    place: Place,
    first: Place,
    gate: Token,
) -> Result<Heading, ParseFault>
    requires here { is_same_mark Mark.In (mark_at cursor.old) ≡ true }
    ensures read { IfOk result (λ heading. CompletesChoice (nesting_of nest) place first gate cursor.old heading cursor.new) }
    ensures halts { IfErr result (λ e. Halts e (nesting_of nest) choice_range cursor.old cursor.new) }
    ensures fewer { OnOk result (length cursor.new < length cursor.old) }
{
    cursor.pass(nest, Mark::In)?;
    let gates = gate_list(cursor, nest)?;
    let mut choices = cursor.after_commas::<OneGateChoice>(nest)?;
    let brackets = cursor.place();
    cursor.pass(nest, Mark::Brackets)?;
    choices.insert(
        0,
        GateChoice {
            place: first,
            gate,
            gates,
        },
    )?;
    Ok(Heading::Gates {
        place,
        choices,
        brackets,
    })
}

// Behind the first variable of a choice, the other variables with their sorts, up to `[]`.
fn choice_over_values(
    cursor: &mut Cursor<'_>,
    nest: Nest,
    place: Place,
    first: Place,
    name: Token,
) -> Result<Heading, ParseFault>
    requires here { is_same_mark Mark.In (mark_at cursor.old) ≡ false }
    ensures read { IfOk result (λ heading. CompletesChoice (nesting_of nest) place first name cursor.old heading cursor.new) }
    ensures halts { IfErr result (λ e. Halts e (nesting_of nest) choice_range cursor.old cursor.new) }
    ensures fewer { OnOk result (length cursor.new < length cursor.old) }
{
    let mut names = cursor.after_commas::<Identifier>(nest)?;
    cursor.pass(nest, Mark::Colon)?;
    let sort = cursor.token(nest, Mark::Identifier)?;
    let mut list = cursor.after_commas::<OneDeclaration>(nest)?;
    let brackets = cursor.place();
    cursor.pass(nest, Mark::Brackets)?;
    names.insert(0, name)?;
    let declaration = Declaration {
        place: first,
        names,
        sort,
    };
    list.insert(0, declaration)?;
    Ok(Heading::Values {
        place,
        declarations: Declarations { place: first, list },
        brackets,
    })
}

// `par`, its gates and its operator.
pub fn par(cursor: &mut Cursor<'_>, nest: Nest) -> Result<Heading, ParseFault>
    requires here { is_same_mark Mark.Par (mark_at cursor.old) ≡ true }
    ensures read { IfOk result (λ heading. IsHeading (nesting_of nest) cursor.old heading cursor.new) }
    ensures halts { IfErr result (λ e. Halts e (nesting_of nest) (part unary) cursor.old cursor.new) }
    ensures fewer { OnOk result (length cursor.new < length cursor.old) }
{
    let place = cursor.place();
    let inner = nest.bracket()?;
    cursor.pass(inner, Mark::Par)?;
    let gate = cursor.token(inner, Mark::Identifier)?;
    cursor.pass(inner, Mark::In)?;
    let gates = gate_list(cursor, inner)?;
    let operator = operator(cursor, inner)?;
    Ok(Heading::Par {
        place,
        gate,
        gates,
        operator,
    })
}
