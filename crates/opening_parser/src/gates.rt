// Gates in brackets, and gates that stand for others.

ghost use Rattle.std.specs.Prelude.{◌≡◌, ◌≤◌, ◌<◌, IfOk, OnOk, IfErr, length};
ghost use Rattle.lotos_ast.specs.Notation.{optional, part, gate_list};
ghost use Rattle.lotos_ast.specs.Reads.{Reads};
ghost use Rattle.lotos_ast.specs.DeclarationTrees.{gate_list_tree, optional_gates_tree};
ghost use Rattle.lotos_ast.specs.Nesting.{nesting_of};
ghost use Rattle.syntax_cursor.specs.Parsers.{Halts};

use lotos_ast::behaviour::GateChoice;
use lotos_ast::declaration::GateList;
use lotos_ast::mark::Mark;
use lotos_ast::nest::Nest;
use syntax_cursor::cursor::Cursor;
use syntax_cursor::identifier::Identifier;
use syntax_cursor::item::Item;
use syntax_cursor::parse_fault::ParseFault;

// Gates in brackets.
pub fn gate_list(cursor: &mut Cursor<'_>, nest: Nest) -> Result<GateList, ParseFault>
    ensures read { IfOk result (λ gates. Reads (nesting_of nest) (part gate_list) cursor.old (gate_list_tree gates) cursor.new) }
    ensures halts { IfErr result (λ e. Halts e (nesting_of nest) (part gate_list) cursor.old cursor.new) }
    ensures fewer { OnOk result (length cursor.new < length cursor.old) }
{
    let place = cursor.place();
    cursor.pass(nest, Mark::LeftBracket)?;
    let gates = cursor.list::<Identifier>(nest)?;
    cursor.pass(nest, Mark::RightBracket)?;
    Ok(GateList { place, gates })
}

// Gates in brackets, where they stand.
pub fn optional_gates(cursor: &mut Cursor<'_>, nest: Nest) -> Result<Option<GateList>, ParseFault>
    ensures read { IfOk result (λ gates. Reads (nesting_of nest) (optional (part gate_list)) cursor.old
        (optional_gates_tree gates) cursor.new) }
    ensures halts { IfErr result (λ e. Halts e (nesting_of nest) (optional (part gate_list)) cursor.old cursor.new) }
    ensures no_more { OnOk result (length cursor.new ≤ length cursor.old) }
{
    if cursor.at(Mark::LeftBracket) {
        Ok(Some(gate_list(cursor, nest)?))
    } else {
        Ok(None)
    }
}

/// A gate that stands for each of some gates.
pub struct OneGateChoice;

impl Item for OneGateChoice {
    ghost use Rattle.lotos_ast.specs.Notation.{part, gate_choice};
    ghost use Rattle.lotos_ast.specs.BehaviourTrees.{gate_choice_tree};

    type Output = GateChoice;

    ghost syntax = { part gate_choice };

    ghost tree = { gate_choice_tree };

    fn begins(cursor: &Cursor<'_>) -> bool {
        cursor.at(Mark::Identifier)
    }

    fn read(cursor: &mut Cursor<'_>, nest: Nest) -> Result<GateChoice, ParseFault> {
        let place = cursor.place();
        let gate = cursor.token(nest, Mark::Identifier)?;
        cursor.pass(nest, Mark::In)?;
        let gates = gate_list(cursor, nest)?;
        Ok(GateChoice { place, gate, gates })
    }
}
