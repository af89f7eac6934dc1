// Parallel operators.

ghost use Rattle.std.specs.Prelude.{◌≡◌, ◌<◌, IfOk, OnOk, IfErr, length};
ghost use Rattle.lotos_ast.specs.Notation.{part, operator};
ghost use Rattle.lotos_ast.specs.Reads.{Reads};
ghost use Rattle.lotos_ast.specs.Begins.{mark_at, begins_operator};
ghost use Rattle.lotos_ast.specs.BehaviourTrees.{operator_tree};
ghost use Rattle.lotos_ast.specs.Nesting.{nesting_of};
ghost use Rattle.syntax_cursor.specs.Parsers.{Halts};

use lotos_ast::behaviour::Operator;
use lotos_ast::mark::Mark;
use lotos_ast::nest::Nest;
use syntax_cursor::cursor::Cursor;
use syntax_cursor::identifier::Identifier;
use syntax_cursor::parse_fault::ParseFault;

// Whether a parallel operator begins with the next token.
pub fn at_operator(cursor: &Cursor<'_>) -> bool
    ensures { result ≡ begins_operator (mark_at cursor.now) }
{
    cursor.at(Mark::Interleave) || cursor.at(Mark::Synchronise) || cursor.at(Mark::LeftBars)
}

// A parallel operator.
pub fn operator(cursor: &mut Cursor<'_>, nest: Nest) -> Result<Operator, ParseFault>
    ensures read { IfOk result (λ o. Reads (nesting_of nest) (part operator) cursor.old (operator_tree o) cursor.new) }
    ensures halts { IfErr result (λ e. Halts e (nesting_of nest) (part operator) cursor.old cursor.new) }
    ensures fewer { OnOk result (length cursor.new < length cursor.old) }
{
    let place = cursor.place();
    if cursor.at(Mark::Interleave) {
        cursor.pass(nest, Mark::Interleave)?;
        Ok(Operator::Interleave { place })
    } else if cursor.at(Mark::Synchronise) {
        cursor.pass(nest, Mark::Synchronise)?;
        Ok(Operator::Synchronise { place })
    } else {
        cursor.pass(nest, Mark::LeftBars)?;
        let gates = cursor.list::<Identifier>(nest)?;
        cursor.pass(nest, Mark::RightBars)?;
        Ok(Operator::Shared { place, gates })
    }
}
