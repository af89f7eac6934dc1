// The values with which a behaviour ends.

ghost use Rattle.std.specs.Prelude.{◌≡◌, ◌≤◌, IfOk, OnOk, IfErr, length};
ghost use Rattle.lotos_ast.specs.Notation.{optional, part, exit_value, list, in_parentheses};
ghost use Rattle.lotos_ast.specs.Reads.{Reads};
ghost use Rattle.lotos_ast.specs.BehaviourTrees.{exit_values_tree};
ghost use Rattle.lotos_ast.specs.Nesting.{nesting_of};
ghost use Rattle.syntax_cursor.specs.Parsers.{Halts};

use data_parser::expressions::expression;
use lotos_ast::behaviour::ExitValue;
use lotos_ast::mark::Mark;
use lotos_ast::nest::Nest;
use syntax_cursor::cursor::Cursor;
use syntax_cursor::item::Item;
use syntax_cursor::parse_fault::ParseFault;

/// A value with which a behaviour ends.
pub struct OneExitValue;

impl Item for OneExitValue {
    ghost use Rattle.lotos_ast.specs.Notation.{part, exit_value};
    ghost use Rattle.lotos_ast.specs.BehaviourTrees.{exit_value_tree};

    type Output = ExitValue;

    ghost syntax = { part exit_value };

    ghost tree = { exit_value_tree };

    fn begins(cursor: &Cursor<'_>) -> bool {
        cursor.at(Mark::Any) || cursor.at_expression()
    }

    fn read(cursor: &mut Cursor<'_>, nest: Nest) -> Result<ExitValue, ParseFault> {
        let place = cursor.place();
        if cursor.at(Mark::Any) {
            cursor.pass(nest, Mark::Any)?;
            let sort = cursor.token(nest, Mark::Identifier)?;
            Ok(ExitValue::Any { place, sort })
        } else {
            let value = expression(cursor, nest)?;
            Ok(ExitValue::Value { place, value })
        }
    }
}

// The values with which a behaviour ends, in parentheses, where they stand.
pub fn exit_values(
    cursor: &mut Cursor<'_>,
    nest: Nest,
) -> Result<Option<Vec<ExitValue>>, ParseFault>
    ensures read { IfOk result (λ values. Reads (nesting_of nest) (optional (in_parentheses (list (part exit_value)))) cursor.old
        (exit_values_tree values) cursor.new) }
    ensures halts { IfErr result (λ e. Halts e (nesting_of nest) (optional (in_parentheses (list (part exit_value)))) cursor.old
        cursor.new) }
    ensures no_more { OnOk result (length cursor.new ≤ length cursor.old) }
{
    if cursor.at(Mark::LeftParenthesis) {
        let inner = nest.bracket()?;
        cursor.pass(inner, Mark::LeftParenthesis)?;
        let values = cursor.list::<OneExitValue>(inner)?;
        cursor.pass(inner, Mark::RightParenthesis)?;
        Ok(Some(values))
    } else {
        Ok(None)
    }
}
