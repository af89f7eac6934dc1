// What a behaviour gives when it ends.

ghost use Rattle.std.specs.Prelude.{◌≡◌, ◌≤◌, ◌<◌, IfOk, OnOk, IfErr, length};
ghost use Rattle.lotos_ast.specs.Notation.{optional, part, functionality, identifier, list, in_parentheses};
ghost use Rattle.lotos_ast.specs.Reads.{Reads};
ghost use Rattle.lotos_ast.specs.DeclarationTrees.{functionality_tree, sorts_tree};
ghost use Rattle.lotos_ast.specs.Nesting.{nesting_of};
ghost use Rattle.syntax_cursor.specs.Parsers.{Halts};

use lotos_ast::declaration::Functionality;
use lotos_ast::mark::Mark;
use lotos_ast::nest::Nest;
use lotos_ast::token::Token;
use syntax_cursor::cursor::Cursor;
use syntax_cursor::identifier::Identifier;
use syntax_cursor::parse_fault::ParseFault;

// What a behaviour gives when it ends.
pub fn functionality(cursor: &mut Cursor<'_>, nest: Nest) -> Result<Functionality, ParseFault>
    ensures read { IfOk result (λ f. Reads (nesting_of nest) (part functionality) cursor.old (functionality_tree f) cursor.new) }
    ensures halts { IfErr result (λ e. Halts e (nesting_of nest) (part functionality) cursor.old cursor.new) }
    ensures fewer { OnOk result (length cursor.new < length cursor.old) }
{
    let place = cursor.place();
    if cursor.at(Mark::NoExit) {
        cursor.pass(nest, Mark::NoExit)?;
        Ok(Functionality::NoExit { place })
    } else {
        cursor.pass(nest, Mark::Exit)?;
        let sorts = optional_sorts(cursor, nest)?;
        Ok(Functionality::Exit { place, sorts })
    }
}

// Sorts in parentheses, where they stand.
fn optional_sorts(cursor: &mut Cursor<'_>, nest: Nest) -> Result<Option<Vec<Token>>, ParseFault>
    ensures read { IfOk result (λ sorts. Reads (nesting_of nest) (optional (in_parentheses (list identifier))) cursor.old
        (sorts_tree sorts) cursor.new) }
    ensures halts { IfErr result (λ e. Halts e (nesting_of nest) (optional (in_parentheses (list identifier))) cursor.old cursor.new) }
    ensures no_more { OnOk result (length cursor.new ≤ length cursor.old) }
{
    if cursor.at(Mark::LeftParenthesis) {
        let inner = nest.bracket()?;
        cursor.pass(inner, Mark::LeftParenthesis)?;
        let sorts = cursor.list::<Identifier>(inner)?;
        cursor.pass(inner, Mark::RightParenthesis)?;
        Ok(Some(sorts))
    } else {
        Ok(None)
    }
}
