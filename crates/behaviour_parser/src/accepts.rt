// The variables that take the values with which a behaviour ends.

ghost use Rattle.std.specs.Prelude.{◌≡◌, ◌≤◌, IfOk, OnOk, IfErr, length};
ghost use Rattle.lotos_ast.specs.declared.mark.Mark.{Mark};
ghost use Rattle.lotos_ast.specs.Notation.{optional, quoted, part, declarations, ◌▸◌};
ghost use Rattle.lotos_ast.specs.Reads.{Reads};
ghost use Rattle.lotos_ast.specs.BehaviourTrees.{accepts_tree};
ghost use Rattle.lotos_ast.specs.Nesting.{nesting_of};
ghost use Rattle.syntax_cursor.specs.Parsers.{Halts};

use data_parser::declaration::declarations;
use lotos_ast::declaration::Declarations;
use lotos_ast::mark::Mark;
use lotos_ast::nest::Nest;
use syntax_cursor::cursor::Cursor;
use syntax_cursor::parse_fault::ParseFault;

// `accept` with its variables and `in`, where they stand.
pub fn accepts(cursor: &mut Cursor<'_>, nest: Nest) -> Result<Option<Declarations>, ParseFault>
    ensures read { IfOk result (λ a. Reads (nesting_of nest) (optional (quoted Mark.Accept ▸ part declarations ▸ quoted Mark.In)) cursor.old
        (accepts_tree a) cursor.new) }
    ensures halts { IfErr result (λ e.
        Halts e (nesting_of nest) (optional (quoted Mark.Accept ▸ part declarations ▸ quoted Mark.In)) cursor.old cursor.new) }
    ensures no_more { OnOk result (length cursor.new ≤ length cursor.old) }
{
    if cursor.at(Mark::Accept) {
        cursor.pass(nest, Mark::Accept)?;
        let declarations = declarations(cursor, nest)?;
        cursor.pass(nest, Mark::In)?;
        Ok(Some(declarations))
    } else {
        Ok(None)
    }
}
