// Lists of sorts.

ghost use Rattle.std.specs.Prelude.{◌≡◌, ◌≤◌, ◌<◌, IfOk, OnOk, IfErr, length};
ghost use Rattle.lotos_ast.specs.Notation.{optional, part, sort_part};
ghost use Rattle.lotos_ast.specs.Grammar.{sort_list};
ghost use Rattle.lotos_ast.specs.Reads.{Reads};
ghost use Rattle.lotos_ast.specs.TypeTrees.{sort_list_tree, optional_sort_part_tree};
ghost use Rattle.lotos_ast.specs.Nesting.{nesting_of};
ghost use Rattle.syntax_cursor.specs.Parsers.{Halts};

use lotos_ast::mark::Mark;
use lotos_ast::nest::Nest;
use lotos_ast::types::{SortList, SortPart};
use syntax_cursor::cursor::Cursor;
use syntax_cursor::identifier::Identifier;
use syntax_cursor::parse_fault::ParseFault;

/// Sorts. A comma between two of them may be left out.
pub fn sort_list(cursor: &mut Cursor<'_>, nest: Nest) -> Result<SortList, ParseFault>
    ensures read { IfOk result (λ l. Reads (nesting_of nest) sort_list cursor.old (sort_list_tree l) cursor.new) }
    ensures halts { IfErr result (λ e. Halts e (nesting_of nest) sort_list cursor.old cursor.new) }
    ensures fewer { OnOk result (length cursor.new < length cursor.old) }
{
    let place = cursor.place();
    let names = cursor.loose_list::<Identifier>(nest)?;
    Ok(SortList { place, names })
}

/// The sorts that a type declares, where it does.
pub fn optional_sort_part(
    cursor: &mut Cursor<'_>,
    nest: Nest,
) -> Result<Option<SortPart>, ParseFault>
    ensures read { IfOk result (λ s. Reads (nesting_of nest) (optional (part sort_part)) cursor.old
        (optional_sort_part_tree s) cursor.new) }
    ensures halts { IfErr result (λ e. Halts e (nesting_of nest) (optional (part sort_part)) cursor.old cursor.new) }
    ensures no_more { OnOk result (length cursor.new ≤ length cursor.old) }
{
    if cursor.at(Mark::Sorts) {
        let place = cursor.place();
        cursor.pass(nest, Mark::Sorts)?;
        let sorts = sort_list(cursor, nest)?;
        Ok(Some(SortPart { place, sorts }))
    } else {
        Ok(None)
    }
}
