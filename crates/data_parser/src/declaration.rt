// Declarations of variables.

ghost use Rattle.std.specs.Prelude.{◌≡◌, ◌<◌, IfOk, OnOk, IfErr, length};
ghost use Rattle.lotos_ast.specs.Notation.{part, declaration, declarations};
ghost use Rattle.lotos_ast.specs.Reads.{Reads};
ghost use Rattle.lotos_ast.specs.DeclarationTrees.{declaration_tree, declarations_tree};
ghost use Rattle.lotos_ast.specs.Nesting.{nesting_of};
ghost use Rattle.syntax_cursor.specs.Parsers.{Halts};

use lotos_ast::declaration::{Declaration, Declarations};
use lotos_ast::mark::Mark;
use lotos_ast::nest::Nest;
use syntax_cursor::cursor::Cursor;
use syntax_cursor::identifier::Identifier;
use syntax_cursor::item::Item;
use syntax_cursor::parse_fault::ParseFault;

/// Variables of one sort.
pub struct OneDeclaration;

impl Item for OneDeclaration {
    ghost use Rattle.lotos_ast.specs.Notation.{part, declaration};
    ghost use Rattle.lotos_ast.specs.DeclarationTrees.{declaration_tree};

    type Output = Declaration;

    ghost syntax = { part declaration };

    ghost tree = { declaration_tree };

    fn begins(cursor: &Cursor<'_>) -> bool {
        cursor.at(Mark::Identifier)
    }

    fn read(cursor: &mut Cursor<'_>, nest: Nest) -> Result<Declaration, ParseFault> {
        let place = cursor.place();
        let names = cursor.list::<Identifier>(nest)?;
        cursor.pass(nest, Mark::Colon)?;
        let sort = cursor.token(nest, Mark::Identifier)?;
        Ok(Declaration { place, names, sort })
    }
}

/// Variables with their sorts.
pub fn declarations(cursor: &mut Cursor<'_>, nest: Nest) -> Result<Declarations, ParseFault>
    ensures read { IfOk result (λ d. Reads (nesting_of nest) (part declarations) cursor.old (declarations_tree d) cursor.new) }
    ensures halts { IfErr result (λ e. Halts e (nesting_of nest) (part declarations) cursor.old cursor.new) }
    ensures fewer { OnOk result (length cursor.new < length cursor.old) }
{
    let place = cursor.place();
    let list = cursor.list::<OneDeclaration>(nest)?;
    Ok(Declarations { place, list })
}
