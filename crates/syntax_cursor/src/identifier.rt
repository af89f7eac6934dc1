// Identifiers as items.

ghost use Rattle.std.specs.Prelude.{◌≡◌, ◌≤◌, IfOk, OnOk, IfErr, length};
ghost use Rattle.lotos_ast.specs.Notation.{optional, identifier, list};
ghost use Rattle.lotos_ast.specs.Reads.{Reads};
ghost use Rattle.lotos_ast.specs.ListTrees.{optional_list_tree};
ghost use Rattle.lotos_ast.specs.Nesting.{nesting_of};
ghost use Rattle.syntax_cursor.specs.Parsers.{Halts};

use crate::cursor::Cursor;
use crate::item::Item;
use crate::parse_fault::ParseFault;
use lotos_ast::mark::Mark;
use lotos_ast::nest::Nest;
use lotos_ast::token::Token;

/// An identifier.
pub struct Identifier;

impl Item for Identifier {
    ghost use Rattle.lotos_ast.specs.Notation.{identifier};
    ghost use Rattle.lotos_ast.specs.Reads.{leaf};

    type Output = Token;

    ghost syntax = { identifier };

    ghost tree = { leaf };

    fn begins(cursor: &Cursor<'_>) -> bool {
        cursor.at(Mark::Identifier)
    }

    fn read(cursor: &mut Cursor<'_>, nest: Nest) -> Result<Token, ParseFault> {
        cursor.token(nest, Mark::Identifier)
    }
}

impl<'a> Cursor<'a> {
    /// Identifiers with commas between them, where they stand.
    pub fn optional_identifiers(&mut self, nest: Nest) -> Result<Option<Vec<Token>>, ParseFault>
        ensures read { IfOk result (λ all. Reads (nesting_of nest) (optional (list identifier)) self.old
            (optional_list_tree all) self.new) }
        ensures halts { IfErr result (λ e. Halts e (nesting_of nest) (optional (list identifier)) self.old self.new) }
        ensures no_more { OnOk result (length self.new ≤ length self.old) }
    {
        if self.at(Mark::Identifier) {
            Ok(Some(self.list::<Identifier>(nest)?))
        } else {
            Ok(None)
        }
    }
}
