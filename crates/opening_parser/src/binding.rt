// Variables with their values.

use data_parser::expressions::expression;
use lotos_ast::behaviour::Binding;
use lotos_ast::mark::Mark;
use lotos_ast::nest::Nest;
use syntax_cursor::cursor::Cursor;
use syntax_cursor::item::Item;
use syntax_cursor::parse_fault::ParseFault;

/// A variable with its value.
pub struct OneBinding;

impl Item for OneBinding {
    ghost use Rattle.lotos_ast.specs.Notation.{part, binding};
    ghost use Rattle.lotos_ast.specs.BehaviourTrees.{binding_tree};

    type Output = Binding;

    ghost syntax = { part binding };

    ghost tree = { binding_tree };

    fn begins(cursor: &Cursor<'_>) -> bool {
        cursor.at(Mark::Identifier)
    }

    fn read(cursor: &mut Cursor<'_>, nest: Nest) -> Result<Binding, ParseFault> {
        let place = cursor.place();
        let name = cursor.token(nest, Mark::Identifier)?;
        cursor.pass(nest, Mark::Colon)?;
        let sort = cursor.token(nest, Mark::Identifier)?;
        cursor.pass(nest, Mark::Equals)?;
        let value = expression(cursor, nest)?;
        Ok(Binding {
            place,
            name,
            sort,
            value,
        })
    }
}
