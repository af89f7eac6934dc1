// Values that an action offers.

use data_parser::expressions::expression;
use lotos_ast::behaviour::Offer;
use lotos_ast::mark::Mark;
use lotos_ast::nest::Nest;
use syntax_cursor::cursor::Cursor;
use syntax_cursor::identifier::Identifier;
use syntax_cursor::item::Item;
use syntax_cursor::parse_fault::ParseFault;

/// Values that an action offers.
pub struct OneOffer;

impl Item for OneOffer {
    ghost use Rattle.lotos_ast.specs.Notation.{part, offer};
    ghost use Rattle.lotos_ast.specs.BehaviourTrees.{offer_tree};

    type Output = Offer;

    ghost syntax = { part offer };

    ghost tree = { offer_tree };

    fn begins(cursor: &Cursor<'_>) -> bool {
        cursor.at(Mark::Exclamation) || cursor.at(Mark::Question)
    }

    fn read(cursor: &mut Cursor<'_>, nest: Nest) -> Result<Offer, ParseFault> {
        let place = cursor.place();
        if cursor.at(Mark::Exclamation) {
            cursor.pass(nest, Mark::Exclamation)?;
            let value = expression(cursor, nest)?;
            Ok(Offer::Value { place, value })
        } else {
            cursor.pass(nest, Mark::Question)?;
            let names = cursor.list::<Identifier>(nest)?;
            cursor.pass(nest, Mark::Colon)?;
            let sort = cursor.token(nest, Mark::Identifier)?;
            Ok(Offer::Variables { place, names, sort })
        }
    }
}
