// Lines of scripts as they are written.

ghost use Rattle.std.specs.Prelude.{◌≡◌, ◌≤◌, IfOk, OnOk, IfErr, length};
ghost use Rattle.lotos_ast.specs.ListTrees.{optional_token_tree};
ghost use Rattle.lotos_ast.specs.Nesting.{nesting_of};
ghost use Rattle.lotos_ast.specs.Notation.{optional, identifier};
ghost use Rattle.lotos_ast.specs.Reads.{Reads};
ghost use Rattle.syntax_cursor.specs.Parsers.{Halts};

use data_parser::expressions::expression;
use lotos_ast::expression::Expr;
use lotos_ast::mark::Mark;
use lotos_ast::nest::Nest;
use lotos_ast::token::Token;
use syntax_cursor::cursor::Cursor;
use syntax_cursor::item::Item;
use syntax_cursor::parse_fault::ParseFault;

// A field of an offer.
#[derive(Drop)]
pub enum WrittenField {
    // `!expression`
    Value(Expr),
    // `?Sort`
    Sort(Token),
}

// A line that is no remark.
#[derive(Drop)]
pub struct WrittenLine {
    // The digits of the client.
    pub client: Token,
    // The gate; where a second identifier is there, the word before the gate.
    pub word: Token,
    // The gate, where a word stands before it.
    pub gate: Option<Token>,
    // The fields.
    pub fields: Vec<WrittenField>,
}

// A field of an offer.
pub struct OneField;

impl Item for OneField {
    ghost use Rattle.script_text.specs.Views.{field_tree};
    ghost use Rattle.script_text.specs.Written.{wish_field};

    type Output = WrittenField;

    ghost syntax = { wish_field };

    ghost tree = { field_tree };

    fn begins(cursor: &Cursor<'_>) -> bool {
        cursor.at(Mark::Exclamation) || cursor.at(Mark::Question)
    }

    fn read(cursor: &mut Cursor<'_>, nest: Nest) -> Result<WrittenField, ParseFault> {
        if cursor.at(Mark::Exclamation) {
            cursor.pass(nest, Mark::Exclamation)?;
            let value = expression(cursor, nest)?;
            Ok(WrittenField::Value(value))
        } else {
            cursor.pass(nest, Mark::Question)?;
            let sort = cursor.token(nest, Mark::Identifier)?;
            Ok(WrittenField::Sort(sort))
        }
    }
}

// An identifier, where one stands.
fn optional_identifier(cursor: &mut Cursor<'_>, nest: Nest) -> Result<Option<Token>, ParseFault>
    ensures read { IfOk result (λ token. Reads (nesting_of nest) (optional identifier) cursor.old (optional_token_tree token) cursor.new) }
    ensures halts { IfErr result (λ e. Halts e (nesting_of nest) (optional identifier) cursor.old cursor.new) }
    ensures no_more { OnOk result (length cursor.new ≤ length cursor.old) }
{
    if cursor.at(Mark::Identifier) {
        Ok(Some(cursor.token(nest, Mark::Identifier)?))
    } else {
        Ok(None)
    }
}

// A line that is no remark.
pub struct OneLine;

impl Item for OneLine {
    ghost use Rattle.script_text.specs.Views.{line_tree};
    ghost use Rattle.script_text.specs.Written.{wish_line};

    type Output = WrittenLine;

    ghost syntax = { wish_line };

    ghost tree = { line_tree };

    fn begins(cursor: &Cursor<'_>) -> bool {
        cursor.at(Mark::Numeral)
    }

    fn read(cursor: &mut Cursor<'_>, nest: Nest) -> Result<WrittenLine, ParseFault> {
        let client = cursor.token(nest, Mark::Numeral)?;
        cursor.pass(nest, Mark::Colon)?;
        let word = cursor.token(nest, Mark::Identifier)?;
        let gate = optional_identifier(cursor, nest)?;
        let fields = cursor.repeated::<OneField>(nest)?;
        Ok(WrittenLine {
            client,
            word,
            gate,
            fields,
        })
    }
}

// A gate and fields.
#[derive(Drop)]
pub struct WrittenOffer {
    // The gate.
    pub gate: Token,
    // The fields.
    pub fields: Vec<WrittenField>,
}

// An offer without its client.
pub struct OneOffer;

impl Item for OneOffer {
    ghost use Rattle.script_text.specs.Views.{offer_tree};
    ghost use Rattle.script_text.specs.Written.{wish_offer};

    type Output = WrittenOffer;

    ghost syntax = { wish_offer };

    ghost tree = { offer_tree };

    fn begins(cursor: &Cursor<'_>) -> bool {
        cursor.at(Mark::Identifier)
    }

    fn read(cursor: &mut Cursor<'_>, nest: Nest) -> Result<WrittenOffer, ParseFault> {
        let gate = cursor.token(nest, Mark::Identifier)?;
        let fields = cursor.repeated::<OneField>(nest)?;
        Ok(WrittenOffer { gate, fields })
    }
}

// An expression.
pub struct OneExpression;

impl Item for OneExpression {
    ghost use Rattle.lotos_ast.specs.ExpressionTrees.{expr_tree};
    ghost use Rattle.lotos_ast.specs.Notation as notation;
    ghost use Rattle.lotos_ast.specs.Notation.{part};

    type Output = Expr;

    ghost syntax = { part notation.expression };

    ghost tree = { expr_tree };

    fn begins(cursor: &Cursor<'_>) -> bool {
        cursor.at_expression()
    }

    fn read(cursor: &mut Cursor<'_>, nest: Nest) -> Result<Expr, ParseFault> {
        let read = expression(cursor, nest)?;
        Ok(read)
    }
}
