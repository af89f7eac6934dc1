// Texts that are a part of the grammar, whole.

ghost use Rattle.std.specs.Prelude.{◌≡◌, ◌≤◌, [], IfOk, OnOk, length, ℕ, List};
ghost use Rattle.lotos_ast.specs.declared.token.Token.{Token};
ghost use Rattle.lotos_ast.specs.Nesting.{outermost};
ghost use Rattle.lotos_ast.specs.Reads.{Tree, Reads};
ghost use Rattle.lotos_ast.specs.Tokenizes.{Tokenizes, text_limit};
ghost use Rattle.script_text.specs.Answers.{IfKind};
ghost use Rattle.script_text.specs.Texts.{IsTextOf, IsNoTextOf};

use crate::fault::LineFault;
use lotos_ast::nest::Nest;
use lotos_ast::refusal::FrontFault;
use lotos_ast::text_kind::TextKind;
use lotos_ast::token::Token;
use lotos_lexer::tokens;
use std::alloc::Global;
use syntax_cursor::cursor::Cursor;
use syntax_cursor::item::Item;
use syntax_cursor::parse_fault::ParseFault;

// The tokens of a text that isn't too long.
#[tactic(auto, using(crate::proofs::WholeTexts::whole_steps))]
fn cut(alloc: Global, text: &[u8]) -> Result<Vec<Token>, LineFault>
    ensures cut { IfOk result (λ all. Tokenizes text.now all.items) }
    ensures short { OnOk result (length text.now ≤ text_limit) }
    ensures none { IfKind result (λ kind. (all : List Token) → length text.now ≤ text_limit → Tokenizes text.now all → ⊥) }
    ensures form { IfKind result (λ kind. kind ≡ TextKind.Form) }
{
    match tokens(alloc, text) {
        Ok(all) => Ok(all),
        Err(FrontFault::Refused(_)) => Err(LineFault::Kind(TextKind::Form)),
        Err(FrontFault::Memory) => Err(LineFault::Memory),
    }
}

// What these tokens are, to the last one.
#[tactic(auto, using(crate::proofs::WholeTexts::whole_steps))]
fn all_read<I: Item>(alloc: Global, tokens: &[Token]) -> Result<I::Output, LineFault>
    ensures read { IfOk result (λ x. Reads outermost I.syntax tokens.now (I.tree x) []) }
    ensures none { IfKind result (λ kind. (tree : Tree) → Reads outermost I.syntax tokens.now tree [] → ⊥) }
    ensures form { IfKind result (λ kind. kind ≡ TextKind.Form) }
{
    let mut cursor = Cursor::new(alloc, tokens);
    match I::read(&mut cursor, Nest::outermost()) {
        Err(ParseFault::Stopped(_)) => Err(LineFault::Kind(TextKind::Form)),
        Err(ParseFault::Memory) => Err(LineFault::Memory),
        Ok(found) => {
            if cursor.rest().is_empty() {
                Ok(found)
            } else {
                Err(LineFault::Kind(TextKind::Form))
            }
        }
    }
}

// What a text is, whole.
#[tactic(auto, using(crate::proofs::WholeTexts::whole_steps))]
pub fn whole<I: Item>(alloc: Global, text: &[u8]) -> Result<I::Output, LineFault>
    ensures read { IfOk result (λ x. IsTextOf I.syntax text.now (I.tree x)) }
    ensures none { IfKind result (λ kind. IsNoTextOf I.syntax text.now) }
    ensures form { IfKind result (λ kind. kind ≡ TextKind.Form) }
{
    let tokens = cut(alloc, text)?;
    all_read::<I>(alloc, &tokens)
}
