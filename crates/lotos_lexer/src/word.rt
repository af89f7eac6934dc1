// Words.

ghost use Rattle.std.specs.Prelude.{◌≡◌, ◌≤◌, length};
ghost use Rattle.lotos_ast.specs.Pieces.{word_rest, word_kind};

use crate::bytes::{is_letter_or_digit, is_low_line};
use lotos_ast::mark::keyword;
use lotos_ast::token::TokenKind;

// How many bytes go on a word.
pub fn word_rest(text: &[u8]) -> usize
    ensures rest { result ≡ word_rest text.now }
    ensures within { result ≤ length text.now }
{
    let mut count = 0;
    let mut end = 0;
    for byte in text {
        count += 1;
        if is_letter_or_digit(*byte) {
            end = count;
        } else if !is_low_line(*byte) {
            return end;
        }
    }
    end
}

// The class of a word that begins with this byte.
pub fn word_kind(first: u8, word: &[u8]) -> TokenKind
    ensures { result ≡ word_kind first word.now }
{
    if keyword(word).is_some() {
        TokenKind::Keyword
    } else if first.is_ascii_digit() {
        TokenKind::Numeral
    } else {
        TokenKind::Identifier
    }
}
