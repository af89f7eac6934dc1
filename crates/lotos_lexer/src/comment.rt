// Comments.

ghost use Rattle.std.specs.Prelude.{◌≡◌, ◌≤◌, IfSome, length, take};
ghost use Rattle.std.specs.List.{prefix_len};
ghost use Rattle.lotos_ast.specs.Bytes.{is_word_byte};
ghost use Rattle.lotos_ast.specs.Pieces.{comment_rest, has_word, comment_mark};

use crate::bytes::is_word_byte;
use lotos_ast::mark::is_same_word;
use lotos_ast::token::TokenKind;

// How many bytes go on a comment, up to the next `*)` and with it.
#[tactic(auto, using(crate::proofs::CommentLength::comment_rest_behind))]
pub fn comment_rest(text: &[u8]) -> Option<usize>
    ensures rest { result ≡ comment_rest text.now }
    ensures within { IfSome result (λ n. n ≤ length text.now) }
{
    for index in 0..text.len() {
        if text[index..].starts_with(b"*)") {
            return Some(index + 2);
        }
    }
    None
}

// What a comment marks.
pub fn comment_mark(comment: &[u8]) -> Option<TokenKind>
    ensures { result ≡ comment_mark comment.now }
{
    if !comment.starts_with(b"(*!") {
        None
    } else if has_word(b"external", comment) {
        Some(TokenKind::ExternalMark)
    } else if has_word(b"constructor", comment) {
        Some(TokenKind::ConstructorMark)
    } else {
        None
    }
}

// Whether a text has a word, letters compared without case.
fn has_word(word: &[u8], text: &[u8]) -> bool
    ensures { result ≡ has_word word.now text.now }
{
    let mut within = false;
    for (index, byte) in text.iter().enumerate() {
        if is_word_byte(*byte) && !within && is_same_word(first_word(&text[index..]), word) {
            return true;
        }
        within = is_word_byte(*byte);
    }
    false
}

// The word at the front of a text.
fn first_word(text: &[u8]) -> &[u8]
    ensures { result.now ≡ take (prefix_len is_word_byte text.now) text.now }
{
    let mut count = 0;
    for byte in text {
        if !is_word_byte(*byte) {
            break;
        }
        count += 1;
    }
    &text[..count]
}
