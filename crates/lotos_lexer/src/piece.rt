// The piece at the front of a text.

ghost use Rattle.std.specs.Prelude.{◌≡◌, ◌+◌, ◌<◌, ◌≤◌, length, take};
ghost use Rattle.std.specs.List.{prefix_len};
ghost use Rattle.lotos_ast.specs.Bytes.{is_operation_byte};
ghost use Rattle.lotos_ast.specs.Pieces.{first_piece, word_piece, operation_piece, symbol_piece, comment_piece};
ghost use Rattle.lotos_ast.specs.Pieces.{comment_mark, comment_length, marked, word_rest, first_length, symbols_where};
ghost use Rattle.lotos_lexer.specs.Pieces.{piece_of, IsWithin};

use crate::bytes::{is_blank, is_letter_or_digit, is_operation_byte};
use crate::comment::{comment_mark, comment_rest};
use crate::operation::{operation_kind, operation_length};
use crate::symbol::symbol_length;
use crate::word::{word_kind, word_rest};
use lotos_ast::token::TokenKind;

// What stands at the front of a text.
#[derive(Clone, Copy)]
pub enum Piece {
    // The text is empty.
    Nothing,
    // A gap of so many bytes.
    Gap(usize),
    // A token of this class, which so many bytes spell.
    Spelling(TokenKind, usize),
    // A byte that begins no token.
    Stray(u8),
    // A comment that has no end.
    Unclosed,
}

// The piece at the front of a text, where a `|[` is open or not.
pub fn first_piece(text: &[u8], opened: bool) -> Piece
    ensures piece { piece_of result ≡ first_piece opened text.now }
    ensures within { IsWithin result (length text.now) }
{
    match text {
        [] => Piece::Nothing,
        [first, rest @ ..] => {
            if is_blank(*first) {
                Piece::Gap(1)
            } else if text.starts_with(b"(*") {
                comment_piece(text)
            } else if is_letter_or_digit(*first) {
                word_piece(*first, text, rest)
            } else if is_operation_byte(*first) {
                operation_piece(text)
            } else {
                symbol_piece(*first, text, opened)
            }
        }
    }
}

// The comment at the front of a text, which begins with its two bytes.
fn comment_piece(text: &[u8]) -> Piece
    requires { 2 ≤ length text.now }
    ensures piece { piece_of result ≡ comment_piece text.now (comment_length text.now) }
    ensures within { IsWithin result (length text.now) }
{
    let (_, inside) = text.split_at(2);
    match comment_rest(inside) {
        None => Piece::Unclosed,
        Some(count) => marked(text, 2 + count),
    }
}

// The comment of this length at the front of a text.
fn marked(text: &[u8], count: usize) -> Piece
    requires some { 0 < count }
    requires within { count ≤ length text.now }
    ensures piece { piece_of result ≡ marked (comment_mark (take count text.now)) count }
    ensures within { IsWithin result (length text.now) }
{
    let (comment, _) = text.split_at(count);
    match comment_mark(comment) {
        None => Piece::Gap(count),
        Some(kind) => Piece::Spelling(kind, count),
    }
}

// The word at the front of a text, which begins with this byte and goes on behind it.
fn word_piece(first: u8, text: &[u8], rest: &[u8]) -> Piece
    requires { length text.now ≡ 1 + length rest.now }
    ensures piece { piece_of result ≡ word_piece first text.now (1 + word_rest rest.now) }
    ensures within { IsWithin result (length text.now) }
{
    let count = 1 + word_rest(rest);
    let (word, _) = text.split_at(count);
    Piece::Spelling(word_kind(first, word), count)
}

// The run of operation bytes at the front of a text.
fn operation_piece(text: &[u8]) -> Piece
    requires { 0 < prefix_len is_operation_byte text.now }
    ensures piece { piece_of result ≡ operation_piece text.now (prefix_len is_operation_byte text.now) }
    ensures within { IsWithin result (length text.now) }
{
    let count = operation_length(text);
    let (run, _) = text.split_at(count);
    Piece::Spelling(operation_kind(run), count)
}

// The symbol at the front of a text, or its first byte.
fn symbol_piece(first: u8, text: &[u8], opened: bool) -> Piece
    ensures piece { piece_of result ≡ symbol_piece first (first_length text.now (symbols_where opened)) }
    ensures within { IsWithin result (length text.now) }
{
    match symbol_length(text, opened) {
        None => Piece::Stray(first),
        Some(count) => Piece::Spelling(TokenKind::Symbol, count),
    }
}
