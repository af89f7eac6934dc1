// Runs of operation bytes.

ghost use Rattle.std.specs.Prelude.{◌≡◌, ◌≤◌, length};
ghost use Rattle.std.specs.List.{prefix_len};
ghost use Rattle.lotos_ast.specs.Bytes.{is_operation_byte};
ghost use Rattle.lotos_ast.specs.Pieces.{operation_kind};

use crate::bytes::is_operation_byte;
use lotos_ast::mark::symbol;
use lotos_ast::token::TokenKind;

// How many operation bytes stand at the front.
pub fn operation_length(text: &[u8]) -> usize
    ensures run { result ≡ prefix_len is_operation_byte text.now }
    ensures within { result ≤ length text.now }
{
    let mut count = 0;
    for byte in text {
        if !is_operation_byte(*byte) {
            return count;
        }
        count += 1;
    }
    count
}

// The class of a run of operation bytes.
pub fn operation_kind(run: &[u8]) -> TokenKind
    ensures { result ≡ operation_kind run.now }
{
    if symbol(run).is_some() {
        TokenKind::Symbol
    } else {
        TokenKind::Operation
    }
}
