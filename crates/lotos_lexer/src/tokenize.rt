// The tokens of a text.

ghost use Rattle.std.specs.Prelude.{◌≡◌, ◌<◌, ◌≤◌, List, length, string_bytes, IfOk, OnOk};
ghost use Rattle.lotos_ast.specs.declared.token.Token.{Token};
ghost use Rattle.lotos_ast.specs.declared.refusal.Refusal.{Refusal};
ghost use Rattle.lotos_ast.specs.Refusals.{IfRefused};
ghost use Rattle.lotos_ast.specs.Tokenizes.{Tokenizes, IsUnreadable, Refuses, text_limit, token_at, open_after};

use crate::piece::{Piece, first_piece};
use crate::refusals::{bad_byte, open_comment, too_long};
use lotos_ast::place::Place;
use lotos_ast::refusal::FrontFault;
use lotos_ast::token::{Token, TokenKind};
use spec_core::memory::Memory;
use spec_core::name::Name;
use std::alloc::Global;

/// The greatest number of bytes in a text.
pub const TEXT_LIMIT: usize = 4_194_304;

/// The tokens of a text.
///
/// A text of more than [`TEXT_LIMIT`] bytes is refused as `TooLong` at 1:1. Otherwise it is refused where the first byte
/// outside comments stands that begins no token, as `BadByte` with the byte in two hexadecimal digits, or the first
/// comment that has no end, as `OpenComment`.
#[tactic(auto, using(crate::proofs::Readable::too_long_at))]
pub fn tokens(alloc: Global, text: &[u8]) -> Result<Vec<Token>, FrontFault>
    // The tokens of a text that has some. It has no others, and nothing refuses it.
    ensures tokens { IfOk result (λ all. Tokenizes text.now all.items) }
    ensures within { OnOk result (length text.now ≤ text_limit) }
    ensures only { IfOk result (λ all. (others : List Token) → Tokenizes text.now others → others ≡ all.items) }
    ensures readable { OnOk result ((refusal : Refusal) → IsUnreadable text.now refusal → ⊥) }

    // The refusal of any other text. It has no other refusal, and no tokens unless it is too long.
    ensures refused { IfRefused result (IsUnreadable text.now) }
    ensures only_refusal { IfRefused result (λ refusal. (other : Refusal) → IsUnreadable text.now other → other ≡ refusal) }
    ensures no_tokens { IfRefused result (λ _. (all : List Token) → Tokenizes text.now all → text_limit < length text.now) }
{
    if text.len() > TEXT_LIMIT {
        return Err(FrontFault::Refused(too_long(alloc)));
    }
    spelled_tokens(alloc, text)
}

// The tokens of a text that isn't too long.
#[tactic(auto, using(crate::proofs::Steps::steps))]
fn spelled_tokens(alloc: Global, text: &[u8]) -> Result<Vec<Token>, FrontFault>
    requires { length text.now ≤ text_limit }
    ensures tokens { IfOk result (λ all. Tokenizes text.now all.items) }
    ensures refused { IfRefused result (Refuses text.now) }
{
    let mut all = Vec::new(alloc);
    let mut rest = text;
    let mut place = Place::START;
    let mut opened = false;
    'pieces: loop {
        match first_piece(rest, opened) {
            Piece::Nothing => return Ok(all),
            Piece::Gap(count) => {
                let (front, behind) = rest.split_at(count);
                place = place.after(front);
                rest = behind;
            }
            Piece::Spelling(kind, count) => {
                let (front, behind) = rest.split_at(count);
                all.push(token_at(alloc, kind, place, front)?)?;
                opened = open_after(opened, front);
                place = place.after(front);
                rest = behind;
            }
            Piece::Stray(byte) => return Err(FrontFault::Refused(bad_byte(alloc, byte, place)?)),
            Piece::Unclosed => return Err(FrontFault::Refused(open_comment(alloc, place))),
        }
    }
}

// The token that these bytes spell.
fn token_at(alloc: Global, kind: TokenKind, place: Place, bytes: &[u8]) -> Result<Token, Memory>
    ensures { IfOk result (λ token. token ≡ token_at kind place bytes.now) }
{
    let text = Name::new(String::from_utf8_lossy(alloc, bytes)?);
    Ok(Token { kind, place, text })
}

// Whether a `|[` is open behind a token, where one was open before it or not.
fn open_after(opened: bool, bytes: &[u8]) -> bool
    ensures { result ≡ open_after opened bytes.now }
{
    if bytes.starts_with(b"|[") {
        true
    } else if bytes.starts_with(b"]") {
        false
    } else {
        opened
    }
}
