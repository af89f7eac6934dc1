// Tokens.

ghost use Rattle.std.specs.Prelude.{◌≡◌, IfOk};
ghost use Rattle.lotos_ast.specs.TokenMarks.{mark_of};

use crate::mark::{Mark, keyword, symbol};
use crate::place::Place;
use spec_core::memory::Memory;
use spec_core::name::Name;
use std::alloc::Global;

/// The class of a token.
#[derive(Clone, Copy, Debug, PartialEq, Eq)]
pub enum TokenKind {
    /// A reserved word.
    Keyword,
    /// A word that begins with a letter and isn't reserved.
    Identifier,
    /// A word that begins with a digit.
    Numeral,
    /// A run of operation characters that is no symbol.
    Operation,
    /// A symbol, as `[]` or `;`.
    Symbol,
    /// A comment that marks the operation before it as a constructor.
    ConstructorMark,
    /// A comment that says that an item is external.
    ExternalMark,
}

/// A token of a text.
#[derive(Drop)]
pub struct Token {
    /// Its class.
    pub kind: TokenKind,
    /// The place of its first byte.
    pub place: Place,
    /// How it is spelled in the text; U+FFFD stands for bytes that aren't UTF-8, which only a comment has.
    pub text: Name,
}

impl Token {
    /// What the token is to the grammar. It takes no memory.
    pub fn mark(&self) -> Mark
        ensures { result ≡ mark_of self.now }
    {
        match self.kind {
            TokenKind::Keyword => keyword(self.text.as_str().as_bytes()).unwrap_or(Mark::Unknown),
            TokenKind::Identifier => Mark::Identifier,
            TokenKind::Numeral => Mark::Numeral,
            TokenKind::Operation => Mark::Operation,
            TokenKind::Symbol => symbol(self.text.as_str().as_bytes()).unwrap_or(Mark::Unknown),
            TokenKind::ConstructorMark => Mark::ConstructorMark,
            TokenKind::ExternalMark => Mark::ExternalMark,
        }
    }

    /// An equal token.
    pub fn copy(&self, alloc: Global) -> Result<Token, Memory>
        ensures { IfOk result (λ token. token ≡ self.now) }
    {
        Ok(Token {
            kind: self.kind,
            place: self.place,
            text: self.text.copy(alloc)?,
        })
    }
}
