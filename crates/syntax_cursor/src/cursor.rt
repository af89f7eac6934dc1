// The tokens that are left to read.

ghost use Rattle.std.specs.Prelude.{◌≡◌, ◌∷◌, [], MatchOption, IfOk, OnOk, IfErr, Some, length, ◌<◌};
ghost use Rattle.lotos_ast.specs.MarkNumbers.{is_same_mark};
ghost use Rattle.lotos_ast.specs.Notation.{quoted, kept, marked, named, fits};
ghost use Rattle.lotos_ast.specs.Nesting.{nesting_of, is_within, fault_at};
ghost use Rattle.lotos_ast.specs.Reads.{Reads, unkept, leaf};
ghost use Rattle.lotos_ast.specs.Begins.{mark_at, place_at, begins_expression};
ghost use Rattle.syntax_cursor.specs.Parsers.{reason_of, Halts};

use crate::parse_fault::ParseFault;
use lotos_ast::fault::Fault;
use lotos_ast::mark::Mark;
use lotos_ast::nest::Nest;
use lotos_ast::place::Place;
use lotos_ast::token::Token;
use std::alloc::Global;
use std::marker::Model;

/// The tokens that are left to read, which a contract sees as the list of them.
#[derive(Drop)]
pub struct Cursor<'a> {
    alloc: Global,
    rest: &'a [Token],
}

impl<'a> Model for Cursor<'a> {
    ghost use Rattle.std.specs.Prelude.{List};
    ghost use Rattle.lotos_ast.specs.declared.token.Token.{Token};

    ghost Value = { List Token };

    ghost view = { λ cursor. cursor.rest.now };
}

impl<'a> Cursor<'a> {
    /// A cursor before these tokens. It takes no memory.
    pub fn new(alloc: Global, tokens: &'a [Token]) -> Cursor<'a>
        ensures { result ≡ tokens.now }
    {
        Cursor {
            alloc,
            rest: tokens,
        }
    }

    /// Where the trees are kept.
    pub fn alloc(&self) -> Global {
        self.alloc
    }

    /// The tokens that are left. It takes no memory.
    pub fn rest(&self) -> &'a [Token]
        ensures { result.now ≡ self.now }
    {
        self.rest
    }

    /// What the next token is to the grammar. It takes no memory.
    pub fn peek(&self) -> Mark
        ensures { result ≡ mark_at self.now }
    {
        match self.rest {
            [] => Mark::End,
            [first, ..] => first.mark(),
        }
    }

    /// The place of the next token; where there is none, line 0 and column 0. It takes no memory.
    pub fn place(&self) -> Place
        ensures { result ≡ place_at self.now }
    {
        match self.rest {
            [] => Place { line: 0, column: 0 },
            [first, ..] => first.place,
        }
    }

    /// Whether the next token has this mark. It takes no memory.
    pub fn at(&self, mark: Mark) -> bool
        ensures { result ≡ is_same_mark mark (mark_at self.now) }
    {
        mark.is_same(self.peek())
    }

    /// Whether the next token is a name of an operation or a variable. It takes no memory.
    pub fn at_name(&self) -> bool
        ensures { result ≡ fits named (mark_at self.now) }
    {
        self.at(Mark::Identifier) || self.at(Mark::Numeral) || self.at(Mark::Operation)
    }

    /// Whether an expression begins with the next token. It takes no memory.
    pub fn at_expression(&self) -> bool
        ensures { result ≡ begins_expression (mark_at self.now) }
    {
        self.at(Mark::LeftParenthesis) || self.at_name()
    }

    // Why no text goes on with the next token.
    fn unexpected(&self, nest: Nest) -> ParseFault
        ensures { reason_of result ≡ Some (fault_at (is_within (nesting_of nest)) (mark_at self.now)) }
    {
        ParseFault::Stopped(Fault::at(nest.is_within(), self.peek()))
    }

    // Takes the next token.
    fn take(&mut self) -> Option<&'a Token>
        ensures { MatchOption result ((self.old ≡ []) × (self.new ≡ [])) (λ token. self.old ≡ token.now ∷ self.new) }
    {
        match self.rest {
            [] => None,
            [first, rest @ ..] => {
                self.rest = rest;
                Some(first)
            }
        }
    }

    /// Passes over a token that no tree keeps. It takes no memory.
    #[tactic(auto, using(crate::proofs::Steps::token_steps))]
    pub fn pass(&mut self, nest: Nest, mark: Mark) -> Result<(), ParseFault>
        ensures read { OnOk result (Reads (nesting_of nest) (quoted mark) self.old unkept self.new) }
        ensures halts { IfErr result (λ e. Halts e (nesting_of nest) (quoted mark) self.old self.new) }
        ensures fewer { OnOk result (length self.new < length self.old) }
    {
        if !self.at(mark) {
            return Err(self.unexpected(nest));
        }
        if !nest.is_within() {
            return Err(ParseFault::Stopped(Fault::TooDeep));
        }
        match self.take() {
            Some(_) => Ok(()),
            None => Err(ParseFault::Memory),
        }
    }

    /// A token with this mark.
    #[tactic(auto, using(crate::proofs::Steps::token_steps))]
    pub fn token(&mut self, nest: Nest, mark: Mark) -> Result<Token, ParseFault>
        ensures read { IfOk result (λ token. Reads (nesting_of nest) (kept (marked mark)) self.old (leaf token) self.new) }
        ensures halts { IfErr result (λ e. Halts e (nesting_of nest) (kept (marked mark)) self.old self.new) }
        ensures fewer { OnOk result (length self.new < length self.old) }
    {
        if !self.at(mark) {
            return Err(self.unexpected(nest));
        }
        if !nest.is_within() {
            return Err(ParseFault::Stopped(Fault::TooDeep));
        }
        match self.take() {
            Some(token) => Ok(token.copy(self.alloc)?),
            None => Err(ParseFault::Memory),
        }
    }

    /// A name of an operation or a variable.
    #[tactic(auto, using(crate::proofs::Steps::token_steps))]
    pub fn name(&mut self, nest: Nest) -> Result<Token, ParseFault>
        ensures read { IfOk result (λ token. Reads (nesting_of nest) (kept named) self.old (leaf token) self.new) }
        ensures halts { IfErr result (λ e. Halts e (nesting_of nest) (kept named) self.old self.new) }
        ensures fewer { OnOk result (length self.new < length self.old) }
    {
        if !self.at_name() {
            return Err(self.unexpected(nest));
        }
        if !nest.is_within() {
            return Err(ParseFault::Stopped(Fault::TooDeep));
        }
        match self.take() {
            Some(token) => Ok(token.copy(self.alloc)?),
            None => Err(ParseFault::Memory),
        }
    }
}
