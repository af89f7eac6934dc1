// Refusals of tokens.

ghost use Rattle.std.specs.Prelude.{◌≡◌, IfOk};
ghost use Rattle.lotos_ast.specs.declared.fault.Fault.{Fault};
ghost use Rattle.lotos_ast.specs.Parsing.{place_behind, has_room, end_place, refusal_at};
ghost use Rattle.syntax_cursor.specs.Parsers.{Tells};

use crate::parse_fault::ParseFault;
use lotos_ast::fault::Fault;
use lotos_ast::names::Names;
use lotos_ast::place::Place;
use lotos_ast::refusal::{FrontFault, Refusal, RefusalKind};
use lotos_ast::token::Token;
use spec_core::memory::Memory;
use spec_core::name::Name;
use std::alloc::Global;

/// The refusal of these tokens, where reading stops before the rest of them.
pub fn refusal(alloc: Global, fault: ParseFault, tokens: &[Token], rest: &[Token]) -> FrontFault
    ensures { Tells result fault tokens.now rest.now }
{
    let made = match fault {
        ParseFault::Stopped(Fault::Unexpected) => unexpected(alloc, tokens, rest),
        ParseFault::Stopped(Fault::TooDeep) => Ok(too_deep(alloc, tokens, rest)),
        ParseFault::Stopped(Fault::External) => Ok(external(alloc, tokens, rest)),
        ParseFault::Memory => Err(Memory),
    };
    match made {
        Ok(refusal) => FrontFault::Refused(refusal),
        Err(Memory) => FrontFault::Memory,
    }
}

// No text goes on with the next token, or there is none.
fn unexpected(alloc: Global, tokens: &[Token], rest: &[Token]) -> Result<Refusal, Memory>
    ensures { IfOk result (λ refusal. refusal ≡ refusal_at Fault.Unexpected tokens.now rest.now) }
{
    let (place, name) = match rest {
        [] => (
            end_place(tokens),
            Name::new(String::from_str(alloc, "end of text")?),
        ),
        [first, ..] => (first.place, first.text.copy(alloc)?),
    };
    let mut names = Vec::new(alloc);
    names.push(name)?;
    Ok(Refusal {
        kind: RefusalKind::Unexpected,
        place,
        names: Names::new(names),
    })
}

// The next token is nested too deep.
fn too_deep(alloc: Global, tokens: &[Token], rest: &[Token]) -> Refusal
    ensures { result ≡ refusal_at Fault.TooDeep tokens.now rest.now }
{
    Refusal {
        kind: RefusalKind::TooDeep,
        place: next_place(tokens, rest),
        names: Names::none(alloc),
    }
}

// The next token marks an item as external.
fn external(alloc: Global, tokens: &[Token], rest: &[Token]) -> Refusal
    ensures { result ≡ refusal_at Fault.External tokens.now rest.now }
{
    Refusal {
        kind: RefusalKind::External,
        place: next_place(tokens, rest),
        names: Names::none(alloc),
    }
}

// The place of the next token, or the place behind the last one.
fn next_place(tokens: &[Token], rest: &[Token]) -> Place
    ensures { result ≡ (refusal_at Fault.TooDeep tokens.now rest.now).place }
{
    match rest {
        [] => end_place(tokens),
        [first, ..] => first.place,
    }
}

// The place behind the last of the tokens.
fn end_place(tokens: &[Token]) -> Place
    ensures { result ≡ end_place tokens.now }
{
    match tokens.last() {
        Some(token) => place_behind(token),
        None => Place::START,
    }
}

// The place behind a token.
fn place_behind(token: &Token) -> Place
    ensures { result ≡ place_behind token.now }
{
    let text = token.text.as_str().as_bytes();
    if has_room(token.place, text.len()) {
        token.place.after(text)
    } else {
        token.place
    }
}

// Whether the place behind so many bytes can be told.
fn has_room(place: Place, count: usize) -> bool
    ensures { result ≡ has_room place count }
{
    place.column > 0
        && u64::from(place.line) + u64::from(place.column) < (1 << 32)
        && (count as u64) < (1 << 32) - u64::from(place.line) - u64::from(place.column)
}
