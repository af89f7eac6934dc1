// The types of the library that a text takes in.

ghost use Rattle.std.specs.Prelude.{◌≡◌, ◌++◌, ◌∷◌, [], IfOk, OnOk, map, length};
ghost use Rattle.std.specs.List.{flat_map};
ghost use Rattle.lotos_ast.specs.ListTrees.{repeated_tree};
ghost use Rattle.lotos_ast.specs.Notation.{part, repeated, type_definition};
ghost use Rattle.lotos_ast.specs.Parsing.{IsParsedBetween};
ghost use Rattle.lotos_ast.specs.TypeTrees.{type_def_tree};
ghost use Rattle.static_check.specs.Listed.{is_same_name};
ghost use Rattle.library_text.specs.Texts.{boolean_text, natural_text};
ghost use Rattle.type_names.specs.UnknownTypes.{library_names};
ghost use Rattle.lotos_front.specs.Libraries as libraries;
ghost use Rattle.lotos_front.specs.Libraries.{library_texts, AreLibraryTypes, AreTakenIn, AreWithLibrary};

use behaviour_parser::types;
use library_text::{boolean, natural};
use lotos_ast::place::Place;
use lotos_ast::token::Token;
use lotos_ast::types::TypeDef;
use lotos_lexer::tokens;
use spec_core::memory::Memory;
use std::alloc::Global;
use type_names::names::all_library_names;

// The token in line 0.
fn in_line_0(token: Token) -> Token
    ensures { result ≡ libraries.in_line_0 token }
{
    Token {
        kind: token.kind,
        place: Place {
            line: 0,
            column: token.place.column,
        },
        text: token.text,
    }
}

// The tokens in line 0.
fn all_in_line_0(alloc: Global, tokens: Vec<Token>) -> Result<Vec<Token>, Memory>
    ensures { IfOk result (λ all. all.items ≡ map libraries.in_line_0 tokens.items) }
{
    let mut all = Vec::new(alloc);
    for token in tokens {
        all.push(in_line_0(token))?;
    }
    Ok(all)
}

// The types that these tokens of a text are, all of them.
fn whole_types(alloc: Global, tokens: &[Token]) -> Result<Vec<TypeDef>, Memory>
    ensures { IfOk result (λ all. IsParsedBetween (repeated (part type_definition)) tokens.now 0
        (repeated_tree (map type_def_tree all.items)) (length tokens.now)) }
{
    match types(alloc, tokens, 0) {
        Err(_) => Err(Memory),
        Ok((all, after)) => {
            if after != tokens.len() {
                return Err(Memory);
            }
            Ok(all)
        }
    }
}

// The types that a text of the library defines. That the texts of the library are read is tested: where one weren't, want of memory would
// be answered.
fn library_types(alloc: Global, text: &str) -> Result<Vec<TypeDef>, Memory>
    ensures { IfOk result (λ all. AreLibraryTypes text.now all.items) }
{
    match tokens(alloc, text.as_bytes()) {
        Err(_) => Err(Memory),
        Ok(found) => {
            let found = all_in_line_0(alloc, found)?;
            whole_types(alloc, &found)
        }
    }
}

// Adds further types.
fn add_all(all: &mut Vec<TypeDef>, more: Vec<TypeDef>) -> Result<(), Memory>
    ensures { OnOk result (all.new.items ≡ all.old.items ++ more.items) }
{
    for one in more {
        all.push(one)?;
    }
    Ok(())
}

// The types of the text of Boolean.
#[tactic(auto, using(crate::proofs::TakenIn::one_text))]
fn booleans(alloc: Global) -> Result<Vec<TypeDef>, Memory>
    ensures { IfOk result (λ all. AreTakenIn (boolean_text ∷ []) all.items) }
{
    library_types(alloc, boolean())
}

// The types of the texts of Boolean and NaturalNumber.
#[tactic(auto, using(crate::proofs::TakenIn::two_texts))]
fn natural_numbers(alloc: Global) -> Result<Vec<TypeDef>, Memory>
    ensures { IfOk result (λ all. AreTakenIn (boolean_text ∷ natural_text ∷ []) all.items) }
{
    let mut all = library_types(alloc, boolean())?;
    add_all(&mut all, library_types(alloc, natural())?)?;
    Ok(all)
}

// Whether the token is this name.
fn has_name(token: &Token, word: &str) -> bool
    ensures { result ≡ is_same_name token.now.text word.now }
{
    token.text.as_str().eq_ignore_ascii_case(word)
}

// Whether one of the names is this one.
fn is_named(names: &[&Token], word: &str) -> bool
    ensures { result ≡ libraries.is_named (map (λ t. t.now) names.now) word.now }
{
    for name in names {
        if has_name(name, word) {
            return true;
        }
    }
    false
}

// The types of the library that are taken in where its types are named so.
fn libraries(alloc: Global, names: &[&Token]) -> Result<Vec<TypeDef>, Memory>
    ensures { IfOk result (λ all. AreTakenIn (library_texts (map (λ t. t.now) names.now)) all.items) }
{
    if is_named(names, "NaturalNumber") {
        natural_numbers(alloc)
    } else if is_named(names, "Boolean") {
        booleans(alloc)
    } else {
        Ok(Vec::new(alloc))
    }
}

// The types of the library that these types take in.
fn taken_in(alloc: Global, own: &[TypeDef]) -> Result<Vec<TypeDef>, Memory>
    ensures { IfOk result (λ all. AreTakenIn (library_texts (flat_map library_names own.now)) all.items) }
{
    let names = all_library_names(alloc, own)?;
    libraries(alloc, &names)
}

/// The types, and before them those of the library that their `library` parts name, each once and behind what it imports. The types of the
/// library stand in line 0.
pub fn with_library(alloc: Global, own: Vec<TypeDef>) -> Result<Vec<TypeDef>, Memory>
    ensures { IfOk result (λ all. AreWithLibrary own.items all.items) }
{
    let mut all = taken_in(alloc, &own)?;
    add_all(&mut all, own)?;
    Ok(all)
}
