// Parsing from a token on.

use data_parser::{expression, types};
use lotos_ast::refusal::FrontFault;
use lotos_lexer::tokens;
use spec_core::memory::Memory;
use std::alloc::Global;
use std::test::Fail;

// How many tokens are left, or the number of the refusal.
fn describe(alloc: Global, parsed: Result<usize, FrontFault>) -> Result<String, Memory> {
    match parsed {
        Ok(left) => Ok(format!(in alloc; "{left} left")?),
        Err(FrontFault::Refused(refusal)) => {
            let number = refusal.number();
            let column = refusal.place.column;
            Ok(format!(in alloc; "{number} at {column}")?)
        }
        Err(FrontFault::Memory) => Err(Memory),
    }
}

// What the parser of expressions answers of the tokens from a number on.
fn parse_expression(alloc: Global, text: &str, from: usize) -> Result<String, Memory> {
    let Ok(all) = tokens(alloc, text.as_bytes()) else {
        return Err(Memory);
    };
    if from > all.len() {
        return Err(Memory);
    }
    match expression(alloc, &all, from) {
        Ok((_, after)) => describe(alloc, Ok(all.len() - after)),
        Err(fault) => describe(alloc, Err(fault)),
    }
}

// What the parser of types answers of them.
fn parse_types(alloc: Global, text: &str, from: usize) -> Result<String, Memory> {
    let Ok(all) = tokens(alloc, text.as_bytes()) else {
        return Err(Memory);
    };
    if from > all.len() {
        return Err(Memory);
    }
    match types(alloc, &all, from) {
        Ok((_, after)) => describe(alloc, Ok(all.len() - after)),
        Err(fault) => describe(alloc, Err(fault)),
    }
}

// A text, the number of its first token, and what comes of it.
type Row = (&'static str, usize, &'static str);

const TYPES: [Row; 5] = [
    ("x library A endlib y", 1, "1 left"),
    ("x library A endlib y", 2, "3 left"),
    ("library A endlib", 3, "0 left"),
    ("specification S : noexit behaviour", 4, "1 left"),
    ("specification S : noexit behaviour", 3, "2 left"),
];

const EXPRESSIONS: [Row; 6] = [
    ("x y z", 0, "0 left"),
    ("x y z", 2, "0 left"),
    ("x y z", 1, "3 at 6"),
    ("x y", 2, "3 at 4"),
    ("; x ;", 1, "1 left"),
    ("; x ;", 2, "3 at 5"),
];

#[test]
fn parsing_begins_at_a_token(rt: HostRuntime) -> Result<(), Fail> {
    for (text, from, due) in &TYPES {
        let found = parse_types(rt.alloc(), text, *from)?;
        assert_eq!(rt; found.as_str(), *due, "at {text}");
    }
    for (text, from, due) in &EXPRESSIONS {
        let found = parse_expression(rt.alloc(), text, *from)?;
        assert_eq!(rt; found.as_str(), *due, "at {text}");
    }
    Ok(())
}
