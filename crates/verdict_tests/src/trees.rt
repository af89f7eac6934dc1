// Trees of rules from words: each rule before the trees of its parts.

use rule_model::rules::{Rules, Slot, Slots};
use spec_core::items::Op;
use spec_core::memory::Memory;
use spec_core::value::Value;
use std::alloc::Global;

// An operation of the data of these tests, by its name.
fn operation(letter: char) -> Option<Op> {
    match letter {
        't' => Some(Op(0)),
        'f' => Some(Op(1)),
        '0' => Some(Op(2)),
        's' => Some(Op(3)),
        'z' => Some(Op(5)),
        'c' => Some(Op(6)),
        _ => None,
    }
}

// A chosen value by the names of its operations, `?` for a mark and `_` for a blank.
fn slot(alloc: Global, word: &str) -> Result<Slot, Memory> {
    match word {
        "?" => Ok(Slot::Mark),
        "_" => Ok(Slot::Blank),
        _ => {
            let mut ops = Vec::new(alloc);
            for letter in word.chars() {
                if let Some(op) = operation(letter) {
                    ops.push(op)?;
                }
            }
            Ok(Slot::Of(Value::new(ops)))
        }
    }
}

// Chosen values after the name of a rule, each behind a colon.
fn slots(alloc: Global, word: &str) -> Result<Vec<Slot>, Memory> {
    let mut all = Vec::new(alloc);
    for piece in word.split(':').skip(1) {
        all.push(slot(alloc, piece)?)?;
    }
    Ok(all)
}

// The chosen value after the name of a rule.
fn first_slot(alloc: Global, word: &str) -> Result<Slot, Memory> {
    let mut all = slots(alloc, word)?;
    match all.pop() {
        None => Ok(Slot::Blank),
        Some(first) => Ok(first),
    }
}

// The name of a rule, before what it chooses.
fn name(word: &str) -> &str {
    match word.split(':').next() {
        None => word,
        Some(first) => first,
    }
}

// The rule over the tree of its part.
fn over(alloc: Global, word: &str, part: Rules) -> Result<Rules, Memory> {
    match name(word) {
        "chl" => Rules::chl(alloc, part),
        "chr" => Rules::chr(alloc, part),
        "val" => Rules::val(alloc, first_slot(alloc, word)?, part),
        "gate1" => Rules::gate(alloc, 1, part),
        "gate2" => Rules::gate(alloc, 2, part),
        "guard" => Rules::guard(alloc, part),
        "let" => Rules::letting(alloc, part),
        "parl" => Rules::parl(alloc, part),
        "parr" => Rules::parr(alloc, part),
        "hide" => Rules::hiding(alloc, part),
        "pass" => Rules::pass(alloc, part),
        "enstep" => Rules::enstep(alloc, part),
        "enend" => Rules::enend(alloc, part),
        "disstep" => Rules::disstep(alloc, part),
        "disend" => Rules::disend(alloc, part),
        "distake" => Rules::distake(alloc, part),
        "call" => Rules::calling(alloc, part),
        "rel" => Rules::rel(alloc, part),
        _ => Ok(part),
    }
}

// The tree of a rule without parts.
fn leaf(alloc: Global, word: &str) -> Result<Option<Rules>, Memory> {
    match name(word) {
        "pre" => Ok(Some(Rules::Pre(Slots::new(slots(alloc, word)?)))),
        "int" => Ok(Some(Rules::Int)),
        "exit" => Ok(Some(Rules::Exit(Slots::new(slots(alloc, word)?)))),
        _ => Ok(None),
    }
}

// Adds the tree of one more word, before those that were read already: the last one is the next part.
fn add(alloc: Global, word: &str, trees: &mut Vec<Rules>) -> Result<(), Memory> {
    if let Some(tree) = leaf(alloc, word)? {
        trees.push(tree)?;
        return Ok(());
    }
    let Some(part) = trees.pop() else {
        return Ok(())
    };
    if word != "both" {
        trees.push(over(alloc, word, part)?)?;
        return Ok(());
    }
    let Some(other) = trees.pop() else {
        return Ok(())
    };
    trees.push(Rules::both(alloc, part, other)?)?;
    Ok(())
}

/// The tree that these words write, each rule before the trees of its parts.
pub fn tree(alloc: Global, text: &str) -> Result<Rules, Memory> {
    let mut words = Vec::new(alloc);
    for word in text.split(' ') {
        words.push(word)?;
    }
    let mut trees = Vec::new(alloc);
    for word in words.iter().rev() {
        add(alloc, word, &mut trees)?;
    }
    match trees.pop() {
        None => Ok(Rules::Int),
        Some(tree) => Ok(tree),
    }
}
