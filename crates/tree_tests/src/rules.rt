// Trees of rules from their words.

use rule_model::rules::{Rules, Slot, Slots};
use spec_core::items::Op;
use spec_core::memory::Memory;
use spec_core::value::Value;
use std::alloc::Global;

// The one value that there is.
fn slot(alloc: Global) -> Result<Slot, Memory> {
    let mut ops = Vec::new(alloc);
    ops.push(Op(0))?;
    Ok(Slot::Of(Value::new(ops)))
}

fn one_slot(alloc: Global) -> Result<Slots, Memory> {
    let mut slots = Vec::new(alloc);
    slots.push(slot(alloc)?)?;
    Ok(Slots::new(slots))
}

/// The tree that this word makes of a part; `both` has the same part twice.
pub fn above(alloc: Global, word: &str, part: Rules) -> Result<Rules, Memory> {
    match word {
        "chl" => Rules::chl(alloc, part),
        "chr" => Rules::chr(alloc, part),
        "val" => Rules::val(alloc, slot(alloc)?, part),
        "gate" => Rules::gate(alloc, 2, part),
        "guard" => Rules::guard(alloc, part),
        "let" => Rules::letting(alloc, part),
        "parl" => Rules::parl(alloc, part),
        "parr" => Rules::parr(alloc, part),
        "both" => {
            let other = part.copy(alloc)?;
            Rules::both(alloc, part, other)
        }
        "hide" => Rules::hiding(alloc, part),
        "pass" => Rules::pass(alloc, part),
        "enstep" => Rules::enstep(alloc, part),
        "enend" => Rules::enend(alloc, part),
        "disstep" => Rules::disstep(alloc, part),
        "disend" => Rules::disend(alloc, part),
        "distake" => Rules::distake(alloc, part),
        "call" => Rules::calling(alloc, part),
        _ => Rules::rel(alloc, part),
    }
}

// The tree of an action, or of an exit.
fn leaf(alloc: Global, word: &str) -> Result<Option<Rules>, Memory> {
    match word {
        "int" => Ok(Some(Rules::Int)),
        "pre" => Ok(Some(Rules::Pre(Slots::new(Vec::new(alloc))))),
        "pre_v" => Ok(Some(Rules::Pre(one_slot(alloc)?))),
        "exit" => Ok(Some(Rules::Exit(Slots::new(Vec::new(alloc))))),
        "exit_v" => Ok(Some(Rules::Exit(one_slot(alloc)?))),
        _ => Ok(None),
    }
}

/// The tree with these words, each after that of its part.
pub fn rules(alloc: Global, words: &str) -> Result<Rules, Memory> {
    let mut tree = Rules::Int;
    for word in words.split_whitespace() {
        tree = match leaf(alloc, word)? {
            Some(leaf) => leaf,
            None => above(alloc, word, tree)?,
        };
    }
    Ok(tree)
}
