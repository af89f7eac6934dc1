// Numbers by which trees of rules are grouped: trees that are one have one number.

ghost use Rattle.std.specs.Prelude.{◌≡◌, ◌<◌, fold, map};
ghost use Rattle.spec_core.specs.Numbers.{op_number};
ghost use Rattle.rule_model.specs.Derivations.{derivation_of};
ghost use Rattle.candidate_verdicts.specs.Keys as keys;

use rule_model::rules::{Rules, Slot};
use spec_core::items::Op;

// The number that one number makes of another.
fn mixed(before: u64, number: u32) -> u64
    requires { before < 4294967296 }
    ensures number { result ≡ keys.mixed before number }
    ensures bound { result < 4294967296 }
{
    (before * 31 + number as u64 + 1) % 4294967296
}

// The number that operations make of another.
fn operations_key(before: u64, ops: &[Op]) -> u64
    requires { before < 4294967296 }
    ensures number { result ≡ fold keys.mixed before (map op_number ops.now) }
    ensures bound { result < 4294967296 }
{
    let mut now = before;
    for op in ops {
        now = mixed(now, op.0);
    }
    now
}

// The number that a chosen value makes of another.
fn slot_key(before: u64, slot: &Slot) -> u64
    requires { before < 4294967296 }
    ensures number { result ≡ keys.slot_key before slot.now }
    ensures bound { result < 4294967296 }
{
    match slot {
        Slot::Of(value) => operations_key(mixed(before, 2), value.as_slice()),
        Slot::Mark => mixed(before, 1),
        Slot::Blank => mixed(before, 0),
    }
}

// The number that chosen values make of another.
fn slots_key(before: u64, slots: &[Slot]) -> u64
    requires { before < 4294967296 }
    ensures number { result ≡ fold keys.slot_key before slots.now }
    ensures bound { result < 4294967296 }
{
    let mut now = before;
    for slot in slots {
        now = slot_key(now, slot);
    }
    now
}

// The number that a tree of rules makes of another.
fn rules_key(before: u64, rules: &Rules) -> u64
    requires { before < 4294967296 }
    ensures number { result ≡ keys.rules_key before (derivation_of rules.now) }
    ensures bound { result < 4294967296 }
{
    match rules {
        Rules::Pre(slots) => slots_key(mixed(before, 0), slots.as_slice()),
        Rules::Int => mixed(before, 1),
        Rules::Exit(slots) => slots_key(mixed(before, 2), slots.as_slice()),
        Rules::Chl(part) => rules_key(mixed(before, 3), part),
        Rules::Chr(part) => rules_key(mixed(before, 4), part),
        Rules::Val(slot, part) => rules_key(slot_key(mixed(before, 5), slot), part),
        Rules::Gate(place, part) => rules_key(mixed(mixed(before, 6), *place), part),
        Rules::Guard(part) => rules_key(mixed(before, 7), part),
        Rules::Let(part) => rules_key(mixed(before, 8), part),
        Rules::Parl(part) => rules_key(mixed(before, 9), part),
        Rules::Parr(part) => rules_key(mixed(before, 10), part),
        Rules::Both(left, right) => rules_key(rules_key(mixed(before, 11), left), right),
        Rules::Hide(part) => rules_key(mixed(before, 12), part),
        Rules::Pass(part) => rules_key(mixed(before, 13), part),
        Rules::Enstep(part) => rules_key(mixed(before, 14), part),
        Rules::Enend(part) => rules_key(mixed(before, 15), part),
        Rules::Disstep(part) => rules_key(mixed(before, 16), part),
        Rules::Disend(part) => rules_key(mixed(before, 17), part),
        Rules::Distake(part) => rules_key(mixed(before, 18), part),
        Rules::Call(part) => rules_key(mixed(before, 19), part),
        Rules::Rel(part) => rules_key(mixed(before, 20), part),
    }
}

/// The number of the group of a tree of rules, of 32 bits. It takes no memory, and recurs as deep as rules nest.
pub fn key_of(rules: &Rules) -> u64
    ensures key { result ≡ keys.key_of (derivation_of rules.now) }
{
    rules_key(0, rules)
}
