// Gates in the places of gates.

ghost use Rattle.std.specs.Prelude.{◌≡◌, ◌∷◌, false, IfOk, List, map};
ghost use Rattle.spec_core.specs.Numbers.{gate_number};
ghost use Rattle.spec_core.specs.Code.{Relabelling, relabelling_of};
ghost use Rattle.rule_model.specs.Actions.{among, renamed, renamed_action, after, pairs_of};
ghost use Rattle.rule_model.specs.Behaviours.{behaviour_of, relabel};
ghost use Rattle.rule_model.specs.Substitution.{tidied};

use rule_model::action::Action;
use rule_model::beh::Beh;
use spec_core::items::Gate;
use spec_core::memory::Memory;
use spec_core::term::copy_terms;
use std::alloc::Global;

/// Whether the gate is one of these. It takes no memory.
pub fn is_among(gate: Gate, gates: &[Gate]) -> bool
    ensures decides { result ≡ among gate.0 (map gate_number gates.now) }
{
    match gates {
        [] => false,
        [first, rest @ ..] => if gate.0 == first.0 {
            true
        } else {
            is_among(gate, rest)
        },
    }
}

/// The gate that stands in the place of a gate. It takes no memory.
pub fn renamed_gate(pairs: &[(Gate, Gate)], gate: Gate) -> Gate
    ensures renamed { result.0 ≡ renamed (map relabelling_of pairs.now) gate.0 }
{
    match pairs {
        [] => gate,
        [first, rest @ ..] => if gate.0 == first.0.0 {
            first.1
        } else {
            renamed_gate(rest, gate)
        },
    }
}

/// The gates that stand in the places of gates.
pub fn renamed_gates(
    alloc: Global,
    pairs: &[(Gate, Gate)],
    gates: &[Gate],
) -> Result<Vec<Gate>, Memory>
    ensures renamed { IfOk result
        (λ all. map gate_number all.items ≡ map (renamed (map relabelling_of pairs.now)) (map gate_number gates.now)) }
{
    let mut all = Vec::new(alloc);
    for gate in gates {
        all.push(renamed_gate(pairs, *gate))?;
    }
    Ok(all)
}

/// The action at the gate that stands in the place of its own. It takes no memory.
pub fn renamed(pairs: &[(Gate, Gate)], action: Action) -> Action
    ensures renamed { result ≡ renamed_action (map relabelling_of pairs.now) action }
{
    match action {
        Action::Inner => Action::Inner,
        Action::Exit(values) => Action::Exit(values),
        Action::At(gate, values) => Action::At(renamed_gate(pairs, gate), values),
    }
}

/// The relabelling by the second list and then by the first.
pub fn after(
    alloc: Global,
    pairs: &[(Gate, Gate)],
    before: &[(Gate, Gate)],
) -> Result<Vec<(Gate, Gate)>, Memory>
    ensures after { IfOk result
        (λ all. map relabelling_of all.items ≡ after (map relabelling_of pairs.now) (map relabelling_of before.now)) }
{
    let mut all = through(alloc, pairs, before)?;
    all.extend_from_slice(pairs)?;
    Ok(all)
}

// The second list, with the gates that stand in the places of its own.
fn through(
    alloc: Global,
    pairs: &[(Gate, Gate)],
    before: &[(Gate, Gate)],
) -> Result<Vec<(Gate, Gate)>, Memory>
    ensures { IfOk result (λ all.
        map relabelling_of all.items ≡
        map (λ m. record { from = m.from; to = renamed (map relabelling_of pairs.now) m.to }) (map relabelling_of before.now)) }
{
    let mut all = Vec::new(alloc);
    for pair in before {
        all.push((pair.0, renamed_gate(pairs, pair.1)))?;
    }
    Ok(all)
}

/// Each formal gate of a process with the actual gate of a call.
#[tactic(auto, using(crate::proofs::Pairing::one_more))]
pub fn pairs(alloc: Global, formal: &[Gate], actual: &[Gate]) -> Result<Vec<(Gate, Gate)>, Memory>
    ensures pairs { IfOk result
        (λ all. map relabelling_of all.items ≡ pairs_of (map gate_number formal.now) (map gate_number actual.now)) }
{
    let mut all = Vec::new(alloc);
    let mut others = actual;
    for first in formal {
        match others {
            [] => return Ok(all),
            [other, rest @ ..] => {
                all.push((*first, *other))?;
                others = rest;
            }
        }
    }
    Ok(all)
}

/// The behaviour under the relabelling, tidied at its top: two relabellings one over the other are one, and a call is relabelled in its
/// gates.
pub fn tidied(alloc: Global, pairs: &[(Gate, Gate)], from: Beh) -> Result<Beh, Memory>
    ensures tidied { IfOk result (λ b. behaviour_of b ≡ tidied (map relabelling_of pairs.now) (behaviour_of from)) }
{
    if has_gates(&from) {
        tidied_copy(alloc, pairs, &from)
    } else {
        Beh::relabel(alloc, Vec::from_slice(alloc, pairs)?, from)
    }
}

// Whether gates at the top of the behaviour are relabelled: of a relabelled behaviour, or of a call.
fn has_gates(from: &Beh) -> bool
    ensures { result ≡ false →
        (pairs : List Relabelling) → tidied pairs (behaviour_of from.now) ≡ relabel pairs (behaviour_of from.now) }
{
    match from {
        Beh::Relabel(..) => true,
        Beh::Call { .. } => true,
        Beh::Stop
        | Beh::Exit(..)
        | Beh::Inner(..)
        | Beh::Act { .. }
        | Beh::Choice(..)
        | Beh::Guard(..)
        | Beh::Let(..)
        | Beh::Values(..)
        | Beh::Gates(..)
        | Beh::Par(..)
        | Beh::Hide(..)
        | Beh::Enable(..)
        | Beh::Disable(..) => false,
    }
}

// The behaviour under the relabelling, tidied at its top, of a copy.
fn tidied_copy(alloc: Global, pairs: &[(Gate, Gate)], from: &Beh) -> Result<Beh, Memory>
    ensures { IfOk result (λ b. behaviour_of b ≡ tidied (map relabelling_of pairs.now) (behaviour_of from.now)) }
{
    match from {
        Beh::Relabel(before, body) => {
            let all = after(alloc, pairs, before)?;
            tidied_copy(alloc, &all, body)
        }
        Beh::Call {
            process,
            gates,
            values,
        } => {
            let gates = renamed_gates(alloc, pairs, gates)?;
            let values = copy_terms(alloc, values)?;
            Ok(Beh::Call {
                process: *process,
                gates,
                values,
            })
        }
        Beh::Stop
        | Beh::Exit(..)
        | Beh::Inner(..)
        | Beh::Act { .. }
        | Beh::Choice(..)
        | Beh::Guard(..)
        | Beh::Let(..)
        | Beh::Values(..)
        | Beh::Gates(..)
        | Beh::Par(..)
        | Beh::Hide(..)
        | Beh::Enable(..)
        | Beh::Disable(..) => copied(alloc, pairs, from),
    }
}

// A copy of the behaviour under the relabelling.
fn copied(alloc: Global, pairs: &[(Gate, Gate)], from: &Beh) -> Result<Beh, Memory>
    ensures { IfOk result (λ b. behaviour_of b ≡ relabel (map relabelling_of pairs.now) (behaviour_of from.now)) }
{
    let body = from.copy(alloc)?;
    Beh::relabel(alloc, Vec::from_slice(alloc, pairs)?, body)
}
