// Entries of a log.

ghost use Rattle.std.specs.Prelude.{ℕ, ◌≡◌, ◌++◌, [], List, IfOk, IsSome, OnOk, Option, Some, codes, flat_map};
ghost use Rattle.rule_model.specs.Answers.{Answer};
ghost use Rattle.rule_model.specs.Derivations.{Derivation};
ghost use Rattle.rule_model.specs.Events.{Event, OfferName, acted, event_of, pended, replied, stalled};
ghost use Rattle.rule_model.specs.declared.action.Action.{Action};
ghost use Rattle.rule_model.specs.declared.offer.Offer.{Offer};
ghost use Rattle.spec_core.specs.Code.{Program, program_of};
ghost use Rattle.spec_core.specs.Lists.{Each};
ghost use Rattle.trace_text.specs.Fits.{ActionFits, AnswerFits, ByFits, EventFits, NameFits, OfferFits, TreeFits};
ghost use Rattle.trace_text.specs.Formats.{format_line, rules_text};
ghost use Rattle.trace_text.specs.Names.{names_with};
ghost use Rattle.trace_text.specs.Trace.{action_text, answer_word, by_text, event_line, name_text, offer_text, tree_text};
ghost use Rattle.trace_reader.specs.Cursors.{IsReadable};
ghost use Rattle.trace_reader.specs.Entries.{IsNumbered};

use crate::action::{read_action, read_by};
use crate::cursor::Cursor;
use crate::line_word::{EntryWord, take_entry};
use crate::number::{read_client, read_name, read_names};
use crate::offer::read_offer;
use crate::reply::read_reply;
use crate::rules::read_rules;
use rule_model::log::Entry;
use spec_core::memory::Memory;
use std::alloc::Global;
use trace_text::Format;
use value_text::vocabulary::Vocabulary;

// An offer of a client, behind its word.
fn read_offer_entry(
    alloc: Global,
    vocabulary: &Vocabulary,
    cursor: &mut Cursor,
    ask: bool,
) -> Result<Entry, Memory>
    requires readable { IsReadable vocabulary.now }
    ensures finds { IfOk result (λ entry. (name : OfferName) (offer : Offer) →
        NameFits name → OfferFits (program_of vocabulary.now.checked.now) offer →
        cursor.old ≡ Some (name_text name ++ (codes " " ++ offer_text (names_with vocabulary.now) offer)) →
        (event_of entry ≡ pended name.0 name.1 offer ask) × IsSome cursor.new) }
    ensures fits { IfOk result (λ entry. IsSome cursor.new → EventFits (program_of vocabulary.now.checked.now) (event_of entry)) }
    ensures numbered { IfOk result (λ entry. (n : ℕ) → IsNumbered n (event_of entry)) }
    ensures kept { OnOk result (IsSome cursor.new → IsSome cursor.old) }
{
    let (client, number) = read_name(cursor);
    cursor.skip(b" ");
    let offer = read_offer(alloc, vocabulary, cursor)?;
    Ok(Entry::Pend(client, number, offer, ask))
}

// An action, behind its word.
fn read_act_entry(
    alloc: Global,
    vocabulary: &Vocabulary,
    cursor: &mut Cursor,
    format: Format,
    tree: &[u8],
) -> Result<Entry, Memory>
    requires readable { IsReadable vocabulary.now }
    ensures finds { IfOk result (λ entry. (action : Action) (d : Derivation) (by : Option OfferName) →
        ActionFits (program_of vocabulary.now.checked.now) action → TreeFits (program_of vocabulary.now.checked.now) d → ByFits by →
        cursor.old ≡ Some (action_text (names_with vocabulary.now) action ++
        (by_text by ++ (codes " rules " ++ rules_text format tree.now (tree_text (names_with vocabulary.now) d)))) →
        (event_of entry ≡ acted action d by) × IsSome cursor.new) }
    ensures fits { IfOk result (λ entry. IsSome cursor.new → EventFits (program_of vocabulary.now.checked.now) (event_of entry)) }
    ensures numbered { IfOk result (λ entry. (n : ℕ) → IsNumbered n (event_of entry)) }
    ensures kept { OnOk result (IsSome cursor.new → IsSome cursor.old) }
{
    let action = read_action(alloc, vocabulary, cursor)?;
    let by = read_by(cursor);
    cursor.skip(b" rules ");
    let rules = read_rules(alloc, vocabulary, cursor, format, tree)?;
    Ok(Entry::Act(action, rules, by))
}

// A reply to an offer, behind its word.
fn read_reply_entry(
    alloc: Global,
    vocabulary: &Vocabulary,
    cursor: &mut Cursor,
    actions: u64,
) -> Result<Entry, Memory>
    requires readable { IsReadable vocabulary.now }
    ensures finds { IfOk result (λ entry. (name : OfferName) (answer : Answer) →
        NameFits name → AnswerFits (program_of vocabulary.now.checked.now) answer →
        cursor.old ≡ Some (name_text name ++ (codes " " ++ answer_word (names_with vocabulary.now) answer)) →
        (event_line (names_with vocabulary.now) (event_of entry) ≡ event_line (names_with vocabulary.now) (replied name.0 name.1 answer)) ×
        IsSome cursor.new) }
    ensures fits { IfOk result (λ entry. IsSome cursor.new → EventFits (program_of vocabulary.now.checked.now) (event_of entry)) }
    ensures numbered { IfOk result (λ entry. IsNumbered actions (event_of entry)) }
    ensures kept { OnOk result (IsSome cursor.new → IsSome cursor.old) }
{
    let (client, number) = read_name(cursor);
    cursor.skip(b" ");
    let reply = read_reply(alloc, vocabulary, cursor, actions)?;
    Ok(Entry::Reply(client, number, reply))
}

// The stall of all pending offers, behind its word. It names one at least.
fn read_stall_entry(alloc: Global, cursor: &mut Cursor) -> Result<Entry, Memory>
    ensures finds { IfOk result (λ entry. (names : List OfferName) →
        (names ≡ [] → ⊥) → Each NameFits names → cursor.old ≡ Some (flat_map (λ name. codes " " ++ name_text name) names) →
        (event_of entry ≡ stalled names) × IsSome cursor.new) }
    ensures fits { IfOk result (λ entry. (program : Program) → IsSome cursor.new → EventFits program (event_of entry)) }
    ensures numbered { IfOk result (λ entry. (n : ℕ) → IsNumbered n (event_of entry)) }
    ensures kept { OnOk result (IsSome cursor.new → IsSome cursor.old) }
{
    let names = read_names(alloc, cursor)?;
    if names.is_empty() {
        cursor.lose();
    }
    Ok(Entry::Stall(names))
}

/// An entry; where it is a reply, with the number of actions before it.
pub fn read_entry(
    alloc: Global,
    vocabulary: &Vocabulary,
    cursor: &mut Cursor,
    format: Format,
    tree: &[u8],
    actions: u64,
) -> Result<Entry, Memory>
    requires readable { IsReadable vocabulary.now }
    ensures finds { IfOk result (λ entry. (event : Event) →
        EventFits (program_of vocabulary.now.checked.now) event → cursor.old ≡ Some (format_line (names_with vocabulary.now) format tree.now event) →
        (event_line (names_with vocabulary.now) (event_of entry) ≡ event_line (names_with vocabulary.now) event) × IsSome cursor.new) }
    ensures fits { IfOk result (λ entry. IsSome cursor.new → EventFits (program_of vocabulary.now.checked.now) (event_of entry)) }
    ensures numbered { IfOk result (λ entry. IsNumbered actions (event_of entry)) }
{
    match take_entry(cursor) {
        None => {
            cursor.lose();
            Ok(Entry::Leave(0))
        }
        Some(EntryWord::Pend) => read_offer_entry(alloc, vocabulary, cursor, false),
        Some(EntryWord::Ask) => read_offer_entry(alloc, vocabulary, cursor, true),
        Some(EntryWord::Act) => { read_act_entry(alloc, vocabulary, cursor, format, tree) }
        Some(EntryWord::Reply) => read_reply_entry(alloc, vocabulary, cursor, actions),
        Some(EntryWord::Stall) => read_stall_entry(alloc, cursor),
        Some(EntryWord::Leave) => Ok(Entry::Leave(read_client(cursor))),
    }
}
