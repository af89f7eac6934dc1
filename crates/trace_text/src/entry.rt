// Entries of a log, and how it ended, as text.

ghost use Rattle.std.specs.Prelude.{◌≡◌, ◌++◌, OnOk, codes, flat_map, map, string_bytes};
ghost use Rattle.spec_core.specs.Terms.{term_of};
ghost use Rattle.rule_model.specs.Answers.{answer_of};
ghost use Rattle.rule_model.specs.Events.{event_of, ending_of};
ghost use Rattle.trace_text.specs.Trace.{action_text, answer_word, end_word, event_line, field_text, line, offer_text, values_text};
ghost use Rattle.value_text.specs.Vocabularies.{IsWhole};
ghost use Rattle.trace_text.specs.Names.{names_with};

use crate::pieces::{put, put_by, put_limit, put_name, put_names, put_offer_word, put_place};
use crate::tree::put_tree;
use rule_model::action::Action;
use rule_model::log::{End, Entry};
use rule_model::offer::{Field, Offer};
use rule_model::reply::Reply;
use spec_core::memory::Memory;
use spec_core::term::Term;
use spec_core::term_text::term_text;
use spec_core::value::Value;
use value_text::value::{put_named, put_value};
use value_text::vocabulary::Vocabulary;

// Appends a field of an offer.
fn put_field(out: &mut String, vocabulary: &Vocabulary, field: &Field) -> Result<(), Memory>
    requires whole { IsWhole vocabulary.now }
    ensures { OnOk result (string_bytes out.new ≡ string_bytes out.old ++ field_text (names_with vocabulary.now) field.now) }
{
    match field {
        Field::Give(value) => {
            put(out, " !")?;
            put_value(out, vocabulary, value)
        }
        Field::Take(sort) => {
            put(out, " ?")?;
            put_named(out, &vocabulary.checked.algebra.signature.sorts, sort.0)
        }
    }
}

// Appends the fields of an offer.
fn put_fields(out: &mut String, vocabulary: &Vocabulary, fields: &[Field]) -> Result<(), Memory>
    requires whole { IsWhole vocabulary.now }
    ensures { OnOk result (string_bytes out.new ≡ string_bytes out.old ++ flat_map (field_text (names_with vocabulary.now)) fields.now) }
{
    for field in fields {
        put_field(out, vocabulary, field)?;
    }
    Ok(())
}

// Appends an offer.
fn put_offer(out: &mut String, vocabulary: &Vocabulary, offer: &Offer) -> Result<(), Memory>
    requires whole { IsWhole vocabulary.now }
    ensures { OnOk result (string_bytes out.new ≡ string_bytes out.old ++ offer_text (names_with vocabulary.now) offer.now) }
{
    put_named(out, &vocabulary.checked.gates, offer.gate.0)?;
    put_fields(out, vocabulary, offer.fields.as_slice())
}

// Appends the values of an action.
fn put_values(out: &mut String, vocabulary: &Vocabulary, values: &[Value]) -> Result<(), Memory>
    requires whole { IsWhole vocabulary.now }
    ensures { OnOk result (string_bytes out.new ≡ string_bytes out.old ++ values_text (names_with vocabulary.now) values.now) }
{
    for value in values {
        put(out, " !")?;
        put_value(out, vocabulary, value)?;
    }
    Ok(())
}

/// Appends an action: its gate, `exit` or `i`, and its values.
pub fn put_action(out: &mut String, vocabulary: &Vocabulary, action: &Action) -> Result<(), Memory>
    requires whole { IsWhole vocabulary.now }
    ensures { OnOk result (string_bytes out.new ≡ string_bytes out.old ++ action_text (names_with vocabulary.now) action.now) }
{
    match action {
        Action::Inner => put(out, "i"),
        Action::Exit(values) => {
            put(out, "exit")?;
            put_values(out, vocabulary, values.as_slice())
        }
        Action::At(gate, values) => {
            put_named(out, &vocabulary.checked.gates, gate.0)?;
            put_values(out, vocabulary, values.as_slice())
        }
    }
}

// Appends a word and a term.
fn put_term(
    out: &mut String,
    vocabulary: &Vocabulary,
    word: &str,
    term: &Term,
) -> Result<(), Memory>
    ensures { OnOk result (string_bytes out.new ≡
        string_bytes out.old ++ (word.now ++ (names_with vocabulary.now).term (term_of term.now))) }
{
    let text = term_text(
        *out.allocator(),
        &vocabulary.checked.algebra.signature,
        term,
        &[],
    )?;
    put(out, word)?;
    put(out, text.as_str())
}

/// Appends the word of a reply, which `taken` and `stalled` don't have, with its tree, its term or its kind.
pub fn put_answer(out: &mut String, vocabulary: &Vocabulary, reply: &Reply) -> Result<(), Memory>
    requires whole { IsWhole vocabulary.now }
    ensures { OnOk result (string_bytes out.new ≡ string_bytes out.old ++ answer_word (names_with vocabulary.now) (answer_of reply.now)) }
{
    match reply {
        Reply::Taken { .. } => Ok(()),
        Reply::Deadlock { .. } => put(out, "deadlock"),
        Reply::Stalled { .. } => Ok(()),
        Reply::Beyond { at: _, rules } => {
            put(out, "beyond ")?;
            put_tree(out, vocabulary, rules)
        }
        Reply::NotNow { .. } => put(out, "notnow"),
        Reply::Ended { .. } => put(out, "ended"),
        Reply::Spent { at: _, term } => put_term(out, vocabulary, "spent ", term),
        Reply::TooLarge { at: _, term } => put_term(out, vocabulary, "large ", term),
        Reply::Limit { at: _, kind } => put_limit(out, *kind),
    }
}

/// Appends an entry's line, without the LF that ends it.
pub fn put_event(out: &mut String, vocabulary: &Vocabulary, entry: &Entry) -> Result<(), Memory>
    requires whole { IsWhole vocabulary.now }
    ensures { OnOk result (string_bytes out.new ≡ string_bytes out.old ++ event_line (names_with vocabulary.now) (event_of entry.now)) }
{
    match entry {
        Entry::Pend(client, number, offer, ask) => {
            put_offer_word(out, *ask)?;
            put_name(out, *client, *number)?;
            put(out, " ")?;
            put_offer(out, vocabulary, offer)
        }
        Entry::Act(action, rules, by) => {
            put(out, "act ")?;
            put_action(out, vocabulary, action)?;
            put_by(out, *by)?;
            put(out, " rules ")?;
            put_tree(out, vocabulary, rules)
        }
        Entry::Reply(client, number, reply) => {
            put(out, "reply ")?;
            put_name(out, *client, *number)?;
            put(out, " ")?;
            put_answer(out, vocabulary, reply)
        }
        Entry::Stall(names) => {
            put(out, "stall")?;
            put_names(out, names)
        }
        Entry::Leave(client) => {
            put(out, "leave ")?;
            put_place(out, *client)
        }
    }
}

// Appends an entry's line.
pub fn put_line(out: &mut String, vocabulary: &Vocabulary, entry: &Entry) -> Result<(), Memory>
    requires whole { IsWhole vocabulary.now }
    ensures { OnOk result (string_bytes out.new ≡ string_bytes out.old ++ line (names_with vocabulary.now) (event_of entry.now)) }
{
    put_event(out, vocabulary, entry)?;
    put(out, "\n")
}

/// Appends the word that says how a session ended.
pub fn put_end_word(out: &mut String, vocabulary: &Vocabulary, end: &End) -> Result<(), Memory>
    ensures { OnOk result (string_bytes out.new ≡ string_bytes out.old ++ end_word (names_with vocabulary.now) (ending_of end.now)) }
{
    match end {
        End::Exit => put(out, "exit"),
        End::Deadlock => put(out, "deadlock"),
        End::Waiting => put(out, "waiting"),
        End::Beyond => put(out, "beyond"),
        End::Spent(term) => put_term(out, vocabulary, "spent ", term),
        End::TooLarge(term) => put_term(out, vocabulary, "large ", term),
        End::Limit(kind) => put_limit(out, *kind),
    }
}
