// The lines of entries, one after another.

ghost use Rattle.std.specs.Prelude.{◌≡◌, ◌+◌, ◌++◌, OnOk, Option, codes, string_bytes};
ghost use Rattle.rule_model.specs.Derivations.{Derivation, derivation_of};
ghost use Rattle.rule_model.specs.Events.{OfferName, acted, event_of};
ghost use Rattle.trace_text.specs.Formats.{Before, behind, event_text, nothing_before, point_text, rules_text};
ghost use Rattle.trace_text.specs.Names.{names_with};
ghost use Rattle.trace_text.specs.Standing.{StandsBehind};
ghost use Rattle.trace_text.specs.Trace.{Names, action_text, by_text, tree_text};
ghost use Rattle.trace_text.specs.declared.format.Format.TheVariants.{One, Two};
ghost use Rattle.value_text.specs.Vocabularies.{IsWhole};

use crate::entry::{put_action, put_line};
use crate::format::Format;
use crate::front::common_front;
use crate::offers::Offers;
use crate::pieces::{put, put_by};
use crate::tree::put_tree;
use rule_model::action::Action;
use rule_model::log::Entry;
use rule_model::rules::Rules;
use spec_core::memory::Memory;
use std::alloc::Global;
use value_text::vocabulary::Vocabulary;

/// A writer of the lines of a trace, behind some of them: what the next ones depend on.
#[derive(Drop)]
pub struct LinesBefore {
    pub format: Format,
    tree: String,
    actions: u64,
    offers: Offers,
}

// Appends a text by the front that it shares with the one before it.
fn put_shared(out: &mut String, before: &str, text: &str) -> Result<(), Memory>
    ensures { OnOk result (string_bytes out.new ≡ string_bytes out.old ++ rules_text Two before.now text.now) }
{
    let front = common_front(before.as_bytes(), text.as_bytes());
    // names are ASCII, so a text can be cut anywhere
    match std::str::from_utf8(&text.as_bytes()[front..]) {
        Err(_) => Err(Memory),
        Ok(rest) => {
            write!(out, "{front}:")?;
            put(out, rest)
        }
    }
}

// Appends the line of an action with this tree, behind a tree with the other text.
fn put_act(
    out: &mut String,
    vocabulary: &Vocabulary,
    action: &Action,
    by: Option<(u32, u64)>,
    before: &str,
    tree: &str,
) -> Result<(), Memory>
    requires whole { IsWhole vocabulary.now }
    ensures { OnOk result (string_bytes out.new ≡ string_bytes out.old ++ (codes "act " ++
        action_text (names_with vocabulary.now) action.now ++ by_text by ++ codes " rules " ++ rules_text Two before.now tree.now ++ codes "\n")) }
{
    put(out, "act ")?;
    put_action(out, vocabulary, action)?;
    put_by(out, by)?;
    put(out, " rules ")?;
    put_shared(out, before, tree)?;
    put(out, "\n")
}

impl LinesBefore {
    /// A writer behind the first line.
    pub fn new(alloc: Global, format: Format) -> LinesBefore
        ensures stands { StandsBehind result nothing_before }
        ensures format { result.format ≡ format }
    {
        LinesBefore {
            format,
            tree: String::new(alloc),
            actions: 0,
            offers: Offers::new(alloc),
        }
    }

    /// How many actions there are before.
    pub fn actions(&self) -> u64
        ensures { (before : Before) → StandsBehind self.now before → result ≡ before.actions }
    {
        self.actions
    }

    /// The text of the tree whose front the next one may share; nothing in format 1.
    pub fn tree(&self) -> &[u8]
        ensures { (before : Before) → StandsBehind self.now before → self.now.format ≡ Two → result.now ≡ before.tree }
    {
        self.tree.as_str().as_bytes()
    }

    // One more action is behind.
    fn count(&mut self) -> Result<(), Memory>
        ensures actions { OnOk result (self.new.actions ≡ self.old.actions + 1) }
        ensures format { OnOk result (self.new.format ≡ self.old.format) }
        ensures tree { OnOk result (self.new.tree ≡ self.old.tree) }
        ensures offers { OnOk result (self.new.offers ≡ self.old.offers) }
    {
        match self.actions.checked_add(1) {
            None => Err(Memory),
            Some(actions) => {
                self.actions = actions;
                Ok(())
            }
        }
    }

    // Appends the point that stands behind an action, if one does.
    fn put_point(&self, out: &mut String) -> Result<(), Memory>
        ensures { OnOk result ((before : Before) → StandsBehind self.now before → self.now.format ≡ Two →
            (action : Action) (d : Derivation) (by : Option OfferName) →
            string_bytes out.new ≡ string_bytes out.old ++ point_text Two before (acted action d by)) }
    {
        if self.actions % 64 == 0 {
            write!(out, "point {} {}\n", self.actions, self.offers.count())?;
        }
        Ok(())
    }

    // An action with this tree is behind.
    fn pass_act(&mut self, tree: String, by: Option<(u32, u64)>) -> Result<(), Memory>
        ensures stands { OnOk result ((names : Names) (before : Before) (action : Action) (d : Derivation) →
            StandsBehind self.old before → string_bytes tree ≡ tree_text names d →
            StandsBehind self.new (behind names before (acted action d by))) }
        ensures format { OnOk result (self.new.format ≡ self.old.format) }
    {
        self.count()?;
        self.offers.remove_taken(by);
        self.tree = if self.actions % 64 == 0 {
            String::new(*tree.allocator())
        } else {
            tree
        };
        Ok(())
    }

    // Appends the lines of an action in format 2, which is then behind.
    fn put_action(
        &mut self,
        out: &mut String,
        vocabulary: &Vocabulary,
        action: &Action,
        rules: &Rules,
        by: Option<(u32, u64)>,
    ) -> Result<(), Memory>
        requires whole { IsWhole vocabulary.now }
        requires two { self.old.format ≡ Two }
        ensures text { OnOk result ((before : Before) → StandsBehind self.old before → string_bytes out.new ≡
            string_bytes out.old ++ event_text (names_with vocabulary.now) Two before (acted action.now (derivation_of rules.now) by)) }
        ensures stands { OnOk result ((before : Before) → StandsBehind self.old before →
            StandsBehind self.new (behind (names_with vocabulary.now) before (acted action.now (derivation_of rules.now) by))) }
        ensures format { OnOk result (self.new.format ≡ self.old.format) }
    {
        let mut tree = String::new(*out.allocator());
        put_tree(&mut tree, vocabulary, rules)?;
        put_act(
            out,
            vocabulary,
            action,
            by,
            self.tree.as_str(),
            tree.as_str(),
        )?;
        self.pass_act(tree, by)?;
        self.put_point(out)
    }

    // Appends the lines of an entry in format 2, which is then behind.
    fn put_shared_entry(
        &mut self,
        out: &mut String,
        vocabulary: &Vocabulary,
        entry: &Entry,
    ) -> Result<(), Memory>
        requires whole { IsWhole vocabulary.now }
        requires two { self.old.format ≡ Two }
        ensures text { OnOk result ((before : Before) → StandsBehind self.old before →
            string_bytes out.new ≡ string_bytes out.old ++ event_text (names_with vocabulary.now) Two before (event_of entry.now)) }
        ensures stands { OnOk result ((before : Before) → StandsBehind self.old before →
            StandsBehind self.new (behind (names_with vocabulary.now) before (event_of entry.now))) }
        ensures format { OnOk result (self.new.format ≡ self.old.format) }
    {
        match entry {
            Entry::Act(action, rules, by) => self.put_action(out, vocabulary, action, rules, *by),
            Entry::Pend(client, number, _, _) => {
                put_line(out, vocabulary, entry)?;
                self.offers.put(*client, *number)
            }
            Entry::Reply(client, number, _) => {
                put_line(out, vocabulary, entry)?;
                self.offers.remove(*client, *number);
                Ok(())
            }
            Entry::Stall(names) => {
                put_line(out, vocabulary, entry)?;
                self.offers.remove_each(names);
                Ok(())
            }
            Entry::Leave(_) => put_line(out, vocabulary, entry),
        }
    }

    // An entry is behind in format 1.
    fn pass(&mut self, entry: &Entry) -> Result<(), Memory>
        requires one { self.old.format ≡ One }
        ensures stands { OnOk result ((names : Names) (before : Before) → StandsBehind self.old before →
            StandsBehind self.new (behind names before (event_of entry.now))) }
        ensures format { OnOk result (self.new.format ≡ self.old.format) }
    {
        match entry {
            Entry::Act(_, _, _) => self.count(),
            Entry::Pend(_, _, _, _) => Ok(()),
            Entry::Reply(_, _, _) => Ok(()),
            Entry::Stall(_) => Ok(()),
            Entry::Leave(_) => Ok(()),
        }
    }

    /// Appends the lines of an entry, which is then behind: its own line, and that of a point where one follows.
    pub fn put_entry(
        &mut self,
        out: &mut String,
        vocabulary: &Vocabulary,
        entry: &Entry,
    ) -> Result<(), Memory>
        requires whole { IsWhole vocabulary.now }
        ensures text { OnOk result ((before : Before) → StandsBehind self.old before → string_bytes out.new ≡
            string_bytes out.old ++ event_text (names_with vocabulary.now) self.old.format before (event_of entry.now)) }
        ensures stands { OnOk result ((before : Before) → StandsBehind self.old before →
            StandsBehind self.new (behind (names_with vocabulary.now) before (event_of entry.now))) }
        ensures format { OnOk result (self.new.format ≡ self.old.format) }
    {
        match self.format {
            Format::One => {
                put_line(out, vocabulary, entry)?;
                self.pass(entry)
            }
            Format::Two => self.put_shared_entry(out, vocabulary, entry),
        }
    }
}
