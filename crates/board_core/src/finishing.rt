// The end of a session.

ghost use Rattle.std.specs.Prelude.{◌≡◌, IfOk, option_map};
ghost use Rattle.rule_model.specs.Events.{ending_of};
ghost use Rattle.rule_model.specs.Logs.{events_of};
ghost use Rattle.candidates.specs.KnownTrees.{HasItsParts, first_in};
ghost use Rattle.board_laws.specs.Rules.{any, any_beyond};
ghost use Rattle.board_laws.specs.NeededLaws.{FirstTreesSay};
ghost use Rattle.board_laws.specs.Next.{AreSessionWindows};
ghost use Rattle.board_core.specs.Ends as ends;
ghost use Rattle.board_core.specs.Ends.{end_found, ending_at};
ghost use Rattle.board_core.specs.Views.{events, first_at, pieces, program, state, tree, windows};

use crate::board::Board;
use candidates::known_tree::KnownTree;
use decision_order::listing::{First, Listing, Search};
use rule_model::action::Action;
use rule_model::log::{End, Log};
use spec_core::memory::Memory;
use std::alloc::Global;

// The end where no windowed tree exists, as far as it is known.
#[tactic(auto, using(crate::proofs::Ending::any_beyond_found))]
fn end_beyond(alloc: Global, known: &KnownTree<'_>) -> Result<Option<End>, Memory>
    requires parts { HasItsParts known.now }
    ensures { IfOk result (λ o. option_map ending_of o ≡ ends.end_beyond (first_in known.now any_beyond)) }
{
    match known.first(alloc, Search::AnyBeyond)? {
        First::Open => Ok(None),
        First::Absent => Ok(Some(End::Deadlock)),
        First::Is(_) => Ok(Some(End::Beyond)),
    }
}

// The end by the trees of the behaviour that is reached, as far as it is known.
#[tactic(auto, using(crate::proofs::Ending::any_found))]
fn end_by_trees(alloc: Global, known: &KnownTree<'_>) -> Result<Option<End>, Memory>
    requires parts { HasItsParts known.now }
    ensures { IfOk result (λ o. option_map ending_of o ≡ end_found (first_in known.now any) (first_in known.now any_beyond)) }
{
    match known.first(alloc, Search::Any)? {
        First::Open => Ok(None),
        First::Absent => end_beyond(alloc, known),
        First::Is(_) => Ok(Some(End::Waiting)),
    }
}

impl Board {
    // How the session ends by its trees, as far as it is known.
    fn found_end(&self, alloc: Global) -> Result<Option<End>, Memory>
        ensures { IfOk result (λ o. option_map ending_of o ≡ end_found (first_at self.now any) (first_at self.now any_beyond)) }
    {
        let known = self.known(alloc)?;
        end_by_trees(alloc, &known)
    }

    // The end after the termination, or as it was found.
    fn end_after(&self, alloc: Global) -> Result<Option<End>, Memory>
        ensures { IfOk result (λ o. option_map ending_of o ≡
            ends.end_after (state self.now).last (end_found (first_at self.now any) (first_at self.now any_beyond))) }
    {
        match self.record.state().last() {
            Some(Action::Exit(_)) => Ok(Some(End::Exit)),
            Some(Action::Inner) => self.found_end(alloc),
            Some(Action::At(_, _)) => self.found_end(alloc),
            None => self.found_end(alloc),
        }
    }

    /// What searches for any tree find says which trees the behaviour that is reached has, with the windows of the session.
    pub fn first_trees_say(&self)
        ensures say { FirstTreesSay (program self.now) (windows self.now) (tree self.now) (pieces self.now) }
        ensures of_session { AreSessionWindows (program self.now) self.now.settings (windows self.now) }
    {
        self.record.log_is_a_derivation();
        self.record.tree().generations_are_sound();
    }

    /// The log, and how the session ends, if what is known decides it: by the reason that has stopped it; by the termination; or, by the
    /// trees of the behaviour that is reached, as a deadlock, waiting, or beyond.
    pub fn finish(self, alloc: Global) -> Result<(Log, Option<End>), Memory>
        ensures log { IfOk result (λ r. events_of r.0 ≡ events self) }
        ensures end { IfOk result (λ r. option_map ending_of r.1 ≡ ending_at self) }
    {
        let end = self.end_after(alloc)?;
        let Board {
            record,
            forms: _,
            settings: _,
            windows: _,
            pieces: _,
            out: _,
            stop,
            index: _,
        } = self;
        let log = record.into_log(alloc)?;
        match stop {
            Some(reason) => Ok((log, Some(reason.into_end()))),
            None => Ok((log, end)),
        }
    }
}
