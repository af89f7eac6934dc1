// The board of a session.

ghost use Rattle.std.specs.Prelude.{ℕ, ◌≡◌, ◌≤◌, ◌∷◌, ◌++◌, [], IfOk, IfErr, IfSome, IfNone, OnOk, OnErr, is_some, None, map, option_map, length};
ghost use Rattle.spec_core.specs.Code.{program_of};
ghost use Rattle.spec_core.specs.Ready.{IsReady};
ghost use Rattle.candidates.specs.Models.{job_of};
ghost use Rattle.rule_model.specs.Answers.{answer_of};
ghost use Rattle.rule_model.specs.Derivations.{Derivation, derivation_of};
ghost use Rattle.rule_model.specs.Events.{event_of, left, pended};
ghost use Rattle.rule_model.specs.Logs.{events_of};
ghost use Rattle.rule_model.specs.States.{after_leave, after_offer};
ghost use Rattle.board_record.specs.Answered.{answered_of, reply_to};
ghost use Rattle.board_record.specs.Faults.{ExplainsLeave, ExplainsPend};
ghost use Rattle.board_record.specs.Records.{IsSession};
ghost use Rattle.log_states.specs.Possible.{MayLeave, MayOffer};
ghost use Rattle.log_states.specs.Views.{state_at};
ghost use Rattle.node_trees.specs.Generations.{AreApart, AreBelow};
ghost use Rattle.node_trees.specs.Shapes.{AllWait, stands_for};
ghost use Rattle.board_core.specs.Boards.{AreOfLiving};
ghost use Rattle.board_laws.specs.JobValues.{GivesValues};
ghost use Rattle.board_core.specs.Views as views;
ghost use Rattle.board_core.specs.Views.{program, events, pieces, state, tree, HasOneMore, SameSetting, SameLog, SameNodes};

use board_laws::stop_reason::StopReason;
use board_laws::{Evaluator, Forms, Prepared};
use board_record::record::Record;
use board_record::{Answered, LeaveFault, PendFault};
use candidate_verdicts::pieces::Pieces;
use candidates::job::NodeJob;
use log_states::state::SessionState;
use offer_index::index::OfferIndex;
use rule_model::log::{Entry, Log};
use rule_model::offer::Offer;
use run_settings::settings::Settings;
use sort_windows::windows;
use spec_core::code::Checked;
use spec_core::memory::Memory;
use spec_core::window::Window;
use std::alloc::Global;
use std::marker::Model;

/// The board of a session: its record, what is known of the nodes of the behaviour that is reached, which jobs are out, and why the session
/// has stopped, if it has.
///
/// A call that refuses, or wants memory, changes nothing of what contracts tell.
#[derive(Drop)]
pub struct Board {
    pub(crate) record: Record,
    pub(crate) forms: Forms,
    pub(crate) settings: Settings,
    pub(crate) windows: Vec<Window>,
    pub(crate) pieces: Pieces,
    pub(crate) out: Vec<NodeJob>,
    pub(crate) stop: Option<StopReason>,
    // The composites of the tree, once a look asked for them while none of its nodes waited. What changes the tree drops it.
    pub(crate) index: Option<OfferIndex>,
}

impl Model for Board {
    ghost use Rattle.std.specs.Coded.{codes};
    ghost use Rattle.candidates.specs.contracts.job.NodeJob as j;
    ghost use Rattle.candidate_verdicts.specs.contracts.pieces.Pieces as p;
    ghost use Rattle.board_record.specs.contracts.record.Record as r;
    ghost use Rattle.run_settings.specs.contracts.settings.Settings as s;
    ghost use Rattle.spec_core.specs.contracts.window.Window as w;
    ghost use Rattle.board_laws.specs.contracts.stop_reason.StopReason as t;
    ghost use Rattle.board_laws.specs.Rights.{AreForms};
    ghost use Rattle.spec_core.specs.Theories.{theory_of};
    ghost use Rattle.board_core.specs.Boards.{AllOfferValues, IsIndexedBoard};
    ghost use Rattle.board_core.specs.Views.{BoardView};

    ghost Value = { BoardView };

    ghost coded = { Prim.hlevel (codes, r.the_row.coded, s.the_row.coded, w.the_row.coded, p.the_row.coded, j.the_row.coded, t.the_row.coded) };

    ghost view = { λ v. record {
      session = v.record;
      settings = v.settings;
      windows = v.windows.items;
      pieces = v.pieces;
      out = v.out.items;
      stop = v.stop;
    } };

    ghost invariant = { λ v. IsIndexedBoard (record {
      session = v.record;
      settings = v.settings;
      windows = v.windows.items;
      pieces = v.pieces;
      out = v.out.items;
      stop = v.stop;
    }) v.index × AreForms (theory_of v.record.checked.algebra) v.forms × AllOfferValues v.record };
}

impl Board {
    /// A board for a session in which nothing happened yet, with so many clients, whose numbers begin with 1.
    pub fn new(
        alloc: Global,
        checked: Checked,
        settings: Settings,
        clients: u32,
    ) -> Result<Board, Memory>
        requires ready { IsReady (program_of checked) }
        requires clients { clients ≤ 64 }
        ensures checked { IfOk result (λ b. b.session.checked ≡ checked) }
        ensures settings { IfOk result (λ b. b.settings ≡ settings) }
        ensures clients { IfOk result (λ b. b.session.clients ≡ clients) }
        ensures log { IfOk result (λ b. events b ≡ []) }
        ensures waits { IfOk result (λ b. AllWait (tree b)) }
        ensures unknown { IfOk result (λ b. (g : ℕ) (d : Derivation) → pieces b g d ≡ None) }
        ensures out { IfOk result (λ b. b.out ≡ []) }
        ensures stop { IfOk result (λ b. b.stop ≡ None) }
    {
        let windows = windows(alloc, &checked.algebra, settings.values)?;
        let forms = Forms::new(alloc, &checked.algebra)?;
        let record = Record::new(alloc, checked, clients)?;
        Ok(Board {
            record,
            forms,
            settings,
            windows,
            pieces: Pieces::new(alloc),
            out: Vec::new(alloc),
            stop: None,
            index: None,
        })
    }

    /// The log is a derivation, from the specification's behaviour with the clients to the state, whose behaviour the tree stands for.
    pub fn log_is_a_derivation(&self)
        ensures session { IsSession (program self.now) self.now.session.clients (events self.now) (state self.now) }
        ensures reached { (state self.now).behaviour ≡ stands_for (program self.now) (tree self.now) }
        ensures ready { IsReady (program self.now) }
    {
        self.record.log_is_a_derivation();
    }

    /// No two nodes of the tree have one generation, and each generation is below the next one. Nothing is known of generations that don't
    /// live, and each job that is out is at a node that lives.
    pub fn generations_are_sound(&self)
        ensures apart { AreApart (tree self.now) }
        ensures below { AreBelow (tree self.now) self.now.session.tree.next }
        ensures living { AreOfLiving (tree self.now) (pieces self.now) (map job_of self.now.out) }
    {
        self.record.tree().generations_are_sound();
    }

    /// The specification. It takes no memory.
    pub fn checked(&self) -> &Checked
        ensures { result.now ≡ self.now.session.checked }
    {
        self.record.checked()
    }

    /// The specification, with what evaluates its terms. It takes no memory.
    pub fn prepared(&self) -> Prepared<'_>
        ensures checked { result.checked.now ≡ self.now.session.checked }
    {
        let checked = self.record.checked();
        Prepared {
            checked,
            evaluator: Evaluator::new(&checked.algebra, &self.forms),
        }
    }

    /// The session's settings. It takes no memory.
    pub fn settings(&self) -> Settings
        ensures { result ≡ self.now.settings }
    {
        self.settings
    }

    /// What happened, in order. It takes no memory.
    pub fn log(&self) -> &[Entry]
        ensures entries { result.now ≡ self.now.session.entries }
        ensures events { map event_of result.now ≡ events self.now }
    {
        self.record.log()
    }

    /// The state, but for the behaviour that is reached: who is open, what is offered, and what was done. It takes no memory.
    pub fn state(&self) -> &SessionState
        ensures { state_at (state self.now).behaviour result.now ≡ state self.now }
    {
        self.record.state()
    }

    /// How many clients there are, open or not. It takes no memory.
    pub fn clients(&self) -> u32
        ensures { result ≡ self.now.session.clients }
    {
        self.record.clients()
    }

    /// How many clients are open. It takes no memory.
    pub fn open_clients(&self) -> usize
        ensures { result ≡ length (state self.now).open_clients }
    {
        self.record.state().open_clients()
    }

    /// Whether the session has stopped. It takes no memory.
    pub fn stopped(&self) -> bool
        ensures { result ≡ is_some self.now.stop }
    {
        self.stop.is_some()
    }

    /// How the offer of this client and number was answered; None where it isn't answered yet. It takes no memory.
    pub fn reply_of(&self, client: u32, number: u64) -> Option<Answered<'_>>
        ensures { option_map answered_of result ≡ reply_to 0 (events self.now) (client, number) }
    {
        self.record.reply_of(client, number)
    }

    /// A client makes its next offer, or only asks for it; its number, from 1 for each client. What the offer gives are values.
    pub fn pend(
        &mut self,
        alloc: Global,
        client: u32,
        offer: &Offer,
        ask: bool,
    ) -> Result<u64, PendFault>
        requires values { GivesValues (program self.old).theory offer.now }
        ensures may { IfOk result (λ n. MayOffer (length (program self.old).gates) (state self.old) client n offer.now) }
        ensures log { IfOk result (λ n. events self.new ≡ events self.old ++ pended client n offer.now ask ∷ []) }
        ensures one_more { OnOk result (HasOneMore self.old self.new) }
        ensures state { IfOk result (λ n. state self.new ≡ after_offer (state self.old) client n offer.now ask) }
        ensures same { OnErr result (SameLog self.old self.new) }
        ensures fault { IfErr result (ExplainsPend (program self.old) (state self.old) client offer.now) }
        ensures setting { SameSetting self.old self.new }
        ensures nodes { SameNodes self.old self.new }
        ensures out { self.new.out ≡ self.old.out }
        ensures stop { self.new.stop ≡ self.old.stop }
    {
        self.record.pend(alloc, client, offer, ask)
    }

    /// A client leaves.
    pub fn leave(&mut self, alloc: Global, client: u32) -> Result<(), LeaveFault>
        ensures may { OnOk result (MayLeave (state self.old) client) }
        ensures log { OnOk result (events self.new ≡ events self.old ++ left client ∷ []) }
        ensures one_more { OnOk result (HasOneMore self.old self.new) }
        ensures state { OnOk result (state self.new ≡ after_leave (state self.old) client) }
        ensures same { OnErr result (SameLog self.old self.new) }
        ensures fault { IfErr result (ExplainsLeave (state self.old) client) }
        ensures setting { SameSetting self.old self.new }
        ensures nodes { SameNodes self.old self.new }
        ensures out { self.new.out ≡ self.old.out }
        ensures stop { self.new.stop ≡ self.old.stop }
    {
        self.record.leave(alloc, client)
    }
}
