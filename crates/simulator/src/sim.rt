// A simulation.

ghost use Rattle.std.specs.Prelude.{◌≡◌, IfErr, IfOk, None, false};
ghost use Rattle.spec_core.specs.Code.{program_of};
ghost use Rattle.spec_core.specs.Ready.{IsReady};
ghost use Rattle.simulator_lines.specs.Lines.{AskedFits, asked_of};
ghost use Rattle.board_core.specs.Views.{events, program, state};
ghost use Rattle.simulator_steps.specs.Records.{IsSession};
ghost use Rattle.simulator.specs.Sims.{ExplainsFault, HasBegun, IsAnswerTo, HasAnswer, HasNoAnswer};

use crate::answer::{SimAnswer, SimFault};
use crate::answering::{answer_line, lacks};
use board_core::board::Board;
use run_settings::settings::Settings;
use simulator_lines::line::SimLine;
use simulator_lines::read_line;
use spec_core::code::Checked;
use spec_core::memory::Memory;
use std::alloc::Global;
use std::marker::Model;

/// A session of one client, whose user chooses what is done.
#[derive(Drop)]
pub struct Sim {
    alloc: Global,
    board: Board,
    // How many steps the last menu has, unless an action was done since.
    steps: Option<u32>,
    // Whether a line met want of memory.
    failed: bool,
}

impl Model for Sim {
    ghost use Rattle.std.specs.Coded.{codes};
    ghost use Rattle.board_core.specs.contracts.board.Board as b;
    ghost use Rattle.simulator.specs.Sims.{IsSim, SimView};

    ghost Value = { SimView };

    ghost coded = { Prim.hlevel (codes, b.the_row.coded) };

    ghost view = { λ s. record { board = s.board; steps = s.steps; failed = s.failed } };

    ghost invariant = { λ s. IsSim (record { board = s.board; steps = s.steps; failed = s.failed }) };
}

impl Sim {
    /// A simulation of a specification, in which nothing was done yet.
    pub fn new(alloc: Global, checked: Checked, settings: Settings) -> Result<Sim, Memory>
        requires ready { IsReady (program_of checked) }
        ensures begun { IfOk result (HasBegun checked settings) }
    {
        let board = Board::new(alloc, checked, settings, 1)?;
        board.log_is_a_derivation();
        Ok(Sim {
            alloc,
            board,
            steps: None,
            failed: false,
        })
    }

    /// The specification. It takes no memory.
    pub fn checked(&self) -> &Checked
        ensures { result.now ≡ self.now.board.session.checked }
    {
        self.board.checked()
    }

    /// The log is a derivation, from the specification's behaviour with the client to the state that is reached.
    pub fn log_is_a_derivation(&self)
        ensures session { IsSession (program self.now.board) self.now.board.session.clients (events self.now.board) (state self.now.board) }
        ensures ready { IsReady (program self.now.board) }
    {
        self.board.log_is_a_derivation();
    }

    // The answer to a line, unless it asks for a step that the last menu lacks.
    fn answer(&mut self, line: &SimLine) -> Result<SimAnswer, SimFault>
        requires well { self.old.failed ≡ false }
        requires fits { AskedFits (program self.old.board) (asked_of line.now) }
        ensures answer { IfOk result (HasAnswer self.old self.new (asked_of line.now)) }
        ensures fault { IfErr result (HasNoAnswer self.old self.new (asked_of line.now)) }
    {
        if lacks(self.steps, line) {
            return Err(SimFault::NoStep);
        }
        self.failed = true;
        let (answer, steps) = answer_line(self.alloc, &mut self.board, self.steps, line)?;
        self.steps = steps;
        self.failed = false;
        Ok(answer)
    }

    /// Answers a line, whose text has no line end: `menu`, `do NUMBER`, `offer OFFER`, `trace` or `quit`. A step is done only if it stands in
    /// the last menu and no action was done since. Where a reason stops the session, the line is answered with it; from then on each menu is,
    /// each step of the last menu, and each offer whose terms have values.
    ///
    /// A text that is no line, and a step that the last menu lacks, change nothing. Once a line met want of memory, each further line has no
    /// answer for want of memory.
    pub fn step(&mut self, text: &[u8]) -> Result<SimAnswer, SimFault>
        ensures answer { IfOk result (IsAnswerTo self.old self.new text.now) }
        ensures fault { IfErr result (ExplainsFault self.old self.new text.now) }
    {
        if self.failed {
            return Err(SimFault::Memory);
        }
        self.board.log_is_a_derivation();
        match read_line(self.alloc, text, self.board.checked()) {
            Err(Memory) => {
                self.failed = true;
                Err(SimFault::Memory)
            }
            Ok(None) => Err(SimFault::BadLine),
            Ok(Some(line)) => self.answer(&line),
        }
    }
}
