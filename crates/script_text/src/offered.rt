// What a line says.

ghost use Rattle.std.specs.Prelude.{◌≡◌, Some, false, true, IfOk, is_some, unwrap_or, option_map};
ghost use Rattle.script_text.specs.Answers.{IfKind};
ghost use Rattle.script_text.specs.Numbers.{is_number};
ghost use Rattle.script_text.specs.Views.{is_said, line_said};
ghost use Rattle.script_text.specs.Written.{IsLine, IsNoLine, is_skipped, is_word_before};

use crate::fault::LineFault;
use crate::numbers::is_number;
use crate::whole::whole;
use crate::written::{OneLine, WrittenLine};
use lotos_ast::text_kind::TextKind;
use lotos_ast::token::Token;
use std::alloc::Global;

impl WrittenLine {
    // The name of the gate.
    pub fn gate(&self) -> &Token
        ensures { result.now ≡ unwrap_or self.now.gate self.now.word }
    {
        match &self.gate {
            Some(gate) => gate,
            None => &self.word,
        }
    }

    // Whether the client only asks.
    pub fn asks(&self) -> bool
        ensures { result ≡ is_some self.now.gate }
    {
        self.gate.is_some()
    }

    // Whether the word before the gate, if there is one, is `ask`.
    fn has_right_word(&self) -> bool
        ensures { result ≡ is_word_before (option_map (λ t. t.text) self.now.gate) self.now.word.text }
    {
        match &self.gate {
            Some(_) => self.word.text.as_str().eq_ignore_ascii_case("ask"),
            None => true,
        }
    }

    // Whether the client is a number, and the word is right.
    fn is_said(&self) -> bool
        ensures { result ≡ is_said self.now }
    {
        is_number(self.client.text.as_str().as_bytes()) && self.has_right_word()
    }
}

// The offer or the ask that a line is, which is neither empty nor a remark.
#[tactic(auto, using(crate::proofs::FieldTrees::line_steps))]
pub fn spoken_line(alloc: Global, text: &[u8]) -> Result<WrittenLine, LineFault>
    requires heard { is_skipped text.now ≡ false }
    ensures says { IfOk result (λ l. IsLine text.now (Some (line_said l))) }
    ensures number { IfOk result (λ l. is_number l.client.text ≡ true) }
    ensures none { IfKind result (λ kind. IsNoLine text.now) }
    ensures form { IfKind result (λ kind. kind ≡ TextKind.Form) }
{
    let line = whole::<OneLine>(alloc, text)?;
    if line.is_said() {
        Ok(line)
    } else {
        Err(LineFault::Kind(TextKind::Form))
    }
}
