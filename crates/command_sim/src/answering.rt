// Lines are answered.

ghost use Rattle.std.specs.Prelude.{◌≤◌, ◌∷◌, [], IfOk, IsErrOf, OnErr};
ghost use Rattle.spec_core.specs.Code.{program_of};
ghost use Rattle.lotos_outside.specs.Counts.{Rose};
ghost use Rattle.value_text.specs.Vocabularies.{IsWhole};
ghost use Rattle.command_lines.specs.Lines.{IsUnended};
ghost use Rattle.command_sim.specs.Steps.{CutAnswer, CutBytes, CutLine, TookAnswer, TookBytes, TookLine};

use crate::end::End;
use crate::text::{end_by, text_of};
use command_lines::without_carriage_return;
use lotos_outside::sink::{Sink, SinkFault, write_all};
use simulator::sim::Sim;
use std::alloc::Global;
use value_text::vocabulary::Vocabulary;

// Answers a line.
#[tactic(auto, using(crate::proofs::Steps::answered_by))]
fn answer<O: Sink>(
    alloc: Global,
    vocabulary: &Vocabulary,
    sim: &mut Sim,
    line: &[u8],
    out: &mut O,
) -> Result<Option<End>, SinkFault>
    requires whole { IsWhole vocabulary.now }
    ensures ok { IfOk result (λ ending. TookAnswer (program_of vocabulary.now.checked.now) sim.old line.now (O.written out.old)
        sim.new (O.written out.new) ending) }
    ensures err { OnErr result (CutAnswer (program_of vocabulary.now.checked.now) sim.old line.now (O.written out.old) (O.written out.new)) }
    ensures failed { IsErrOf result SinkFault.Failed → Rose (O.faults out.old) (O.faults out.new) }
    ensures never_fewer { O.faults out.old ≤ O.faults out.new }
{
    let came = sim.step(line);
    let end = end_by(&came);
    let text = text_of(alloc, vocabulary, came)?;
    write_all(out, text.as_bytes())?;
    Ok(end)
}

/// Answers a line, whose text has no line end; an empty one isn't answered. How this ends the simulation, if it does.
#[tactic(auto, using(crate::proofs::Steps::took_empty, crate::proofs::Steps::took_some, crate::proofs::Steps::cut_some))]
pub fn answer_line<O: Sink>(
    alloc: Global,
    vocabulary: &Vocabulary,
    sim: &mut Sim,
    line: &[u8],
    out: &mut O,
) -> Result<Option<End>, SinkFault>
    requires whole { IsWhole vocabulary.now }
    ensures ok { IfOk result (λ ending. TookLine (program_of vocabulary.now.checked.now) sim.old line.now (O.written out.old)
        sim.new (O.written out.new) ending) }
    ensures err { OnErr result (CutLine (program_of vocabulary.now.checked.now) sim.old line.now (O.written out.old) (O.written out.new)) }
    ensures failed { IsErrOf result SinkFault.Failed → Rose (O.faults out.old) (O.faults out.new) }
    ensures never_fewer { O.faults out.old ≤ O.faults out.new }
{
    match line {
        [] => Ok(None),
        [..] => answer(alloc, vocabulary, sim, line, out),
    }
}

// The line that hasn't ended ends here.
#[tactic(auto, using(crate::proofs::Steps::took_line_end, crate::proofs::Steps::cut_line_end))]
fn end_line<O: Sink>(
    alloc: Global,
    vocabulary: &Vocabulary,
    sim: &mut Sim,
    held: &mut Vec<u8>,
    out: &mut O,
) -> Result<Option<End>, SinkFault>
    requires whole { IsWhole vocabulary.now }
    requires unended { IsUnended held.old.items }
    ensures ok { IfOk result (λ ending. TookBytes (program_of vocabulary.now.checked.now) sim.old held.old.items (10 ∷ []) (O.written out.old)
        sim.new held.new.items (O.written out.new) ending) }
    ensures err { OnErr result (CutBytes (program_of vocabulary.now.checked.now) sim.old held.old.items (10 ∷ [])
        (O.written out.old) (O.written out.new)) }
    ensures failed { IsErrOf result SinkFault.Failed → Rose (O.faults out.old) (O.faults out.new) }
    ensures never_fewer { O.faults out.old ≤ O.faults out.new }
{
    let end = answer_line(alloc, vocabulary, sim, without_carriage_return(held), out)?;
    held.clear();
    Ok(end)
}

// Takes a byte behind those of a line that hasn't ended. If it ends the line, the line is answered.
#[tactic(auto, using(crate::proofs::Steps::took_byte, crate::proofs::Steps::cut_nothing))]
fn take_byte<O: Sink>(
    alloc: Global,
    vocabulary: &Vocabulary,
    sim: &mut Sim,
    held: &mut Vec<u8>,
    byte: u8,
    out: &mut O,
) -> Result<Option<End>, SinkFault>
    requires whole { IsWhole vocabulary.now }
    requires unended { IsUnended held.old.items }
    ensures ok { IfOk result (λ ending. TookBytes (program_of vocabulary.now.checked.now) sim.old held.old.items (byte ∷ []) (O.written out.old)
        sim.new held.new.items (O.written out.new) ending) }
    ensures err { OnErr result (CutBytes (program_of vocabulary.now.checked.now) sim.old held.old.items (byte ∷ [])
        (O.written out.old) (O.written out.new)) }
    ensures failed { IsErrOf result SinkFault.Failed → Rose (O.faults out.old) (O.faults out.new) }
    ensures never_fewer { O.faults out.old ≤ O.faults out.new }
{
    if byte == b'\n' {
        return end_line(alloc, vocabulary, sim, held, out);
    }
    held.push(byte)?;
    Ok(None)
}

/// Takes bytes behind those of a line that hasn't ended, and answers each line that ends in them, up to the first that ends the simulation.
pub fn take_bytes<O: Sink>(
    alloc: Global,
    vocabulary: &Vocabulary,
    sim: &mut Sim,
    held: &mut Vec<u8>,
    bytes: &[u8],
    out: &mut O,
) -> Result<Option<End>, SinkFault>
    requires whole { IsWhole vocabulary.now }
    requires unended { IsUnended held.old.items }
    ensures ok { IfOk result (λ ending. TookBytes (program_of vocabulary.now.checked.now) sim.old held.old.items bytes.now (O.written out.old)
        sim.new held.new.items (O.written out.new) ending) }
    ensures err { OnErr result (CutBytes (program_of vocabulary.now.checked.now) sim.old held.old.items bytes.now
        (O.written out.old) (O.written out.new)) }
    ensures failed { IsErrOf result SinkFault.Failed → Rose (O.faults out.old) (O.faults out.new) }
    ensures never_fewer { O.faults out.old ≤ O.faults out.new }
{
    for byte in bytes {
        if let Some(end) = take_byte(alloc, vocabulary, sim, held, *byte, out)? {
            return Ok(Some(end));
        }
    }
    Ok(None)
}
