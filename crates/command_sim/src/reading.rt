// The input is read.

ghost use Rattle.std.specs.Prelude.{ℕ, ◌≡◌, ◌≤◌, ◌⊎◌, [], IfOk, IsErrOf, List, OnErr, OnOk, Some, length};
ghost use Rattle.spec_core.specs.Code.{program_of};
ghost use Rattle.spec_core.specs.Ready.{IsReady};
ghost use Rattle.lotos_outside.specs.Counts.{Rose};
ghost use Rattle.lotos_outside.specs.Sink.{AppendsPrefix};
ghost use Rattle.value_text.specs.Vocabularies.{IsWhole};
ghost use Rattle.command_lines.specs.Inputs.{inlet};
ghost use Rattle.command_lines.specs.Lines.{IsUnended};
ghost use Rattle.command_sim.specs.Simulations.{input_limit, piece_size, IsCut, IsSimulated};
ghost use Rattle.command_sim.specs.Steps.{CutLast, CutPiece, CutRead, TookAll, TookLast, TookPiece, TookRead, Wrote};

use crate::answering::{answer_line, take_bytes};
use crate::end::End;
use lotos_outside::sink::{Sink, SinkFault, write_all};
use lotos_outside::source::{Source, SourceFault};
use run_settings::settings::Settings;
use simulator::sim::Sim;
use spec_core::code::Checked;
use std::alloc::Global;
use value_text::vocabulary::Vocabulary;

// The most bytes of the input that are taken, 2^20.
const INPUT_LIMIT: usize = 1_048_576;

// Writes the text that tells how the simulation ends.
fn tell<O: Sink>(out: &mut O, text: &[u8], end: End) -> Result<End, SinkFault>
    ensures end { IfOk result (λ told. told ≡ end) }
    ensures ok { OnOk result (Wrote text.now (O.written out.old) (O.written out.new)) }
    ensures err { OnErr result (AppendsPrefix text.now (O.written out.old) (O.written out.new)) }
    ensures failed { IsErrOf result SinkFault.Failed → Rose (O.faults out.old) (O.faults out.new) }
    ensures never_fewer { O.faults out.old ≤ O.faults out.new }
{
    write_all(out, text)?;
    Ok(end)
}

// The input has ended: what is left of it is its last line.
fn take_last<O: Sink>(
    alloc: Global,
    vocabulary: &Vocabulary,
    sim: &mut Sim,
    held: &[u8],
    out: &mut O,
) -> Result<End, SinkFault>
    requires whole { IsWhole vocabulary.now }
    requires unended { IsUnended held.now }
    ensures ok { IfOk result (TookLast (program_of vocabulary.now.checked.now) sim.old held.now (O.written out.old) (O.written out.new)) }
    ensures err { OnErr result (CutLast (program_of vocabulary.now.checked.now) sim.old held.now (O.written out.old) (O.written out.new)) }
    ensures failed { IsErrOf result SinkFault.Failed → Rose (O.faults out.old) (O.faults out.new) }
    ensures never_fewer { O.faults out.old ≤ O.faults out.new }
{
    match answer_line(alloc, vocabulary, sim, held, out)? {
        Some(end) => Ok(end),
        None => Ok(End::Done),
    }
}

// Takes bytes that were read, of which so many may be taken, and answers the lines that end in them. How this ends the simulation, if it does.
fn take_read<O: Sink>(
    alloc: Global,
    vocabulary: &Vocabulary,
    sim: &mut Sim,
    held: &mut Vec<u8>,
    room: &mut usize,
    bytes: &[u8],
    out: &mut O,
) -> Result<Option<End>, SinkFault>
    requires whole { IsWhole vocabulary.now }
    requires unended { IsUnended held.old.items }
    requires few { length bytes.now ≤ piece_size }
    ensures ok { IfOk result (λ ending. TookRead (program_of vocabulary.now.checked.now) sim.old held.old.items room.old bytes.now
        (O.written out.old) sim.new held.new.items room.new (O.written out.new) ending) }
    ensures err { OnErr result (CutRead (program_of vocabulary.now.checked.now) sim.old held.old.items room.old bytes.now
        (O.written out.old) (O.written out.new)) }
    ensures failed { IsErrOf result SinkFault.Failed → Rose (O.faults out.old) (O.faults out.new) }
    ensures never_fewer { O.faults out.old ≤ O.faults out.new }
{
    let within = bytes.len().min(*room);
    if let Some(end) = take_bytes(alloc, vocabulary, sim, held, &bytes[..within], out)? {
        return Ok(Some(end));
    }
    if bytes.len() > *room {
        return Ok(Some(tell(out, b"limit input\n", End::Limit)?));
    }
    *room -= bytes.len();
    Ok(None)
}

// Takes what comes next of the input, of which so many bytes may still be taken. How this ends the simulation, if it does.
fn take_piece<I: Source, O: Sink>(
    alloc: Global,
    vocabulary: &Vocabulary,
    sim: &mut Sim,
    held: &mut Vec<u8>,
    room: &mut usize,
    input: &mut I,
    out: &mut O,
) -> Result<Option<End>, SinkFault>
    requires whole { IsWhole vocabulary.now }
    requires unended { IsUnended held.old.items }
    ensures ok { IfOk result (λ ending. TookPiece (program_of vocabulary.now.checked.now) sim.old held.old.items room.old
        (inlet (I.rest input.old) (I.rest input.new) (I.faults input.old) (I.faults input.new)) (O.written out.old)
        sim.new held.new.items room.new (O.written out.new) ending) }
    ensures err { OnErr result (CutPiece (program_of vocabulary.now.checked.now) sim.old held.old.items room.old
        (inlet (I.rest input.old) (I.rest input.new) (I.faults input.old) (I.faults input.new)) (O.written out.old) (O.written out.new)) }
    ensures failed { IsErrOf result SinkFault.Failed → Rose (O.faults out.old) (O.faults out.new) }
    ensures never_fewer { O.faults out.old ≤ O.faults out.new }
    ensures input_faults { I.faults input.old ≤ I.faults input.new }
{
    let mut piece = [0; 4096];
    match input.read(&mut piece) {
        Err(SourceFault::Failed) => Ok(Some(tell(out, b"read fault\n", End::Unread)?)),
        Ok(count) => {
            if count == 0 {
                return Ok(Some(take_last(alloc, vocabulary, sim, held, out)?));
            }
            take_read(alloc, vocabulary, sim, held, room, &piece[..count], out)
        }
    }
}

// Takes the input, piece by piece.
fn take_all<I: Source, O: Sink>(
    alloc: Global,
    vocabulary: &Vocabulary,
    sim: &mut Sim,
    input: &mut I,
    out: &mut O,
) -> Result<End, SinkFault>
    requires whole { IsWhole vocabulary.now }
    ensures ok { IfOk result (TookAll (program_of vocabulary.now.checked.now) sim.old [] input_limit
        (inlet (I.rest input.old) (I.rest input.new) (I.faults input.old) (I.faults input.new)) (O.written out.old) (O.written out.new)) }
    ensures err { OnErr result (CutPiece (program_of vocabulary.now.checked.now) sim.old [] input_limit
        (inlet (I.rest input.old) (I.rest input.new) (I.faults input.old) (I.faults input.new)) (O.written out.old) (O.written out.new)) }
    ensures failed { IsErrOf result SinkFault.Failed → Rose (O.faults out.old) (O.faults out.new) }
{
    let mut held = Vec::new(alloc);
    let mut room = INPUT_LIMIT;
    for _ in 0..INPUT_LIMIT + 1 {
        if let Some(end) = take_piece(alloc, vocabulary, sim, &mut held, &mut room, input, out)? {
            return Ok(end);
        }
    }
    unreachable!()
}

/// Answers each line of the input at once, before more of it is read, by a simulation of the specification. How this ends.
///
/// A line ends with LF or CR LF, the last one also with the input; an empty line isn't answered. 4,096 bytes are asked for at a call. Lines that
/// end behind the first 1,048,576 bytes aren't answered, and no more is read once more than these came. After an error a prefix of what was due
/// was written.
pub fn simulate<I: Source, O: Sink>(
    alloc: Global,
    checked: &Checked,
    settings: Settings,
    input: &mut I,
    out: &mut O,
) -> Result<End, SinkFault>
    requires ready { IsReady (program_of checked.now) }
    ensures ok { IfOk result (λ end. (text : List ℕ) × IsSimulated (program_of checked.now) settings
        (inlet (I.rest input.old) (I.rest input.new) (I.faults input.old) (I.faults input.new)) text (Some end)
        × Wrote text (O.written out.old) (O.written out.new)) }
    // Where the output failed, the sink noted a fault, and a prefix of what was due was written.
    ensures failed { IsErrOf result SinkFault.Failed → Rose (O.faults out.old) (O.faults out.new) }
    ensures cut { IsErrOf result SinkFault.Failed → IsCut (program_of checked.now) settings
        (inlet (I.rest input.old) (I.rest input.new) (I.faults input.old) (I.faults input.new)) (O.written out.old) (O.written out.new) }
    // Where memory was wanting, nothing was written, or such a prefix.
    ensures memory { IsErrOf result SinkFault.Memory → (O.written out.new ≡ O.written out.old) ⊎ IsCut (program_of checked.now) settings
        (inlet (I.rest input.old) (I.rest input.new) (I.faults input.old) (I.faults input.new)) (O.written out.old) (O.written out.new) }
{
    let vocabulary = Vocabulary::new(alloc, checked)?;
    let mut sim = Sim::new(alloc, checked.copy(alloc)?, settings)?;
    take_all(alloc, &vocabulary, &mut sim, input, out)
}
