// What the definitions say: a call does nothing, and its contract is the law.

ghost use Rattle.command_lines.specs.Lines.{LinesComeInParts};

/// The lines of bytes that are read in parts are those of the parts, where each part but the last ends with LF.
#[tactic(auto, using(crate::proofs::Lines::lines_come_in_parts))]
pub fn lines_come_in_parts()
    ensures { LinesComeInParts }
{}
