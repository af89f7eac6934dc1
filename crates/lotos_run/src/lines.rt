// Lines that several commands print.

ghost use Rattle.std.specs.Prelude.{◌≡◌, IfOk};
ghost use Rattle.spec_core.specs.Terms.{term_of};
ghost use Rattle.spec_core.specs.Theories.{theory_of};
ghost use Rattle.lotos_run.specs.Lines as lines;

use lotos_ast::text_kind::TextKind;
use spec_core::equation::DataSpec;
use spec_core::memory::Memory;
use spec_core::term::Term;
use spec_core::term_text::term_text;
use std::alloc::Global;

// What is wrong with a line, in a word.
fn kind_text(kind: TextKind) -> &'static str
    ensures { result.now ≡ lines.kind_text kind }
{
    match kind {
        TextKind::Long => "long",
        TextKind::Form => "form",
        TextKind::Client => "client",
        TextKind::Gate => "gate",
        TextKind::Sort => "sort",
        TextKind::Term => "term",
    }
}

/// A text as its bytes.
pub fn bytes_of(alloc: Global, text: &str) -> Result<Vec<u8>, Memory>
    ensures { IfOk result (λ bytes. bytes.items ≡ text.now) }
{
    Ok(Vec::from_slice(alloc, text.as_bytes())?)
}

/// A script, a term or a trace that isn't as it has to be.
pub fn script_refusal(alloc: Global, line: u64, kind: TextKind) -> Result<Vec<u8>, Memory>
    ensures { IfOk result (λ text. text.items ≡ lines.script_refusal line kind) }
{
    let kind = kind_text(kind);
    let text = format!(in alloc; "script refused {line} {kind}\n")?;
    bytes_of(alloc, &text)
}

/// A ground term behind a word.
pub fn term_line(
    alloc: Global,
    word: &str,
    algebra: &DataSpec,
    term: &Term,
) -> Result<Vec<u8>, Memory>
    ensures { IfOk result (λ text. text.items ≡ lines.term_line word.now (theory_of algebra.now) (term_of term.now)) }
{
    let term = term_text(alloc, &algebra.signature, term, &[])?;
    let text = format!(in alloc; "{word}{term}\n")?;
    bytes_of(alloc, &text)
}
