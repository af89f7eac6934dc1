// Scripts.

ghost use Rattle.std.specs.Prelude.{ℕ, ◌≡◌, ◌+◌, ◌-◌, ◌<◌, ◌≤◌, ◌∷◌, ◌++◌, [], List, IfOk, OnOk, IfSome, map, option_map};
ghost use Rattle.std.specs.Prelude.{option_to_list, length, vec_len, replicate, slice_set, slice_index_or};
ghost use Rattle.std.specs.Str.Lines.{lines};
ghost use Rattle.lotos_ast.specs.declared.text_kind.TextKind.{TextKind};
ghost use Rattle.spec_core.specs.Code.{program_of};
ghost use Rattle.spec_core.specs.Lists.{Each};
ghost use Rattle.spec_core.specs.Sorts.{FitsData};
ghost use Rattle.spec_core.specs.Theories.{theory_of};
ghost use Rattle.sort_overloads.specs.Views.{context_of};
ghost use Rattle.script_text.specs.Answers.{IfKind, IfLine};
ghost use Rattle.script_text.specs.Faults.{IsLineFault};
ghost use Rattle.script_text.specs.Scripts.{script_limit, LineSays, LinesSay, by_client, SpellsScript, WishFits};
ghost use Rattle.script_text.specs.Scripts.{IsFirstFault, IsScriptFault};
ghost use Rattle.script_text.specs.Views.{client_wish_of};
ghost use Rattle.script_text.specs.Wishes.{Wished, ClientWish, wished_of, all_wished_of, script_of};

use crate::fault::{LineFault, ScriptFault};
use crate::lines::{first_line, is_skipped};
use crate::meaning::line_meaning;
use crate::offered::spoken_line;
use crate::vocabulary::Vocabulary;
use crate::wish::{Script, Wish};
use lotos_ast::text_kind::TextKind;
use spec_core::code::Checked;
use spec_core::memory::Memory;
use spec_core::name::Name;
use std::alloc::Global;

/// The greatest number of bytes in a script.
pub const SCRIPT_LIMIT: usize = 1_048_576;

// What a line says.
#[tactic(auto, using(crate::proofs::Rows::line_rows))]
fn line_says(
    alloc: Global,
    vocabulary: &Vocabulary,
    gates: &[Name],
    text: &[u8],
) -> Result<Option<(u32, Wish)>, LineFault>
    ensures says { IfOk result (λ x. LineSays (context_of vocabulary.now.scope) gates.now text.now (option_map client_wish_of x)) }
    ensures client { IfOk result (λ said. IfSome said (λ x. 0 < x.0)) }
    ensures fault { IfKind result (IsLineFault (context_of vocabulary.now.scope) gates.now text.now) }
{
    if is_skipped(text) {
        return Ok(None);
    }
    let line = spoken_line(alloc, text)?;
    let wish = line_meaning(alloc, vocabulary, gates, &line)?;
    Ok(Some(wish))
}

// Adds clients without wishes until there are so many.
#[tactic(auto, using(crate::proofs::Grouping::room_steps))]
fn make_room(alloc: Global, clients: &mut Vec<Vec<Wish>>, count: usize) -> Result<(), Memory>
    ensures { OnOk result (map all_wished_of clients.new.items
        ≡ map all_wished_of clients.old.items ++ replicate (count - vec_len clients.old) []) }
{
    let missing = count.saturating_sub(clients.len());
    'missing: for _added in 0..missing {
        clients.push(Vec::new(alloc))?;
    }
    Ok(())
}

// Adds a wish behind those of the client at this place.
#[tactic(auto, using(crate::proofs::Grouping::pushed))]
fn push_wish(clients: &mut Vec<Vec<Wish>>, place: usize, wish: Wish) -> Result<(), Memory>
    requires there { place < vec_len clients.old }
    ensures { OnOk result (map all_wished_of clients.new.items ≡ slice_set (map all_wished_of clients.old.items) place
        (slice_index_or (map all_wished_of clients.old.items) place [] ++ wished_of wish ∷ [])) }
{
    clients[place].push(wish)?;
    Ok(())
}

// Adds a wish of a client behind those before it.
fn add_wish(
    alloc: Global,
    clients: &mut Vec<Vec<Wish>>,
    client: u32,
    wish: Wish,
) -> Result<(), Memory>
    requires client { 0 < client }
    ensures added { OnOk result ((before : List ClientWish) → map all_wished_of clients.old.items ≡ by_client before →
        map all_wished_of clients.new.items ≡ by_client (before ++ client_wish_of (client, wish) ∷ [])) }
{
    let count = client as usize;
    make_room(alloc, clients, count)?;
    push_wish(clients, count - 1, wish)?;
    Ok(())
}

// Adds what a line says, behind what those before it say.
#[tactic(auto, using(crate::proofs::Grouping::no_wish_more))]
fn add(alloc: Global, clients: &mut Vec<Vec<Wish>>, said: Option<(u32, Wish)>) -> Result<(), Memory>
    requires client { IfSome said (λ x. 0 < x.0) }
    ensures added { OnOk result ((before : List ClientWish) → map all_wished_of clients.old.items ≡ by_client before →
        map all_wished_of clients.new.items ≡ by_client (before ++ option_to_list (option_map client_wish_of said))) }
{
    match said {
        None => Ok(()),
        Some((client, wish)) => add_wish(alloc, clients, client, wish),
    }
}

// What the lines of a text say, by client.
#[tactic(auto, using(crate::proofs::Reading::reading_steps))]
fn read_lines(
    alloc: Global,
    vocabulary: &Vocabulary,
    gates: &[Name],
    text: &[u8],
) -> Result<Script, ScriptFault>
    requires short { length text.now ≤ script_limit }
    ensures spelled { IfOk result (λ s. (said : List ClientWish) ×
        LinesSay (context_of vocabulary.now.scope) gates.now (lines text.now) said × (script_of s ≡ by_client said)) }
    ensures fault { IfLine result (λ line kind. (count : ℕ) × (line ≡ count + 1) ×
        IsFirstFault (context_of vocabulary.now.scope) gates.now (lines text.now) count kind) }
{
    let mut clients = Vec::new(alloc);
    let mut rest = text;
    let mut number: u64 = 0;
    'lines: while !rest.is_empty() {
        let (line, behind) = first_line(rest);
        number += 1;
        let said = match line_says(alloc, vocabulary, gates, line) {
            Ok(said) => said,
            Err(fault) => return Err(fault.at(number)),
        };
        add(alloc, &mut clients, said)?;
        rest = behind;
    }
    Ok(Script { clients })
}

// The script that a text spells, or its fault.
#[tactic(auto, using(crate::proofs::Few::few_operations, crate::proofs::TheScript::script_rows))]
fn script_in(alloc: Global, text: &[u8], checked: &Checked) -> Result<Script, ScriptFault>
    requires fits { FitsData (theory_of checked.now.algebra) }
    ensures spelled { IfOk result (λ s. SpellsScript (program_of checked.now) text.now (script_of s)) }
    ensures fault { IfLine result (IsScriptFault (program_of checked.now) text.now) }
{
    if text.len() > SCRIPT_LIMIT {
        return Err(ScriptFault::Line {
            line: 0,
            kind: TextKind::Long,
        });
    }
    let vocabulary = Vocabulary::new(alloc, &checked.algebra)?;
    read_lines(alloc, &vocabulary, &checked.gates, text)
}

/// The script that a text spells in the names of a specification.
///
/// A line ends with LF or with CR LF, the last one also with the end of the text. Empty lines, and lines whose first byte is `#`, say
/// nothing.
/// Each other line is a client from 1 to 64 in decimal digits, a colon, the word `ask` where the client only asks, a gate of the
/// specification's heading, and any number of fields, each `!expression` or `?Sort`.
///
/// The fault is that of the first line that isn't so, counted from 1, the kinds in this order: `Form`; `Client`, where the number isn't one
/// from 1 to 64; `Gate`; `Sort`, where a field names a sort that the specification doesn't have; `Term`, where an expression hasn't exactly
/// one reading. A text of more than [`SCRIPT_LIMIT`] bytes is at fault as `Long`, with line 0.
pub fn read_script(alloc: Global, text: &[u8], checked: &Checked) -> Result<Script, ScriptFault>
    requires fits { FitsData (theory_of checked.now.algebra) }
    // The script, and no other.
    ensures spelled { IfOk result (λ s. SpellsScript (program_of checked.now) text.now (script_of s)) }
    ensures only { IfOk result (λ s. (others : List (List Wished)) →
        SpellsScript (program_of checked.now) text.now others → others ≡ script_of s) }
    ensures fits { IfOk result (λ s. Each (Each (WishFits (program_of checked.now))) (script_of s)) }
    ensures clients { IfOk result (λ s. length (script_of s) ≤ 64) }
    ensures faultless { IfOk result (λ s. (line : ℕ) (kind : TextKind) → IsScriptFault (program_of checked.now) text.now line kind → ⊥) }
    // Or the fault, and no other.
    ensures fault { IfLine result (IsScriptFault (program_of checked.now) text.now) }
    ensures only_fault { IfLine result (λ line kind. (other : ℕ) (another : TextKind) →
        IsScriptFault (program_of checked.now) text.now other another → (other ≡ line) × (another ≡ kind)) }
    ensures no_script { IfLine result (λ line kind. (clients : List (List Wished)) →
        SpellsScript (program_of checked.now) text.now clients → ⊥) }
{
    script_in(alloc, text, checked)
}
