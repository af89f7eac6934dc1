// Offers as texts.

ghost use Rattle.std.specs.Prelude.{ℕ, ◌≡◌, IfOk};
ghost use Rattle.spec_core.specs.Code.{program_of};
ghost use Rattle.spec_core.specs.Sorts.{FitsData};
ghost use Rattle.spec_core.specs.Theories.{theory_of};
ghost use Rattle.script_text.specs.Answers.{IfKind};
ghost use Rattle.script_text.specs.Offers.{SpellsOffer, SpellsNoOffer};
ghost use Rattle.script_text.specs.Scripts.{WishFits};
ghost use Rattle.script_text.specs.Wishes.{Wished, wished_of};

use crate::fault::LineFault;
use crate::meaning::offer_meaning;
use crate::vocabulary::Vocabulary;
use crate::whole::whole;
use crate::wish::Wish;
use crate::written::OneOffer;
use spec_core::code::Checked;
use std::alloc::Global;

// The offer that a text spells.
#[tactic(auto, using(crate::proofs::Few::few_operations, crate::proofs::TheOffer::no_text_offered))]
fn offer_in(alloc: Global, text: &[u8], checked: &Checked) -> Result<Wish, LineFault>
    requires fits { FitsData (theory_of checked.now.algebra) }
    ensures spelled { IfOk result (λ w. SpellsOffer (program_of checked.now) text.now (wished_of w)) }
    ensures none { IfKind result (λ kind. SpellsNoOffer (program_of checked.now) text.now) }
{
    let offer = whole::<OneOffer>(alloc, text)?;
    let vocabulary = Vocabulary::new(alloc, &checked.algebra)?;
    offer_meaning(
        alloc,
        &vocabulary,
        &checked.gates,
        &offer.gate,
        &offer.fields,
        true,
    )
}

/// The offer that a text spells in the names of a specification, as a question whether it would be taken: a gate of the heading, and any
/// number of fields, each `!expression` or `?Sort`, as in a line of a script behind the client.
///
/// The faults have the kinds `Form`, `Gate`, `Sort` and `Term`, as those of a line of a script have.
pub fn read_offer(alloc: Global, text: &[u8], checked: &Checked) -> Result<Wish, LineFault>
    requires fits { FitsData (theory_of checked.now.algebra) }
    // The offer, and no other.
    ensures spelled { IfOk result (λ w. SpellsOffer (program_of checked.now) text.now (wished_of w)) }
    ensures only { IfOk result (λ w. (other : Wished) → SpellsOffer (program_of checked.now) text.now other → other ≡ wished_of w) }
    ensures fits { IfOk result (λ w. WishFits (program_of checked.now) (wished_of w)) }
    // Or there is none.
    ensures none { IfKind result (λ kind. SpellsNoOffer (program_of checked.now) text.now) }
{
    offer_in(alloc, text, checked)
}
