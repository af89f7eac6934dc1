// Laws of the definitions: a call does nothing, and its contract is the law.

ghost use Rattle.static_uniqueness.specs.Types.{SameIsRefused, SameIsRead, SameIsPresented};

/// Of types that are alike the same is refused.
#[tactic(auto, using(crate::proofs::Copies::refusals_same))]
pub fn the_same_is_refused()
    ensures { SameIsRefused }
{}

/// The own equations of types that are alike are read alike: as the same equations, with the same refusals.
#[tactic(auto, using(crate::proofs::Presented::own_same))]
pub fn the_same_is_read()
    ensures { SameIsRead }
{}

/// Types that are alike come to the same data.
#[tactic(auto, using(crate::proofs::Presented::data_same))]
pub fn the_same_is_presented()
    ensures { SameIsPresented }
{}
