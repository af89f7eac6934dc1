// Laws of the definitions: a call does nothing, and its contract is the law.

ghost use Rattle.static_uniqueness.specs.Specifications.{SameIsJudged};

use crate::constructs::the_same_is_read;

/// Specifications that are alike are judged alike: they come to the same program, if to any, with the same refusals.
#[tactic(auto, using(crate::proofs::Judged::same_is_judged))]
pub fn the_same_is_judged()
    ensures { SameIsJudged }
{
    the_same_is_read();
}
