// Laws of the definitions: a call does nothing, and its contract is the law.

ghost use Rattle.static_uniqueness.specs.Trees.{TokensDetermineSpecifications};

use lotos_ast::laws::reading_has_at_most_one_result;

/// What is read of tokens as a specification is one specification, wherever its parts lie in memory: it has one name, the same gates and
/// functionality, and its behaviour and its processes are the same constructs.
pub fn tokens_determine_specifications()
    ensures { TokensDetermineSpecifications }
{
    reading_has_at_most_one_result();
}
