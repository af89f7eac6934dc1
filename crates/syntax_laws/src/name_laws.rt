// Laws of the definitions: a call does nothing, and its contract is the law.

ghost use Rattle.syntax_laws.specs.NameLaws.{TokensAreNamed};

/// The tokens of a text that name something are names that the grammar allows.
pub fn tokens_are_named()
    ensures { TokensAreNamed }
{}
