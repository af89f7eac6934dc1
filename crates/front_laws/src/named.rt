// Laws of the definitions: a call does nothing, and its contract is the law.

ghost use Rattle.front_laws.specs.Named.{TypesAreNamed, SpecificationsAreNamed, TextTypesAreNamed};

/// Types that are read from tokens which are named have names that the grammar allows.
pub fn types_are_named()
    ensures { TypesAreNamed }
{}

/// So have the gates and the global types of a specification.
pub fn specifications_are_named()
    ensures { SpecificationsAreNamed }
{}

/// So have all types of a text.
pub fn text_types_are_named()
    ensures { TextTypesAreNamed }
{}
