// What holds of the definitions.

ghost use Rattle.lotos_ast.specs.FirstRefusals.{FirstOfAListIsFirst, FirstOfAListStandsFirst};
ghost use Rattle.lotos_ast.specs.GrammarLaws.{OneTree, TreeOrFault, OneFault, RulesAreWellFormed, TypesAreWellFormed};
ghost use Rattle.lotos_ast.specs.GrammarLaws.{StopsAtFirst, FrontsAreViable, SpelledIsRead, ReadWithoutLimits};
ghost use Rattle.lotos_ast.specs.GrammarLaws.{StopsWithoutLimits, FrontBeforeFault, ReadOrTooDeep, StopsOrTooDeep};
ghost use Rattle.lotos_ast.specs.GrammarLaws.{LongestIsRead, StopsAtLongest};
ghost use Rattle.lotos_ast.specs.TokenLaws.{TokensOrRefusal, NotBoth, OneTokenList, OneRefusal};

/// Each text either isn't too long and has one list of tokens, or it has one refusal. The function does nothing.
#[tactic(auto, using(crate::proofs::TokenLaws::no_refusal, crate::proofs::TokenLaws::one_tokens, crate::proofs::TokenLaws::one_refusal))]
pub fn tokens_are_determined()
    ensures some { TokensOrRefusal }
    ensures not_both { NotBoth }
    ensures one_list { OneTokenList }
    ensures one_refusal { OneRefusal }
{}

/// Reading tokens by the grammar has at most one result: a tree and a rest, or a place and a reason at which it stops. The
/// function does nothing.
#[tactic(auto, using(crate::proofs::GrammarLaws::one_result))]
pub fn reading_has_at_most_one_result()
    ensures one_tree { OneTree }
    ensures not_both { TreeOrFault }
    ensures one_fault { OneFault }
{}

/// The conditions of the laws below hold of every rule of the grammar, and of types one after another. The function does nothing.
#[tactic(auto, using(crate::proofs::GrammarLaws::rules_are_well_formed, crate::proofs::GrammarLaws::types_are_well_formed))]
pub fn the_grammar_is_well_formed()
    ensures rules { RulesAreWellFormed }
    ensures types { TypesAreWellFormed }
{}

/// Where reading stops, limits of nesting aside, it is at the first token with which no text of the grammar goes on, whatever
/// the part. The function does nothing.
#[tactic(auto, using(crate::proofs::GrammarLaws::stops_at_first, crate::proofs::GrammarLaws::fronts_are_viable))]
pub fn reading_stops_at_the_first_token()
    ensures first { StopsAtFirst }
    ensures fronts { FrontsAreViable }
{}

/// The grammar as it is written spells what reading with one token ahead reads. The function does nothing.
#[tactic(auto, using(crate::proofs::GrammarLaws::spelled_is_read))]
pub fn one_token_ahead_is_enough()
    ensures whole { SpelledIsRead }
{}

/// The limits of nesting change nothing below them. The function does nothing.
pub fn limits_change_nothing_below_them()
    ensures read { ReadWithoutLimits }
    ensures stops { StopsWithoutLimits }
    ensures read_or_deep { ReadOrTooDeep }
    ensures stops_or_deep { StopsOrTooDeep }
    ensures front { FrontBeforeFault }
{}

/// The longest front of the tokens is read where that is a whole text, and reading stops behind it where it isn't. The function
/// does nothing.
#[tactic(auto, using(crate::proofs::LongestLaws::longest_is_read, crate::proofs::LongestLaws::stops_at_longest))]
pub fn the_longest_front_is_read()
    ensures read { LongestIsRead }
    ensures stops { StopsAtLongest }
{}

/// What `first_refusal` gives of a list is the first of those in it, and of those that stand together the one that is listed first. The
/// function does nothing.
#[tactic(auto, using(crate::proofs::FirstRefusals::first_of_a_list_is_first, crate::proofs::FirstRefusals::first_of_a_list_stands_first))]
pub fn first_refusals_are_first()
    ensures first { FirstOfAListIsFirst }
    ensures stands_first { FirstOfAListStandsFirst }
{}
