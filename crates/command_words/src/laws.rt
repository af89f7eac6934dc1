// What the definitions say: a call does nothing, and its contract is the law.

ghost use Rattle.command_words.specs.Laws.{UsageIsExact, WantedWordsAreFound};

/// Wherever `clap` has matches of the words behind a command, it finds each word that the command names.
#[tactic(auto, using(crate::proofs::Wanted::wanted_words_are_found))]
pub fn wanted_words_are_found()
    ensures { WantedWordsAreFound }
{}

/// Words behind a command are no call of it exactly where `clap` has no matches of them, or a number among them isn't one in its range.
#[tactic(auto, using(crate::proofs::Usage::usage_is_exact))]
pub fn usage_is_exact()
    ensures { UsageIsExact }
{}
