// How `clap` reads the words behind a command.

ghost use Rattle.std.specs.Prelude.{◌≡◌, IfOk, map, option_map, string_bytes, true, false};
ghost use Rattle.clap.specs.Words.{app_of, first_of, found_of, is_simple, is_simple_and_free, rows_of, rule_of};
ghost use Rattle.command_words.specs.Readers as readers;

use clap::error::ErrorKind;
use clap::{Arg, ArgAction, ArgMatches, Command};
use spec_core::memory::Memory;
use std::alloc::{AllocError, Global};

// A word that the command names.
fn named<'a>(alloc: Global, id: &'a str) -> Arg<'a>
    ensures rule { rule_of result ≡ readers.named id.entry.now }
    ensures local { result.global ≡ false }
{
    Arg::new(alloc, id).required(true).action(ArgAction::Set)
}

// An option with a number.
fn numbered<'a>(alloc: Global, id: &'a str) -> Arg<'a>
    ensures rule { rule_of result ≡ readers.numbered id.entry.now }
    ensures local { result.global ≡ false }
{
    Arg::new(alloc, id).long(id).action(ArgAction::Set)
}

// A command without words; its own name isn't among those that are read.
fn bare<'a>(alloc: Global, name: &'a str) -> Command<'a>
    ensures { app_of result ≡ readers.bare name.entry.now }
{
    Command::new(alloc, name)
        .no_binary_name(true)
        .disable_help_flag(true)
        .disable_version_flag(true)
}

/// Reads the words of `run`.
pub fn run_reader<'a>(alloc: Global) -> Result<Command<'a>, AllocError>
    ensures { IfOk result (λ c. app_of c ≡ readers.run_reader) }
{
    bare(alloc, "run")
        .arg(named(alloc, "SPEC"))?
        .arg(named(alloc, "SCRIPT"))?
        .arg(numbered(alloc, "workers"))?
        .arg(numbered(alloc, "budget"))?
        .arg(numbered(alloc, "values"))?
        .arg(numbered(alloc, "steps"))?
        .arg(numbered(alloc, "seed"))?
        .arg(numbered(alloc, "draw"))?
        .arg(numbered(alloc, "format"))
}

/// Reads the words of `check`.
pub fn check_reader<'a>(alloc: Global) -> Result<Command<'a>, AllocError>
    ensures { IfOk result (λ c. app_of c ≡ readers.check_reader) }
{
    bare(alloc, "check").arg(named(alloc, "SPEC"))
}

/// Reads the words of `equal`.
pub fn equal_reader<'a>(alloc: Global) -> Result<Command<'a>, AllocError>
    ensures { IfOk result (λ c. app_of c ≡ readers.equal_reader) }
{
    bare(alloc, "equal")
        .arg(named(alloc, "SPEC"))?
        .arg(named(alloc, "FIRST"))?
        .arg(named(alloc, "SECOND"))?
        .arg(numbered(alloc, "budget"))
}

/// Reads the words of `replay`.
pub fn replay_reader<'a>(alloc: Global) -> Result<Command<'a>, AllocError>
    ensures { IfOk result (λ c. app_of c ≡ readers.replay_reader) }
{
    bare(alloc, "replay")
        .arg(named(alloc, "SPEC"))?
        .arg(named(alloc, "TRACE"))?
        .arg(numbered(alloc, "budget"))
}

/// Reads the words of `migrate`.
pub fn migrate_reader<'a>(alloc: Global) -> Result<Command<'a>, AllocError>
    ensures { IfOk result (λ c. app_of c ≡ readers.migrate_reader) }
{
    bare(alloc, "migrate")
        .arg(named(alloc, "SPEC"))?
        .arg(named(alloc, "TRACE"))
}

/// Reads the words of `sim`.
pub fn sim_reader<'a>(alloc: Global) -> Result<Command<'a>, AllocError>
    ensures { IfOk result (λ c. app_of c ≡ readers.sim_reader) }
{
    bare(alloc, "sim")
        .arg(named(alloc, "SPEC"))?
        .arg(numbered(alloc, "budget"))?
        .arg(numbered(alloc, "values"))?
        .arg(numbered(alloc, "steps"))
}

/// Reads the words of `selfrun`.
pub fn selfrun_reader<'a>(alloc: Global) -> Result<Command<'a>, AllocError>
    ensures { IfOk result (λ c. app_of c ≡ readers.selfrun_reader) }
{
    bare(alloc, "selfrun")
        .arg(named(alloc, "SEED"))?
        .arg(named(alloc, "SIZE"))?
        .arg(numbered(alloc, "workers"))
}

/// What the reader finds in the words, where it has matches of them.
pub fn find<'a>(reader: Command<'a>, words: &'a [String]) -> Result<Option<ArgMatches<'a>>, Memory>
    requires simple { is_simple (app_of reader) ≡ true }
    requires free { is_simple_and_free (app_of reader) ≡ true }
    ensures { IfOk result (λ r. option_map (λ m. rows_of (found_of m)) r ≡ readers.found_in (app_of reader.entry) (map string_bytes words.now)) }
{
    match reader.try_get_matches_from(words) {
        Ok(matches) => Ok(Some(matches)),
        Err(error) => match error.kind() {
            ErrorKind::OutOfMemory => Err(Memory),
            _ => Ok(None),
        },
    }
}

/// The word that was found under a name, if one was.
pub fn text_at<'a>(matches: &ArgMatches<'a>, id: &str) -> Option<&'a str>
    ensures { option_map (λ w. w.now) result ≡ first_of id.now (rows_of (found_of matches.now)) }
{
    matches.get_str(id)
}
