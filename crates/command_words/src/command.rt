// The commands, and the words that name them.

ghost use Rattle.std.specs.Prelude.{◌≡◌, IfOk, IfSome, map, option_map, string_bytes};
ghost use Rattle.clap.specs.Words.{found_of, rows_of};
ghost use Rattle.command_words.specs.Commands as commands;
ghost use Rattle.command_words.specs.Commands.{check_of, command_named, command_of, equal_of, migrate_of, replay_of, run_of, selfrun_of, sim_of};
ghost use Rattle.command_words.specs.Commands.{IsWithinRanges};

use crate::number::number_at;
use crate::option::{Choices, OptionName, choices_of};
use crate::reader::{
    check_reader, equal_reader, find, migrate_reader, replay_reader, run_reader, selfrun_reader,
    sim_reader, text_at,
};
use clap::ArgMatches;
use run_settings::settings::Settings;
use spec_core::memory::Memory;
use std::alloc::Global;
use trace_text::Format;

/// A command with the names of its files, its terms and its numbers.
#[derive(Drop)]
pub enum Command<'w> {
    /// A session of a specification with a script.
    Run {
        specification: &'w str,
        script: &'w str,
        /// What bounds and steers the session.
        settings: Settings,
        /// How many workers do its jobs, from 0 to 64.
        workers: u32,
        /// In which format its trace is printed.
        format: Format,
    },
    /// Whether a specification is accepted.
    Check {
        specification: &'w str,
    },
    /// Whether two terms of a specification are equal.
    Equal {
        specification: &'w str,
        first: &'w str,
        second: &'w str,
        /// The greatest number of uses of equations in the evaluation of each term, from 1 to 2^32.
        budget: u64,
    },
    /// Whether a trace is a derivation of a specification.
    Replay {
        specification: &'w str,
        trace: &'w str,
        /// The greatest number of uses of equations in the evaluation of each term, from 1 to 2^32.
        budget: u64,
    },
    /// A trace in format 2.
    Migrate {
        specification: &'w str,
        trace: &'w str,
    },
    /// A simulation of a specification by hand.
    Sim {
        specification: &'w str,
        /// What bounds the simulation.
        settings: Settings,
    },
    /// A session of a generated specification with a generated script.
    Selfrun {
        /// What the script is drawn from.
        seed: u32,
        /// How many cells the specification has, from 1 to 64.
        size: u32,
        /// How many workers do the jobs of the session, from 0 to 64.
        workers: u32,
    },
}

// What `run` is told by what `clap` finds.
fn run_by<'w>(matches: &ArgMatches<'w>) -> Option<Command<'w>>
    ensures command { option_map command_named result ≡ commands.run_by (rows_of (found_of matches.now)) }
    ensures ranges { IfSome result IsWithinRanges }
{
    let specification = text_at(matches, "SPEC")?;
    let script = text_at(matches, "SCRIPT")?;
    let known = [
        OptionName::Workers,
        OptionName::Budget,
        OptionName::Values,
        OptionName::Steps,
        OptionName::Seed,
        OptionName::Draw,
        OptionName::Format,
    ];
    let Choices {
        settings,
        workers,
        format,
    } = choices_of(&known, matches)?;
    Some(Command::Run {
        specification,
        script,
        settings,
        workers,
        format,
    })
}

// What `run` is told by the words behind it.
fn run(alloc: Global, words: &[String]) -> Result<Option<Command<'_>>, Memory>
    ensures command { IfOk result (λ r. option_map command_named r ≡ run_of (map string_bytes words.now)) }
    ensures ranges { IfOk result (λ r. IfSome r IsWithinRanges) }
{
    match find(run_reader(alloc)?, words)? {
        Some(matches) => Ok(run_by(&matches)),
        None => Ok(None),
    }
}

// What `check` is told by what `clap` finds.
fn check_by<'w>(matches: &ArgMatches<'w>) -> Option<Command<'w>>
    ensures command { option_map command_named result ≡ commands.check_by (rows_of (found_of matches.now)) }
    ensures ranges { IfSome result IsWithinRanges }
{
    let specification = text_at(matches, "SPEC")?;
    Some(Command::Check { specification })
}

// What `check` is told by the words behind it.
fn check(alloc: Global, words: &[String]) -> Result<Option<Command<'_>>, Memory>
    ensures command { IfOk result (λ r. option_map command_named r ≡ check_of (map string_bytes words.now)) }
    ensures ranges { IfOk result (λ r. IfSome r IsWithinRanges) }
{
    match find(check_reader(alloc)?, words)? {
        Some(matches) => Ok(check_by(&matches)),
        None => Ok(None),
    }
}

// What `equal` is told by what `clap` finds.
fn equal_by<'w>(matches: &ArgMatches<'w>) -> Option<Command<'w>>
    ensures command { option_map command_named result ≡ commands.equal_by (rows_of (found_of matches.now)) }
    ensures ranges { IfSome result IsWithinRanges }
{
    let specification = text_at(matches, "SPEC")?;
    let first = text_at(matches, "FIRST")?;
    let second = text_at(matches, "SECOND")?;
    let budget = choices_of(&[OptionName::Budget], matches)?.settings.budget;
    Some(Command::Equal {
        specification,
        first,
        second,
        budget,
    })
}

// What `equal` is told by the words behind it.
fn equal(alloc: Global, words: &[String]) -> Result<Option<Command<'_>>, Memory>
    ensures command { IfOk result (λ r. option_map command_named r ≡ equal_of (map string_bytes words.now)) }
    ensures ranges { IfOk result (λ r. IfSome r IsWithinRanges) }
{
    match find(equal_reader(alloc)?, words)? {
        Some(matches) => Ok(equal_by(&matches)),
        None => Ok(None),
    }
}

// What `replay` is told by what `clap` finds.
fn replay_by<'w>(matches: &ArgMatches<'w>) -> Option<Command<'w>>
    ensures command { option_map command_named result ≡ commands.replay_by (rows_of (found_of matches.now)) }
    ensures ranges { IfSome result IsWithinRanges }
{
    let specification = text_at(matches, "SPEC")?;
    let trace = text_at(matches, "TRACE")?;
    let budget = choices_of(&[OptionName::Budget], matches)?.settings.budget;
    Some(Command::Replay {
        specification,
        trace,
        budget,
    })
}

// What `replay` is told by the words behind it.
fn replay(alloc: Global, words: &[String]) -> Result<Option<Command<'_>>, Memory>
    ensures command { IfOk result (λ r. option_map command_named r ≡ replay_of (map string_bytes words.now)) }
    ensures ranges { IfOk result (λ r. IfSome r IsWithinRanges) }
{
    match find(replay_reader(alloc)?, words)? {
        Some(matches) => Ok(replay_by(&matches)),
        None => Ok(None),
    }
}

// What `migrate` is told by what `clap` finds.
fn migrate_by<'w>(matches: &ArgMatches<'w>) -> Option<Command<'w>>
    ensures command { option_map command_named result ≡ commands.migrate_by (rows_of (found_of matches.now)) }
    ensures ranges { IfSome result IsWithinRanges }
{
    let specification = text_at(matches, "SPEC")?;
    let trace = text_at(matches, "TRACE")?;
    Some(Command::Migrate {
        specification,
        trace,
    })
}

// What `migrate` is told by the words behind it.
fn migrate(alloc: Global, words: &[String]) -> Result<Option<Command<'_>>, Memory>
    ensures command { IfOk result (λ r. option_map command_named r ≡ migrate_of (map string_bytes words.now)) }
    ensures ranges { IfOk result (λ r. IfSome r IsWithinRanges) }
{
    match find(migrate_reader(alloc)?, words)? {
        Some(matches) => Ok(migrate_by(&matches)),
        None => Ok(None),
    }
}

// What `sim` is told by what `clap` finds.
fn sim_by<'w>(matches: &ArgMatches<'w>) -> Option<Command<'w>>
    ensures command { option_map command_named result ≡ commands.sim_by (rows_of (found_of matches.now)) }
    ensures ranges { IfSome result IsWithinRanges }
{
    let specification = text_at(matches, "SPEC")?;
    let known = [OptionName::Budget, OptionName::Values, OptionName::Steps];
    let settings = choices_of(&known, matches)?.settings;
    Some(Command::Sim {
        specification,
        settings,
    })
}

// What `sim` is told by the words behind it.
fn sim(alloc: Global, words: &[String]) -> Result<Option<Command<'_>>, Memory>
    ensures command { IfOk result (λ r. option_map command_named r ≡ sim_of (map string_bytes words.now)) }
    ensures ranges { IfOk result (λ r. IfSome r IsWithinRanges) }
{
    match find(sim_reader(alloc)?, words)? {
        Some(matches) => Ok(sim_by(&matches)),
        None => Ok(None),
    }
}

// What `selfrun` is told by what `clap` finds.
fn selfrun_by<'w>(matches: &ArgMatches<'w>) -> Option<Command<'w>>
    ensures command { option_map command_named result ≡ commands.selfrun_by (rows_of (found_of matches.now)) }
    ensures ranges { IfSome result IsWithinRanges }
{
    let seed = number_at(matches, "SEED", 0, 4_294_967_295)?;
    let size = number_at(matches, "SIZE", 1, 64)?;
    let workers = choices_of(&[OptionName::Workers], matches)?.workers;
    Some(Command::Selfrun {
        seed: seed as u32,
        size: size as u32,
        workers,
    })
}

// What `selfrun` is told by the words behind it.
fn selfrun(alloc: Global, words: &[String]) -> Result<Option<Command<'_>>, Memory>
    ensures command { IfOk result (λ r. option_map command_named r ≡ selfrun_of (map string_bytes words.now)) }
    ensures ranges { IfOk result (λ r. IfSome r IsWithinRanges) }
{
    match find(selfrun_reader(alloc)?, words)? {
        Some(matches) => Ok(selfrun_by(&matches)),
        None => Ok(None),
    }
}

/// The command that words name, if they name one.
pub fn read_command(alloc: Global, words: &[String]) -> Result<Option<Command<'_>>, Memory>
    ensures command { IfOk result (λ r. option_map command_named r ≡ command_of (map string_bytes words.now)) }
    ensures ranges { IfOk result (λ r. IfSome r IsWithinRanges) }
{
    match words {
        [name, words @ ..] => match name.as_str() {
            "run" => run(alloc, words),
            "check" => check(alloc, words),
            "equal" => equal(alloc, words),
            "replay" => replay(alloc, words),
            "migrate" => migrate(alloc, words),
            "sim" => sim(alloc, words),
            "selfrun" => selfrun(alloc, words),
            _ => Ok(None),
        },
        [] => Ok(None),
    }
}
