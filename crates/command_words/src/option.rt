// Options of a command and their numbers.

ghost use Rattle.std.specs.Prelude.{◌≡◌, ◌≤◌, ◌<◌, ◌^◌, IfSome, option_map, option_and_then};
ghost use Rattle.clap.specs.Words.{first_of, found_of, rows_of};
ghost use Rattle.command_words.specs.Options as options;
ghost use Rattle.command_words.specs.Options.{HasFewWorkers};

use crate::number::number_within;
use crate::reader::text_at;
use clap::ArgMatches;
use run_settings::settings::{Draw, Settings};
use trace_text::Format;

/// An option that a command may have.
#[derive(Clone, Copy, Debug, PartialEq, Eq)]
pub enum OptionName {
    /// The greatest number of uses of equations in one evaluation, from 1 to 2^32.
    Budget,
    /// How many values of a sort are tried, from 1 to 256.
    Values,
    /// The greatest number of actions, from 1 to 1,000,000.
    Steps,
    /// What chooses among internal steps, from 0 to 2^32 - 1.
    Seed,
    /// How the seed chooses, 1 or 2.
    Draw,
    /// How many workers do the jobs of a session, from 0 to 64.
    Workers,
    /// In which format a trace is printed, 1 or 2.
    Format,
}

/// What options choose.
#[derive(Clone, Copy, Debug, PartialEq, Eq)]
pub struct Choices {
    /// What bounds and steers a session.
    pub settings: Settings,
    /// How many workers do its jobs, from 0 to 64.
    pub workers: u32,
    /// In which format a trace is printed.
    pub format: Format,
}

// The draw with a number, 1 or 2.
fn draw_numbered(number: u64) -> Draw
    ensures { result ≡ options.draw_numbered number }
{
    if number == 1 {
        Draw::Rotation
    } else {
        Draw::Squares
    }
}

// The format with a number, 1 or 2.
fn format_numbered(number: u64) -> Format
    ensures { result ≡ options.format_numbered number }
{
    if number == 1 {
        Format::One
    } else {
        Format::Two
    }
}

impl OptionName {
    // What stands behind its two hyphens.
    fn name(self) -> &'static str
        ensures { result.now ≡ options.name_of self }
    {
        match self {
            OptionName::Budget => "budget",
            OptionName::Values => "values",
            OptionName::Steps => "steps",
            OptionName::Seed => "seed",
            OptionName::Draw => "draw",
            OptionName::Workers => "workers",
            OptionName::Format => "format",
        }
    }

    // The least number that it may be given.
    fn least(self) -> u64
        ensures { result ≡ options.least self }
    {
        match self {
            OptionName::Budget => 1,
            OptionName::Values => 1,
            OptionName::Steps => 1,
            OptionName::Seed => 0,
            OptionName::Draw => 1,
            OptionName::Workers => 0,
            OptionName::Format => 1,
        }
    }

    // The greatest number that it may be given.
    fn greatest(self) -> u64
        ensures greatest { result ≡ options.greatest self }
        ensures small { result < 2 ^ 60 }
    {
        match self {
            OptionName::Budget => 4_294_967_296,
            OptionName::Values => 256,
            OptionName::Steps => 1_000_000,
            OptionName::Seed => 4_294_967_295,
            OptionName::Draw => 2,
            OptionName::Workers => 64,
            OptionName::Format => 2,
        }
    }

    // The choices with this number for the option.
    fn choose(self, choices: Choices, number: u64) -> Choices
        requires { number ≤ options.greatest self }
        ensures choices { result ≡ options.choosing self choices number }
        ensures workers { HasFewWorkers choices → HasFewWorkers result }
    {
        let Choices {
            settings,
            workers,
            format,
        } = choices;
        match self {
            OptionName::Budget => Choices {
                settings: Settings {
                    budget: number,
                    ..settings
                },
                workers,
                format,
            },
            OptionName::Values => Choices {
                settings: Settings {
                    values: number as u32,
                    ..settings
                },
                workers,
                format,
            },
            OptionName::Steps => Choices {
                settings: Settings {
                    steps: number as u32,
                    ..settings
                },
                workers,
                format,
            },
            OptionName::Seed => Choices {
                settings: Settings {
                    seed: number as u32,
                    ..settings
                },
                workers,
                format,
            },
            OptionName::Draw => Choices {
                settings: Settings {
                    draw: draw_numbered(number),
                    ..settings
                },
                workers,
                format,
            },
            OptionName::Workers => Choices {
                settings,
                workers: number as u32,
                format,
            },
            OptionName::Format => Choices {
                settings,
                workers,
                format: format_numbered(number),
            },
        }
    }
}

/// What holds where no option is given.
pub const USUAL: Choices = Choices {
    settings: Settings {
        budget: 1_000_000,
        values: 16,
        steps: 10_000,
        seed: 0,
        draw: Draw::Rotation,
    },
    workers: 0,
    format: Format::One,
};

// The number that a word gives an option.
fn number_of(option: OptionName, word: &str) -> Option<u64>
    ensures number { result ≡ options.number_of option word.now }
    ensures within { IfSome result (λ number. number ≤ options.greatest option) }
{
    number_within(word, option.least(), option.greatest())
}

// The choices with what a word gives the option, where the word is a number for it.
fn choose_by(option: OptionName, word: Option<&str>, choices: Choices) -> Option<Choices>
    ensures choices { result ≡ options.chosen_by option (option_map (λ w. w.now) word.entry) choices }
    ensures workers { HasFewWorkers choices → IfSome result HasFewWorkers }
{
    match word {
        None => Some(choices),
        Some(word) => {
            let number = number_of(option, word)?;
            Some(option.choose(choices, number))
        }
    }
}

// The choices with what `clap` found for the option.
fn choose_found(
    option: OptionName,
    matches: &ArgMatches<'_>,
    choices: Option<Choices>,
) -> Option<Choices>
    ensures choices { result ≡ option_and_then (options.chosen_by option (first_of (options.name_of option) (rows_of (found_of matches.now)))) choices }
    ensures workers { IfSome choices HasFewWorkers → IfSome result HasFewWorkers }
{
    match choices {
        None => None,
        Some(choices) => choose_by(option, text_at(matches, option.name()), choices),
    }
}

/// The choices by what `clap` found for these options. None where one of its words isn't a number in the option's range.
pub fn choices_of(known: &[OptionName], matches: &ArgMatches<'_>) -> Option<Choices>
    ensures choices { result ≡ options.choices_of known.now (rows_of (found_of matches.now)) }
    ensures workers { IfSome result HasFewWorkers }
{
    match known {
        [] => Some(USUAL),
        [option, others @ ..] => choose_found(*option, matches, choices_of(others, matches)),
    }
}
