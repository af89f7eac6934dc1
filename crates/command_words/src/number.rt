// Numbers among the words.

ghost use Rattle.std.specs.Prelude.{◌≡◌, ◌≤◌, ◌<◌, ◌^◌, ◌&&◌, nat_le, if◌then◌else◌, Some, None, IfSome};
ghost use Rattle.std.specs.Char.{is_ascii_digit};
ghost use Rattle.std.specs.List.{list_all};
ghost use Rattle.clap.specs.Words.{found_of, rows_of};
ghost use Rattle.command_words.specs.Numbers as numbers;
ghost use Rattle.command_words.specs.Numbers.{value_behind};

use crate::reader::text_at;
use clap::ArgMatches;

// The value of digits behind others, if they are decimal digits and it is at most the greatest.
#[tactic(auto, using(crate::proofs::Values::too_great))]
fn value_behind(before: u64, digits: &[u8], greatest: u64) -> Option<u64>
    requires small { greatest < 2 ^ 60 }
    requires within { before ≤ greatest }
    ensures { result ≡ (if list_all is_ascii_digit digits.now && nat_le (value_behind before digits.now) greatest
        then Some (value_behind before digits.now) else None) }
{
    match digits {
        [] => Some(before),
        [digit, rest @ ..] => {
            if !digit.is_ascii_digit() {
                return None;
            }
            let value = 10 * before + (*digit - b'0') as u64;
            if value > greatest {
                return None;
            }
            value_behind(value, rest, greatest)
        }
    }
}

/// The number that a word gives, where it lies between these two.
pub fn number_within(word: &str, least: u64, greatest: u64) -> Option<u64>
    requires { greatest < 2 ^ 60 }
    ensures number { result ≡ numbers.number_within least greatest word.now }
    ensures least { IfSome result (λ number. least ≤ number) }
    ensures greatest { IfSome result (λ number. number ≤ greatest) }
{
    let digits = word.as_bytes();
    if digits.is_empty() {
        return None;
    }
    match value_behind(0, digits, greatest) {
        Some(number) => if number >= least { Some(number) } else { None },
        None => None,
    }
}

/// The number that the word gives that was found under a name, where there is one, and it lies between these two.
pub fn number_at(matches: &ArgMatches<'_>, id: &str, least: u64, greatest: u64) -> Option<u64>
    requires { greatest < 2 ^ 60 }
    ensures number { result ≡ numbers.number_at id.now least greatest (rows_of (found_of matches.now)) }
    ensures least { IfSome result (λ number. least ≤ number) }
    ensures greatest { IfSome result (λ number. number ≤ greatest) }
{
    match text_at(matches, id) {
        Some(word) => number_within(word, least, greatest),
        None => None,
    }
}
