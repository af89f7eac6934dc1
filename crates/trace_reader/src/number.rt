// Numbers and names of offers.

ghost use Rattle.std.specs.Prelude.{ℕ, ◌≡◌, ◌<◌, ◌≤◌, ◌^◌, ◌++◌, List, IfOk, IsSome, IfSome, None, Some, OnOk, false, codes, decimal, drop};
ghost use Rattle.std.specs.Prelude.{flat_map};
ghost use Rattle.std.specs.Prelude.{length, take};
ghost use Rattle.spec_core.specs.Lists.{Each};
ghost use Rattle.trace_text.specs.Fits.{IsClient, NameFits};
ghost use Rattle.trace_text.specs.Trace.{name_text};
ghost use Rattle.trace_reader.specs.Cursors.{Finds, IsNothing, size};
ghost use Rattle.trace_reader.specs.Digits.{AreDigits, EndsNumber, IsNumberAt, begins_digit};

use crate::cursor::Cursor;
use spec_core::memory::Memory;
use std::alloc::Global;

// How many digits the text begins with.
fn digits_length(text: &[u8]) -> usize
    ensures within { result ≤ length text.now }
    ensures run { AreDigits (take result text.now) }
    ensures ends { begins_digit (drop result text.now) ≡ false }
{
    for (i, byte) in text.iter().enumerate() {
        if !byte.is_ascii_digit() {
            return i;
        }
    }
    text.len()
}

// The number with these digits, if there is one.
fn number_of(digits: &[u8]) -> Option<u64>
    ensures { (n : ℕ) → n < 2 ^ 64 → digits.now ≡ decimal n → result ≡ Some n }
{
    match std::str::from_utf8(digits) {
        Err(_) => None,
        Ok(text) => match text.parse::<u64>() {
            Err(_) => None,
            Ok(number) => Some(number),
        },
    }
}

// The number with the digits with which a text begins, if there is one, and what is behind them.
fn first_number(text: &[u8]) -> Option<(u64, &[u8])>
    ensures finds { (n : ℕ) (rest : List ℕ) → n < 2 ^ 64 → EndsNumber rest → text.now ≡ decimal n ++ rest → IsNumberAt result n rest }
    ensures fewer { IfSome result (λ r. length r.1.now ≤ length text.now) }
{
    let (digits, rest) = text.split_at(digits_length(text));
    match number_of(digits) {
        None => None,
        Some(number) => Some((number, rest)),
    }
}

/// A number.
pub fn read_number(cursor: &mut Cursor) -> u64
    ensures finds { Finds decimal (λ n. n < 2 ^ 64) EndsNumber cursor.old cursor.new (λ n. result ≡ n) }
    ensures kept { IsSome cursor.new → IsSome cursor.old }
    ensures fewer { size cursor.new ≤ size cursor.old }
{
    match cursor.rest() {
        None => 0,
        Some(text) => match first_number(text) {
            None => {
                cursor.lose();
                0
            }
            Some((number, rest)) => {
                cursor.stand(rest);
                number
            }
        },
    }
}

/// A client's number, from 1 to 64.
pub fn read_client(cursor: &mut Cursor) -> u32
    ensures finds { Finds decimal IsClient EndsNumber cursor.old cursor.new (λ client. result ≡ client) }
    ensures fits { IsSome cursor.new → IsClient result }
    ensures kept { IsSome cursor.new → IsSome cursor.old }
    ensures fewer { size cursor.new ≤ size cursor.old }
{
    let number = read_number(cursor);
    if number >= 1 && number <= 64 {
        number as u32
    } else {
        cursor.lose();
        0
    }
}

/// The number of an offer, from 1.
pub fn read_offer_number(cursor: &mut Cursor) -> u64
    ensures finds { Finds decimal (λ n. (1 ≤ n) × (n < 2 ^ 64)) EndsNumber cursor.old cursor.new (λ n. result ≡ n) }
    ensures fits { IsSome cursor.new → 1 ≤ result }
    ensures kept { IsSome cursor.new → IsSome cursor.old }
    ensures fewer { size cursor.new ≤ size cursor.old }
{
    let number = read_number(cursor);
    if number == 0 {
        cursor.lose();
    }
    number
}

/// A client's number and the number of one of its offers.
pub fn read_name(cursor: &mut Cursor) -> (u32, u64)
    ensures finds { Finds name_text NameFits EndsNumber cursor.old cursor.new (λ name. result ≡ name) }
    ensures fits { IsSome cursor.new → NameFits result }
    ensures kept { IsSome cursor.new → IsSome cursor.old }
    ensures fewer { size cursor.new ≤ size cursor.old }
{
    let client = read_client(cursor);
    cursor.skip(b".");
    let number = read_offer_number(cursor);
    (client, number)
}

// The name of a further offer, behind a blank, if there is one.
fn next_name(cursor: &mut Cursor) -> Option<(u32, u64)>
    ensures finds { Finds (λ name. codes " " ++ name_text name) NameFits EndsNumber cursor.old cursor.new (λ name. result ≡ Some name) }
    ensures stops { (rest : List ℕ) → IsNothing rest → cursor.old ≡ Some rest → (result ≡ None) × (cursor.new ≡ Some rest) }
    ensures fits { IsSome cursor.new → IfSome result NameFits }
    ensures kept { IsSome cursor.new → IsSome cursor.old }
    ensures fewer { IsSome result → size cursor.new < size cursor.old }
{
    if cursor.takes(b" ") {
        Some(read_name(cursor))
    } else {
        None
    }
}

/// Names of offers, each behind a blank, up to the end of the line.
pub fn read_names(alloc: Global, cursor: &mut Cursor) -> Result<Vec<(u32, u64)>, Memory>
    ensures finds { IfOk result (λ names.
        Finds (flat_map (λ name. codes " " ++ name_text name)) (Each NameFits) IsNothing cursor.old cursor.new (λ all. names.items ≡ all)) }
    ensures fits { IfOk result (λ names. IsSome cursor.new → Each NameFits names.items) }
    ensures kept { OnOk result (IsSome cursor.new → IsSome cursor.old) }
{
    let mut names = Vec::new(alloc);
    'names: while let Some(name) = next_name(cursor) {
        names.push(name)?;
    }
    Ok(names)
}
