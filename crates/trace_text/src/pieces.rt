// Numbers, names of offers, and fixed words.

ghost use Rattle.std.specs.Prelude.{◌≡◌, ◌++◌, OnOk, codes, decimal, flat_map, string_bytes};
ghost use Rattle.trace_text.specs.Trace.{by_text, limit_word, name_text, offer_word};

use rule_model::reply::LimitKind;
use spec_core::memory::Memory;

// Appends a fixed word.
pub fn put(out: &mut String, word: &str) -> Result<(), Memory>
    ensures { OnOk result (string_bytes out.new ≡ string_bytes out.old ++ word.now) }
{
    Ok(out.push_str(word)?)
}

// Appends a number of 32 bits.
pub fn put_place(out: &mut String, place: u32) -> Result<(), Memory>
    ensures { OnOk result (string_bytes out.new ≡ string_bytes out.old ++ decimal place) }
{
    Ok(write!(out, "{place}")?)
}

// Appends a client's number and the number of one of its offers.
pub fn put_name(out: &mut String, client: u32, number: u64) -> Result<(), Memory>
    ensures { OnOk result (string_bytes out.new ≡ string_bytes out.old ++ name_text (client, number)) }
{
    Ok(write!(out, "{client}.{number}")?)
}

// Appends the offer that an action takes, if it takes one.
pub fn put_by(out: &mut String, by: Option<(u32, u64)>) -> Result<(), Memory>
    ensures { OnOk result (string_bytes out.new ≡ string_bytes out.old ++ by_text by) }
{
    match by {
        None => Ok(()),
        Some((client, number)) => {
            put(out, " by ")?;
            put_name(out, client, number)
        }
    }
}

// Appends the word with which an offer begins.
pub fn put_offer_word(out: &mut String, ask: bool) -> Result<(), Memory>
    ensures { OnOk result (string_bytes out.new ≡ string_bytes out.old ++ offer_word ask) }
{
    if ask {
        put(out, "ask ")
    } else {
        put(out, "pend ")
    }
}

// Appends which limit was exceeded.
pub fn put_limit(out: &mut String, kind: LimitKind) -> Result<(), Memory>
    ensures { OnOk result (string_bytes out.new ≡ string_bytes out.old ++ limit_word kind) }
{
    match kind {
        LimitKind::Steps => put(out, "limit steps"),
        LimitKind::Spread => put(out, "limit spread"),
        LimitKind::Offers => put(out, "limit offers"),
    }
}

// Appends the names of offers.
pub fn put_names(out: &mut String, names: &[(u32, u64)]) -> Result<(), Memory>
    ensures { OnOk result (string_bytes out.new ≡ string_bytes out.old ++ flat_map (λ name. codes " " ++ name_text name) names.now) }
{
    for name in names {
        put(out, " ")?;
        put_name(out, name.0, name.1)?;
    }
    Ok(())
}
