// Numbers of steps.

ghost use Rattle.std.specs.Prelude.{◌≡◌, IfSome, IfNone, true, false, min};
ghost use Rattle.std.specs.Char.{is_ascii_digit};
ghost use Rattle.std.specs.List.{list_all};
ghost use Rattle.simulator_lines.specs.Lines.{are_digits, number_in, greatest};

// Whether the bytes are all digits.
fn all_digits(bytes: &[u8]) -> bool
    ensures { result ≡ list_all is_ascii_digit bytes.now }
{
    bytes.iter().all(|byte| byte.is_ascii_digit())
}

// Whether the bytes are decimal digits, one at least.
fn are_digits(bytes: &[u8]) -> bool
    ensures { result ≡ are_digits bytes.now }
{
    all_digits(bytes) && !bytes.is_empty()
}

// The number with these digits, or 2^32 - 1 where it is greater.
fn number_in(digits: &[u8]) -> u32
    ensures { result ≡ number_in digits.now }
{
    let mut number: u32 = 0;
    for digit in digits {
        number = number
            .saturating_mul(10)
            .saturating_add(u32::from(digit.saturating_sub(b'0')));
    }
    number
}

// The number that these bytes write, if they are decimal digits.
pub fn written_number(bytes: &[u8]) -> Option<u32>
    ensures some { IfSome result (λ n. (are_digits bytes.now ≡ true) × (n ≡ number_in bytes.now)) }
    ensures none { IfNone result (are_digits bytes.now ≡ false) }
{
    if are_digits(bytes) {
        Some(number_in(bytes))
    } else {
        None
    }
}
