// Numbers of clients.

ghost use Rattle.std.specs.Prelude.{◌≡◌, ◌<◌, IfSome, true};
ghost use Rattle.std.specs.Char.{is_ascii_digit};
ghost use Rattle.std.specs.List.{list_all};
ghost use Rattle.script_text.specs.Numbers as numbers;
ghost use Rattle.script_text.specs.Numbers.{client_of, client_within};

// Whether the bytes are all digits.
fn are_digits(bytes: &[u8]) -> bool
    ensures { result ≡ list_all is_ascii_digit bytes.now }
{
    bytes.iter().all(|byte| byte.is_ascii_digit())
}

// Whether the bytes are decimal digits without leading zeros.
pub fn is_number(bytes: &[u8]) -> bool
    ensures { result ≡ numbers.is_number bytes.now }
{
    match bytes {
        [] => false,
        [digit] => digit.is_ascii_digit(),
        [first, _, ..] => *first != b'0' && are_digits(bytes),
    }
}

// The number of a client, from 1 to 64.
fn client_within(number: u32) -> Option<u32>
    ensures client { result ≡ client_within number }
    ensures some { IfSome result (λ k. 0 < k) }
{
    if 1 <= number && number <= 64 {
        Some(number)
    } else {
        None
    }
}

// The client that a number names. Where it has more than two digits, there is none.
pub fn client_of(digits: &[u8]) -> Option<u32>
    requires { numbers.is_number digits.now ≡ true }
    ensures client { result ≡ client_of digits.now }
    ensures some { IfSome result (λ k. 0 < k) }
{
    match digits {
        [] => None,
        [one] => client_within(u32::from(one.saturating_sub(b'0'))),
        [ten, one] => client_within(
            10 * u32::from(ten.saturating_sub(b'0')) + u32::from(one.saturating_sub(b'0')),
        ),
        [_, _, _, ..] => None,
    }
}
