// The numbers that a seed gives.

ghost use Rattle.std.specs.Prelude.{◌≡◌, ◌<◌, ◌^◌};
ghost use Rattle.spec_generator.specs.Numbers.{draw, next, number_of};

// The number of a seed before those that are drawn from.
pub fn first(seed: u32) -> u64
    ensures number { result ≡ number_of seed 0 }
    ensures bound { result < 2 ^ 31 }
{
    u64::from(seed) % 2_147_483_648
}

// The number behind this one.
pub fn next(number: u64) -> u64
    requires { number < 2 ^ 31 }
    ensures number { result ≡ next number }
    ensures bound { result < 2 ^ 31 }
{
    (number * 1_103_515_245 + 12_345) % 2_147_483_648
}

// Two bits of a number.
pub fn draw(number: u64) -> u64
    ensures number { result ≡ draw number }
    ensures bound { result < 4 }
{
    number / 65_536 % 4
}
