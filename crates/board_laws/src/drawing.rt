// Which unseen action is done.

ghost use Rattle.std.specs.Prelude.{◌≡◌, ◌<◌};
ghost use Rattle.board_laws.specs.Drawing as drawing;

use run_settings::settings::Draw;

const KEY: u64 = 6_092_418_036_032_492_183;

// The halves of a number exchanged.
fn exchanged(x: u64) -> u64
    ensures { result ≡ drawing.exchanged x }
{
    x % 4_294_967_296 * 4_294_967_296 + x / 4_294_967_296
}

// The square of a number with another one added, as far as 64 bits go.
fn squared(x: u64, y: u64) -> u64
    ensures { result ≡ drawing.squared x y }
{
    let wide = x as u128;
    ((wide * wide + y as u128) % 18_446_744_073_709_551_616) as u64
}

// The seed and the number of actions, by four rounds of squaring.
fn squares(seed: u32, actions: u64) -> u32
    ensures { result ≡ drawing.squares seed actions }
{
    let x = ((seed as u128 * 4_294_967_296 + actions as u128) * KEY as u128
        % 18_446_744_073_709_551_616) as u64;
    let z = ((x as u128 + KEY as u128) % 18_446_744_073_709_551_616) as u64;
    let first = exchanged(squared(x, x));
    let second = exchanged(squared(first, z));
    let third = exchanged(squared(second, x));
    (squared(third, z) / 4_294_967_296) as u32
}

// The seed and the number of actions, mixed.
fn mixed(draw: Draw, seed: u32, actions: u64) -> u32
    ensures { result ≡ drawing.mixed draw seed actions }
{
    match draw {
        Draw::Rotation => {
            ((seed as u128 + actions as u128 + 1) * 2_654_435_769 % 4_294_967_296) as u32
        }
        Draw::Squares => squares(seed, actions),
    }
}

/// The number of one of so many, by the seed and the number of actions before it.
pub fn drawn(draw: Draw, seed: u32, actions: u64, count: u32) -> u32
    requires some { 0 < count }
    ensures drawn { result ≡ drawing.drawn draw seed actions count }
    ensures below { result < count }
{
    (mixed(draw, seed, actions) as u128 * count as u128 / 4_294_967_296) as u32
}
