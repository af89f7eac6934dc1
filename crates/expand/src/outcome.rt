// What comes of an expansion.

ghost use Rattle.std.specs.Prelude.{◌≤◌};

use symbolic_plans::composite::OpenComposite;

/// The composites of a behaviour, and its spread.
#[derive(Drop)]
pub struct Expanded {
    pub composites: Vec<OpenComposite>,
    pub spread: u64,
    ghost few: { spread ≤ 65536 },
}
