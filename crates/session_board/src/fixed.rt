// The part of a session that stays as it is.

use run_settings::settings::Settings;
use spec_core::code::Checked;
use spec_core::window::Window;
use std::collections::LinkedList;

/// What a session was made with: the specification, the settings, the number of clients, and the first values of each sort. No value of it
/// is made.
pub struct FixedPart {
    pub checked: Checked,
    pub settings: Settings,
    pub clients: u32,
    pub windows: LinkedList<Window>,
}
