//! What bounds and steers a run: its settings.
#![tactic(auto)]

pub mod settings;
