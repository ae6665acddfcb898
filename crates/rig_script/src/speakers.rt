//! The speaker of a script's line.

pub use rig_model::speakers::{Speaker, addressee, who_is, who_speaks};
