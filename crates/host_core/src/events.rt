//! What happens to a host.

pub use rig_model::events::Event;
