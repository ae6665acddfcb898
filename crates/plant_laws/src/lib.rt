//! Laws of what can't reach a tenant: through binds, by the lines that it reads, or through a plant.
//!
//! [`laws`] has them, each a function that carries it. They go beyond the two-worlds theorem of `rig_laws`, for which both worlds have the same
//! frames: here the frames may differ too, on lines that don't matter. `specs/Seen.antt` and `specs/SeenLines.antt` say what may differ,
//! `specs/Closed.antt` what a declared plant carries, and `specs/ClosedLoop.antt` what it is to keep to the declaration.
#![tactic(auto)]

pub mod laws;
