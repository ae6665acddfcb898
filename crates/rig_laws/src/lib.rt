//! Laws of the definitions of `rig_model`, which hold for any code: each is a function without a body that carries it.
//!
//! [`laws`] has the law of the whole host: each tenant's row is that of the one-tenant machine over its own view. It also has laws of
//! views, legality and bases; of kept lists and sources, with the two-worlds theorem; of the replies of a script; and of logs, which are
//! legal if the host's steps give them. Worked rows are computed in `proofs/`.
#![tactic(auto)]

pub mod laws;
