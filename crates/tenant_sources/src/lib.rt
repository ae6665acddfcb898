//! The sources of all tenants: for each, the tenants whose commands and completions its answers can depend on.
//!
//! A [`tables::SourceTable`] moves forward from instant to instant, given the host just before each. `specs/Links.antt` defines its
//! content and chains of binds. `Sources.antt` of the crate `rig_model` defines sources.
#![tactic(auto)]

pub mod tables;
