//! What tenants exchange: the rows of grants, changed by their commands, and the granted values, taken by sensors.
//!
//! [`commands::carry_out`] carries out a command about grants on one tenant's rows. [`sensors::read_sensors`] reads the sensors
//! of its program, with the values that are granted through its binds. `GrantCommands.antt` and `Granted.antt` of the crate
//! `rig_model` define both. `specs/Memory.antt` says which commands take memory.
#![tactic(auto)]

pub mod commands;
pub mod sensors;
