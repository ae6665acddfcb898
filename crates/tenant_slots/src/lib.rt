//! The values of a program's ports, each by its slot, and what an instant does with them.
//!
//! One list has the value of every port of a checked program, in the order of its numbering. Contracts read it as the map
//! `valuation_of` from names to values. [`beginning::initial_values`] makes the initial list, [`beginning::reset_ports`] resets
//! one in place, and [`names::port_value`] reads a port by its name. The other calls are steps of an instant: they read sensors,
//! take granted values, update or reset actuators, take a switch, give tasks their inputs, and write their results. Updates and
//! outputs are recorded in the tenant's trace as they are made. [`replacement::carry_over`] gives a program the values that it
//! keeps of the one that it replaces.
//!
//! [`due::Due`] says what is due at a mode time, and [`due::next_due`] until when nothing is. [`periods::period_of`] returns how
//! far apart a mode invokes a task.
//!
//! The crate `rig_model` defines what each of these steps does to the map from names to values. `giotto_check` defines which slot
//! a port has.
#![tactic(auto)]

pub mod actuators;
pub mod beginning;
pub mod drivers;
pub mod due;
pub mod laws;
pub mod names;
pub mod periods;
pub mod replacement;
pub mod sensors;
pub mod switches;
pub mod tasks;
