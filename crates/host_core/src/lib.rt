//! The host core: all tenants on one clock, their commands, instants and completions, and what each tenant is answered.
//!
//! A [`hosts::Host`] carries out the commands of its tenants, runs an instant of all of them, and counts the completions of jobs.
//! [`plays::play`] plays a whole list of such [`events`]. [`trials::trial`] plays a list, and the part of it that is kept for a tenant.
//!
//! The definitions are in the crate `rig_model`: the one-tenant machine and each tenant's view in `Views.antt`, the whole host in
//! `Host.antt`, lists of events and their answers in `Legal.antt` and `Answers.antt`, kept lists in `Sources.antt`. The laws are in
//! `rig_laws`. `specs/HostStanding.antt` says which host of the model the code represents.
#![tactic(auto)]

pub mod events;
pub mod hosts;
pub mod instant_logs;
mod new_tenants;
pub mod plays;
mod same;
pub mod trials;
