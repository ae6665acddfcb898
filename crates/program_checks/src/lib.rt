//! Checks a program against the budgets of a tenant, before the tenant loads it.
//!
//! ```text
//! let report = check_program(alloc, "controller.giotto", source, Wish::Summary, tenant)?;
//! ```
//!
//! [`programs`] reports what `giotto_reports` says about a program, and what [`budgets`] finds about its budgets. The exceeded
//! budget is the one that `tenant_programs` names, and so the one that the host reports. `specs/Programs.antt` says when a
//! program is good for a tenant.
#![tactic(auto)]

pub mod budgets;
pub mod numbers;
pub mod programs;
mod spots;
