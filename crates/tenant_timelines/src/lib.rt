//! Timelines: the runs of tenants as a picture.
//!
//! ```text
//! let mut timeline = Timeline::new(alloc, &tenant)?;
//! timeline.note(Place::before_instant(0), Doing::Running(mode), false)?;
//! let picture = draw(alloc, &[timeline], Window::new(None, None, 3))?;
//! ```
//!
//! A [`timelines::Timeline`] has what is drawn of a tenant: bands and [`marks`], the [`jobs`] of tasks, and the values of [`ports`],
//! each with its [`places`]. [`draw`] makes an SVG picture of timelines, on a [`sheets::Sheet`], in a [`windows::Window`].
#![tactic(auto)]

mod axes;
mod bands;
mod densities;
mod drawing;
pub mod jobs;
mod lanes;
mod legends;
mod mark_rows;
pub mod marks;
pub mod places;
pub mod ports;
mod scales;
mod sheets;
mod steps;
pub mod timelines;
pub mod windows;

pub use drawing::draw;
