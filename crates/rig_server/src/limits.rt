//! The bounds of a server's patience.

use std::time::Duration;

/// How long a server waits for its clients, and how many of them may wait to be greeted. `None` is without a bound.
#[derive(Clone, Copy, Debug)]
pub struct Limits {
    /// How long a session may be idle, and a write may wait.
    pub idle: Option<Duration>,
    /// How long a client may take until it has greeted, from its connection on.
    pub hello: Option<Duration>,
    /// How many connections may be open in which no tenant was greeted yet.
    pub ungreeted: Option<usize>,
    /// How long a session may go on after a halt.
    pub drain: Option<Duration>,
}

impl Limits {
    /// How long a read or a write may wait before a tenant was greeted: the shorter of `idle` and `hello`.
    pub(crate) fn before_greeting(&self) -> Option<Duration> {
        shorter(self.idle, self.hello)
    }
}

/// The shorter of two bounds.
pub(crate) fn shorter(one: Option<Duration>, other: Option<Duration>) -> Option<Duration> {
    match (one, other) {
        (Some(one), Some(other)) => Some(one.min(other)),
        (Some(one), None) => Some(one),
        (None, other) => other,
    }
}
