//! Comparison of what is logged.

use crate::jobs::JobId;
use crate::logged::{Call, KeptCall, Logged};
use giotto_tasks::same::{Same, all_same};

impl Same for JobId {
    fn is_same(&self, other: &JobId) -> bool {
        if self.tenant != other.tenant || self.tick != other.tick {
            return false;
        }
        self.task.is_same(&other.task)
    }
}

impl Same for Call {
    fn is_same(&self, other: &Call) -> bool {
        if self.tenant != other.tenant || !self.command.is_same(&other.command) {
            return false;
        }
        self.reply.is_same(&other.reply)
    }
}

impl Same for KeptCall {
    fn is_same(&self, other: &KeptCall) -> bool {
        self.as_call().is_same(other.as_call())
    }
}

impl Same for Logged {
    fn is_same(&self, other: &Logged) -> bool {
        match (self, other) {
            (Logged::Call(seat, one), Logged::Call(others, other)) => {
                if seat != others {
                    return false;
                }
                one.is_same(other)
            }
            (Logged::Tick(frame), Logged::Tick(other)) => {
                all_same(frame.as_slice(), other.as_slice())
            }
            (Logged::Done(id), Logged::Done(other)) => id.is_same(other),
            _ => false,
        }
    }
}
