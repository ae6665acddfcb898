//! Comparison of rows.

use crate::rows::{Bind, Offer, Row};
use giotto_tasks::same::Same;

impl Same for Offer {
    fn is_same(&self, other: &Offer) -> bool {
        if !self.actuator.is_same(&other.actuator) || !self.tenant.is_same(&other.tenant) {
            return false;
        }
        self.bounds.is_same(&other.bounds)
    }
}

impl Same for Bind {
    fn is_same(&self, other: &Bind) -> bool {
        if !self.sensor.is_same(&other.sensor) || !self.tenant.is_same(&other.tenant) {
            return false;
        }
        self.actuator.is_same(&other.actuator)
    }
}

impl Same for Row {
    fn is_same(&self, other: &Row) -> bool {
        match (self, other) {
            (Row::Offer(one), Row::Offer(other)) => one.is_same(other),
            (Row::Bind(one), Row::Bind(other)) => one.is_same(other),
            _ => false,
        }
    }
}
