//! Instants at the end of the clock, which no script reaches.

use crate::fixtures::new_host;
use host_core::hosts::TickFault;

#[test]
fn clock_ends_behind_its_last_instant_and_the_frame_is_looked_at_first(rt: HostRuntime) {
    let mut host = new_host(&rt, rt.alloc(), u64::MAX - 1);
    assert!(rt; host.tick(&[5]).is_ok());
    assert!(rt; host.tick(&[5]).err() == Some(TickFault::ClockEnded));
    assert!(rt; host.tick(&[]).err() == Some(TickFault::BadFrame));
    drop(host);
}
