//! Scripts whose bytes come one by one, and a read that fails in the middle of a line.

use crate::fixtures::rig;
use rig_script::faults::ScriptFault;
use rig_script::script;
use std::alloc::Global;
use std::io;
use std::io::Read;
use std::process::Abort;

// Gives one byte in each read. After the last byte, it ends once if `ends` is set, and each read after that fails.
#[derive(Drop)]
pub(crate) struct OneByOne<'a> {
    pub(crate) left: &'a [u8],
    pub(crate) ends: bool,
}

impl<'a> Read for OneByOne<'a> {
    fn read(&mut self, buf: &mut [u8]) -> io::Result<usize> {
        match (self.left.split_first(), buf.first_mut()) {
            (Some((byte, left)), Some(place)) => {
                *place = *byte;
                self.left = left;
                Ok(1)
            }
            _ if self.ends => {
                self.ends = false;
                Ok(0)
            }
            _ => Err(io::Error::from(io::ErrorKind::BrokenPipe)),
        }
    }
}

// How a script ends whose bytes come one by one, and the bytes written for it.
fn answer(
    rt: &impl Abort,
    alloc: Global,
    text: &[u8],
    ends: bool,
    written: &mut Vec<u8>,
) -> Result<(), ScriptFault> {
    let config = rig(rt, alloc);
    let mut reader = OneByOne { left: text, ends };
    let ends = script(alloc, &mut reader, written, &config);
    drop(config);
    ends
}

#[test]
fn bytes_may_come_one_by_one(rt: HostRuntime) {
    let text = b"op tick 5\r\n\r\n\nop tick\r6\r";
    let mut written = Vec::new(rt.alloc());
    let ends = answer(&rt, rt.alloc(), text.as_slice(), true, &mut written);
    assert!(rt; ends == Ok(()));
    assert!(rt; written.as_slice() == b"op ok tick 0\nop ok tick 1\n".as_slice());
}

#[test]
fn lines_before_a_failing_read_are_answered(rt: HostRuntime) {
    let text = b"op tick 5\nop ti";
    let mut written = Vec::new(rt.alloc());
    let ends = answer(&rt, rt.alloc(), text.as_slice(), false, &mut written);
    assert!(rt; ends == Err(ScriptFault::Read));
    assert!(rt; written.as_slice() == b"op ok tick 0\n".as_slice());
}
