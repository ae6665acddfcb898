//! Fixtures of tests, as in rig_tests.
//!
//! They end the process if something fails, which a library may not do.

ghost use Rattle.std.specs.Prelude.{◌≡◌};

use giotto_tasks::lists::List;
use giotto_tasks::names::Name;
use rig_model::config::{Config, TenantId, built_in};
use rig_model::lines::commands::Command;
use rig_model::lines::shared_texts::SharedText;
use std::alloc::Global;
use std::io;
use std::io::Read;
use std::process::Abort;
use tenant_jobs::jobs::JobId;

pub(crate) const ALPHA: TenantId = 0;

pub(crate) const BETA: TenantId = 1;

// A place without a tenant in the built-in configuration.
pub(crate) const NOBODY: TenantId = 2;

// Reads a sensor, adds 1, and drives an actuator with the sum, with a period of 2 ticks.
pub(crate) const ADDER: &str =
    "sensor s := 0 line 0; actuator a := 0; output o := 0; task T(i) output o { o := i + 1; } mode m period 2 { actfreq 1 do a := o; taskfreq 1 do T(s); } start m;";

// Drives line 0 with 4.
pub(crate) const FOUR: &str = "actuator a := 4 line 0; mode k period 1 { } start k;";

// Has a sensor that takes a granted value, and does nothing.
pub(crate) const LISTENER: &str = "sensor g := -1 grant; mode n period 1 { } start n;";

pub(crate) fn name(rt: &impl Abort, text: &str) -> Name
    ensures { result ≡ text.now }
{
    Name::new(text).expect(rt, "a name")
}

// The command that loads this program.
pub(crate) fn load(rt: &impl Abort, alloc: Global, program: &str) -> Command {
    Command::Load(SharedText::from_str(alloc, program).expect(rt, "memory"))
}

// The frame of the built-in configuration's one line.
pub(crate) fn frame(rt: &impl Abort, alloc: Global, reading: i64) -> List<i64> {
    List::from_vec(Vec::from_slice(alloc, &[reading]).expect(rt, "memory"))
}

// The id of a tenant's job of T that was released at this tick.
pub(crate) fn release(rt: &impl Abort, tenant: TenantId, tick: u64) -> JobId {
    JobId {
        tenant,
        tick,
        task: name(rt, "T"),
    }
}

pub(crate) fn rig(rt: &impl Abort, alloc: Global) -> Config {
    built_in(alloc).expect(rt, "memory")
}

// Gives one byte in each read. After the last byte, it ends once if `ends` is set, and each read after that fails.
#[derive(Drop)]
pub(crate) struct OneByOne<'a> {
    pub(crate) left: &'a [u8],
    pub(crate) ends: bool,
}

impl<'a> Read for OneByOne<'a> {
    fn read(&mut self, buf: &mut [u8]) -> io::Result<usize> {
        match (self.left.split_first(), buf.first_mut()) {
            (Some((byte, left)), Some(place)) => {
                *place = *byte;
                self.left = left;
                Ok(1)
            }
            _ if self.ends => {
                self.ends = false;
                Ok(0)
            }
            _ => Err(io::Error::from(io::ErrorKind::BrokenPipe)),
        }
    }
}
