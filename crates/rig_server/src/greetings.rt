//! The greeting of a client: how long the server waits for it, and what a wrong key costs.

ghost use Rattle.std.specs.Prelude.{◌≡◌, ◌-◌, ◌*◌, ◌≤◌, min, if◌then◌else◌, ◌==◌};
ghost use Rattle.std.specs.Io.KnownBytes.{Keeps};
ghost use Rattle.rig_server.specs.declared.greetings.TheConstants.{FIRST_PAUSE, FREE, LONGEST_PAUSE};

use crate::clients::set_timeouts;
use crate::connections::Shared;
use crate::deadlines::{Deadline, Over};
use crate::limits::{Limits, shorter};
use crate::register::Register;
use locked_book::naming::Naming;
use rig_sessions::replies::OwnReply;
use std::cell::Cell;
use std::io::{ErrorKind, Read, Write};
use std::net::TcpStream;
use std::sync::{Mutex, Wait};
use std::time::{Clock, Duration};
use std::{io, thread};

/// How many greetings of a connection may be refused before the server makes it wait.
pub(crate) const FREE: u32 = 3;

/// The first pause after a refused greeting, and the longest, in milliseconds.
pub(crate) const FIRST_PAUSE: u64 = 100;

pub(crate) const LONGEST_PAUSE: u64 = 2000;

/// The greeting of a connection, as the reader and the writer of its session know it.
#[derive(Drop)]
pub(crate) struct Greeting<'a, N: Naming, R> {
    rt: &'a R,
    stream: &'a TcpStream,
    register: &'a Mutex<Register<N>>,
    place: usize,
    limits: Limits,
    deadline: Deadline,
    is_over: Cell<bool>,
}

impl<'a, N: Naming, R: Wait + Clock> Greeting<'a, N, R> {
    /// The greeting of the connection at this place of the register, which begins now.
    pub(crate) fn new<D>(
        rt: &'a R,
        shared: &'a Shared<'_, N, D>,
        stream: &'a TcpStream,
        place: usize,
    ) -> Greeting<'a, N, R> {
        Greeting {
            rt,
            stream,
            register: &shared.register,
            place,
            limits: shared.limits,
            deadline: Deadline::from_now(rt, shared.limits.hello),
            is_over: Cell::new(false),
        }
    }

    // Lets a read wait no longer than until the deadline. Fails if that has come.
    fn bound_read(&self) -> io::Result<()> {
        if self.is_over.get() {
            return Ok(());
        }
        match self.deadline.left(self.rt) {
            Ok(None) => Ok(()),
            Ok(left) => self
                .stream
                .set_read_timeout(shorter(left, self.limits.idle)),
            Err(Over) => Err(io::Error::from(ErrorKind::TimedOut)),
        }
    }

    // A tenant was greeted: from now on only `idle` bounds reads and writes.
    fn end(&self) {
        self.is_over.set(true);
        self.register.lock(self.rt).greet(self.place);
        if self.limits.hello.is_some() {
            let _ = set_timeouts(self.stream, self.limits.idle);
        }
    }
}

/// The reader of a session. Until a tenant is greeted, its reads end at the greeting's deadline.
#[derive(Drop)]
pub(crate) struct Requests<'a, N: Naming, R, I> {
    inner: I,
    greeting: &'a Greeting<'a, N, R>,
}

impl<'a, N: Naming, R, I> Requests<'a, N, R, I> {
    /// Reads from this reader.
    pub(crate) fn new(inner: I, greeting: &'a Greeting<'a, N, R>) -> Requests<'a, N, R, I>
        ensures { result.inner ≡ inner }
    {
        Requests { inner, greeting }
    }
}

impl<'a, N: Naming, R: Wait + Clock, I: Read> Read for Requests<'a, N, R, I> {
    ghost remaining = { λ r. I.remaining r.inner };

    fn read(&mut self, buf: &mut [u8]) -> io::Result<usize> {
        self.greeting.bound_read()?;
        self.inner.read(buf)
    }
}

/// The writer of a session. It sees the replies to the greeting: after a fourth refused one, and after each further, the session waits
/// before it goes on.
#[derive(Drop)]
pub(crate) struct Answers<'a, N: Naming, R, W> {
    inner: W,
    greeting: &'a Greeting<'a, N, R>,
    throttle: Throttle,
    // how many milliseconds the session still has to wait
    due: u64,
}

impl<'a, N: Naming, R: Wait + Clock, W: Write> Answers<'a, N, R, W> {
    /// Writes to this writer.
    pub(crate) fn new(inner: W, greeting: &'a Greeting<'a, N, R>) -> Answers<'a, N, R, W>
        ensures { result.inner ≡ inner }
    {
        Answers {
            inner,
            greeting,
            throttle: Throttle::new(),
            due: 0,
        }
    }

    // Sends what was written, and waits as long as is due.
    fn wait(&mut self) -> io::Result<()>
        ensures kept { Keeps (W.contents self.old.inner) (W.contents self.new.inner) }
    {
        if self.due > 0 {
            self.inner.flush()?;
            thread::sleep(self.greeting.rt, Duration::from_millis(self.due));
            self.due = 0;
        }
        Ok(())
    }

    // Notes what these bytes say about the greeting.
    fn note(&mut self, bytes: &[u8])
        ensures same { self.new.inner ≡ self.old.inner }
    {
        if self.greeting.is_over.get() {
            return;
        }
        if bytes == OwnReply::Hello.as_line().as_bytes() {
            self.greeting.end();
        } else if bytes == OwnReply::Who.as_line().as_bytes() {
            self.due = self.throttle.refuse();
        }
    }
}

impl<'a, N: Naming, R: Wait + Clock, W: Write> Write for Answers<'a, N, R, W> {
    ghost contents = { λ w. W.contents w.inner };

    fn write(&mut self, buf: &[u8]) -> io::Result<usize> {
        self.wait()?;
        let written = self.inner.write(buf)?;
        self.note(buf);
        Ok(written)
    }

    fn flush(&mut self) -> io::Result<()> {
        self.wait()?;
        self.inner.flush()
    }
}

// How long a connection has to wait after a refused greeting.
#[derive(Drop)]
struct Throttle {
    // how many more refused greetings are without a pause
    free: u32,
    // the next pause in milliseconds
    pause: u64,
    ghost bound: { pause ≤ LONGEST_PAUSE },
}

impl Throttle {
    fn new() -> Throttle
        ensures free { result.free ≡ FREE }
        ensures pause { result.pause ≡ FIRST_PAUSE }
    {
        Throttle {
            free: FREE,
            pause: FIRST_PAUSE,
        }
    }

    // The pause in milliseconds after one more refused greeting: none after the first, and then each twice as long as the one before.
    fn refuse(&mut self) -> u64
        ensures now { result ≡ (if self.old.free == 0 then self.old.pause else 0) }
        ensures free { self.new.free ≡ self.old.free - 1 }
        ensures next { self.new.pause ≡ (if self.old.free == 0 then min LONGEST_PAUSE (self.old.pause * 2) else self.old.pause) }
    {
        if self.free > 0 {
            self.free -= 1;
            return 0;
        }
        let pause = self.pause;
        self.pause = (pause * 2).min(LONGEST_PAUSE);
        pause
    }
}
