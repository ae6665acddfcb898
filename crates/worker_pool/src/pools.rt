//! The pool: workers over one channel of jobs.

ghost use Rattle.std.specs.Prelude.{◌≡◌, ◌≤◌, ◌+◌, IfOk, OnOk};
ghost use Rattle.worker_pool.specs.Unsent.{AreUnsent};

use crate::gates::Gate;
use crate::outboxes::{Outbox, send_all};
use crate::workers::{DeskWorker, work_off};
use crossbeam_channel::{Receiver, Sender};
use locked_book::desks::Desk;
use locked_book::naming::Naming;
use std::alloc::{AllocError, Global};
use std::marker::Model;
use std::sync::Wait;
use std::thread::{JoinHandle, Scope, Threads};
use std::time::Clock;
use tenant_jobs::jobs::{Job, Jobs};

// An order to a worker.
#[derive(Drop)]
enum Order {
    Run(Job),
    Stop,
}

// Where a worker's orders come from.
#[derive(Drop)]
struct Inbox {
    receiver: Receiver<Order>,
}

// Where the orders of all workers are sent. Which jobs were taken isn't known.
#[derive(Drop)]
struct Orders<'a> {
    sender: &'a Sender<Order>,
}

impl<'a> Outbox for Orders<'a> {
    fn put<R: Wait>(&mut self, rt: &R, job: Job) -> Result<(), Job> {
        let Err(refused) = self.sender.send(rt, Order::Run(job)) else {
            return Ok(());
        };
        match refused.into_inner() {
            Order::Run(job) => Err(job),
            Order::Stop => unreachable!(),
        }
    }
}

/// Workers that run the jobs sent to them, each in a separate thread. Contracts see it as the number of its workers.
///
/// A pool that is dropped closes its channel: each worker still runs what was sent, and then ends.
#[derive(Drop)]
pub struct Pool {
    orders: Sender<Order>,
    workers: Vec<JoinHandle<()>>,
}

impl Model for Pool {
    ghost use Rattle.std.specs.Prelude.{ℕ, length};

    ghost Value = { ℕ };

    ghost view = { λ p. length p.workers.items };
}

impl Pool {
    /// Starts this number of workers, 1 to 64, for a desk, with this gate.
    ///
    /// # Errors
    /// Out of memory, or a thread can't be started. No worker is left then.
    pub fn start<'s, N: Naming + Send + Sync, E, R: Threads + Wait + Clock + Sync, G: Gate + Sync>(
        rt: &'s R,
        alloc: Global,
        scope: &'s Scope<'s, E>,
        workers: usize,
        desk: &'s Desk<N>,
        gate: &'s G,
    ) -> Result<Pool, AllocError>
        requires some { 1 ≤ workers }
        requires few { workers ≤ 64 }
        ensures { IfOk result (λ pool. pool ≡ workers) }
    {
        let (sender, orders) = crossbeam_channel::unbounded(alloc)?;
        let mut pool = Pool {
            orders: sender,
            workers: Vec::with_capacity(alloc, workers)?,
        };
        for _worker in 0..workers {
            let Ok(()) = pool.add(rt, &orders, scope, desk, gate) else {
                pool.stop(rt);
                return Err(AllocError);
            };
        }
        Ok(pool)
    }

    // Starts one more worker.
    fn add<'s, N: Naming + Send + Sync, E, R: Threads + Wait + Clock + Sync, G: Gate + Sync>(
        &mut self,
        rt: &'s R,
        orders: &Receiver<Order>,
        scope: &'s Scope<'s, E>,
        desk: &'s Desk<N>,
        gate: &'s G,
    ) -> Result<(), AllocError>
        ensures { OnOk result (self.new ≡ self.old + 1) }
    {
        self.workers.reserve(1)?;
        let inbox = Inbox {
            receiver: orders.clone()?,
        };
        match scope.spawn(move || work(rt, inbox, desk, gate)) {
            Ok(worker) => {
                self.workers.push_reserved(worker);
                Ok(())
            }
            Err(_) => Err(AllocError),
        }
    }

    /// Sends jobs to the workers, the first one first. Returns those that couldn't be sent, in their order. With ample memory there
    /// are none.
    pub fn send(&self, rt: &impl Wait, jobs: Jobs) -> Jobs
        ensures { AreUnsent result.jobs jobs.jobs }
    {
        send_all(
            rt,
            &mut Orders {
                sender: &self.orders,
            },
            jobs,
        )
    }

    /// Stops the workers after they have run all that was sent, and waits until each has ended.
    pub fn stop(self, rt: &(impl Threads + Wait)) {
        let Pool { orders, workers } = self;
        for _worker in 0..workers.len() {
            let _ = orders.send(rt, Order::Stop);
        }
        drop(orders);
        for worker in workers {
            worker.join(rt);
        }
    }
}

// Runs jobs until the order to stop comes, or the channel is closed.
fn work<N: Naming, R: Wait + Clock, G: Gate>(rt: &R, inbox: Inbox, desk: &Desk<N>, gate: &G) {
    let mut worker = DeskWorker { desk, gate };
    for _ in rt.forever() {
        match inbox.receiver.recv(rt) {
            Ok(Order::Run(job)) => {
                let _ = work_off(rt, &mut worker, job);
            }
            Ok(Order::Stop) | Err(_) => return,
        }
    }
}
