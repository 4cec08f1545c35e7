//! The bell, which wakes the threads, and whether the run stops.

use crate::stop_reason::StopReason;
use migration_types::PageNo;
use std::alloc::{AllocError, Global};
use std::sync::atomic::{AtomicBool, AtomicU32, AtomicUsize, Ordering};
use std::sync::{Mutex, Wait};
use std::thread::Parker;

/// The role of a thread that is not of a virtual processor.
#[derive(Clone, Copy)]
pub enum ThreadRole {
    Source,
    Link,
    Pager,
}

/// The mark of a virtual processor that waits for nothing. No page has this number.
const NOTHING: u32 = u32::MAX;

/// The mark of a virtual processor whose page has come, and which is still to be rung. No page has this number.
const CAME: u32 = u32::MAX - 1;

/// What a virtual processor waits for, and what it waits on.
#[derive(Drop)]
struct Waiter {
    /// The page's number, `NOTHING` or `CAME`. A page is written and replaced only under the target's lock.
    wanted: AtomicU32,
    parker: Parker,
}

/// The bell, which wakes the threads that wait, without taking a lock.
///
/// A thread looks at the books, and waits if it finds nothing to do. Whoever changes a book rings the threads that may
/// now have something to do. If no wait is under way, a ring ends the next one, so a ring that comes after the look is
/// not lost. A ring too many only makes a thread look once more.
#[derive(Drop)]
pub struct Bell {
    source: Parker,
    link: Parker,
    pager: Parker,
    vcpus: Vec<Waiter>,
    /// How many virtual processors are at their move.
    arrived: AtomicUsize,
    /// How many virtual processors have ended.
    ended: AtomicUsize,
    /// Whether the source was told that every owed page is placed.
    is_done: AtomicBool,
    is_stopped: AtomicBool,
    /// This lock is taken last.
    reason: Mutex<Option<StopReason>>,
}

impl Bell {
    /// Returns a bell for this many virtual processors. Nothing has happened yet. Fails only if memory runs out.
    pub fn new(alloc: Global, vcpus: usize) -> Result<Bell, AllocError> {
        let mut waiters = Vec::new(alloc);
        for _ in 0..vcpus {
            waiters.push(Waiter {
                wanted: AtomicU32::new(NOTHING),
                parker: Parker::new(),
            })?;
        }
        Ok(Bell {
            source: Parker::new(),
            link: Parker::new(),
            pager: Parker::new(),
            vcpus: waiters,
            arrived: AtomicUsize::new(0),
            ended: AtomicUsize::new(0),
            is_done: AtomicBool::new(false),
            is_stopped: AtomicBool::new(false),
            reason: Mutex::new(None),
        })
    }

    /// Returns whether the run stops.
    pub fn is_stopped(&self) -> bool {
        self.is_stopped.load(Ordering::SeqCst)
    }

    /// Returns whether each virtual processor is at its move.
    pub fn has_each_arrived(&self) -> bool {
        self.arrived.load(Ordering::SeqCst) >= self.vcpus.len()
    }

    /// Returns whether the source, the link and the pager have nothing more to do: each virtual processor has ended and
    /// the source is done, or the run stops.
    pub fn is_over(&self) -> bool {
        let is_done = self.is_done.load(Ordering::SeqCst);
        self.is_stopped() || (is_done && self.ended.load(Ordering::SeqCst) >= self.vcpus.len())
    }

    fn parker(&self, role: ThreadRole) -> &Parker {
        match role {
            ThreadRole::Source => &self.source,
            ThreadRole::Link => &self.link,
            ThreadRole::Pager => &self.pager,
        }
    }

    /// Rings the thread of this role, which may have something to do.
    pub fn ring(&self, role: ThreadRole) {
        self.parker(role).unpark();
    }

    /// Rings the source and the pager, which may have something to do.
    pub fn ring_ends(&self) {
        self.source.unpark();
        self.pager.unpark();
    }

    fn ring_parties(&self) {
        self.ring_ends();
        self.link.unpark();
    }

    /// Waits until the thread of this role is rung.
    pub fn wait<R: Wait>(&self, rt: &R, role: ThreadRole) {
        self.parker(role).park(rt);
    }

    /// Notes that a virtual processor is at its move.
    pub fn arrive(&self) {
        self.arrived.fetch_add(1, Ordering::SeqCst);
        self.ring(ThreadRole::Source);
    }

    /// Notes that a virtual processor has ended.
    pub fn end(&self) {
        self.ended.fetch_add(1, Ordering::SeqCst);
        self.ring_parties();
    }

    /// Notes that the source was told that every owed page is placed.
    pub fn finish(&self) {
        if !self.is_done.swap(true, Ordering::SeqCst) {
            self.ring_parties();
        }
    }

    /// Stops the run, keeps the least of the reasons, and wakes all threads.
    pub fn stop<R: Wait>(&self, rt: &R, reason: StopReason) {
        self.keep(rt, reason);
        self.is_stopped.store(true, Ordering::SeqCst);
        self.ring_parties();
        for waiter in &self.vcpus {
            waiter.parker.unpark();
        }
    }

    fn keep<R: Wait>(&self, rt: &R, reason: StopReason) {
        let mut kept = self.reason.lock(rt);
        let least = match *kept {
            Some(earlier) if earlier <= reason => earlier,
            _ => reason,
        };
        *kept = Some(least);
    }

    /// Notes that a virtual processor must wait for a page, or for the guest to resume. Call this under the target's
    /// lock, under which it looked, so that what comes after the look finds it waiting.
    pub fn want(&self, vcpu: u8, page: PageNo) {
        if let Some(waiter) = self.vcpus.get(usize::from(vcpu)) {
            waiter.wanted.store(page.number(), Ordering::SeqCst);
        }
    }

    /// Notes that a page is resident. Call this under the target's lock.
    pub fn came(&self, page: PageNo) {
        let page = page.number();
        for waiter in &self.vcpus {
            if waiter.wanted.load(Ordering::SeqCst) == page {
                waiter.wanted.store(CAME, Ordering::SeqCst);
            }
        }
    }

    /// Notes that the guest resumes. Call this under the target's lock.
    pub fn resume(&self) {
        for waiter in &self.vcpus {
            if waiter.wanted.load(Ordering::SeqCst) != NOTHING {
                waiter.wanted.store(CAME, Ordering::SeqCst);
            }
        }
    }

    /// Rings the virtual processors whose page has come, once the target's lock is free. If several threads do this at
    /// a time, one of them rings each virtual processor. A page that a virtual processor waits for by then stays.
    pub fn ring_vcpus(&self) {
        for waiter in &self.vcpus {
            let wanted = &waiter.wanted;
            if wanted.load(Ordering::SeqCst) == CAME
                && wanted
                    .compare_exchange(CAME, NOTHING, Ordering::SeqCst, Ordering::SeqCst)
                    .is_ok()
            {
                waiter.parker.unpark();
            }
        }
    }

    /// Waits until what a virtual processor waits for has come, or the run stops.
    pub fn wait_vcpu<R: Wait>(&self, rt: &R, vcpu: u8) {
        if let Some(waiter) = self.vcpus.get(usize::from(vcpu)) {
            waiter.parker.park(rt);
        }
    }

    /// Returns why the run stopped, if it did.
    pub fn into_reason(self) -> Option<StopReason> {
        let Bell { reason, .. } = self;
        reason.into_inner()
    }
}
