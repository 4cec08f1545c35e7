//! The pages that virtual processors wait for, in order of arrival.
#![tactic(auto)]

ghost use Rattle.std.specs.Prelude.{◌≡◌, ℕ, ◌==◌, ◌&&◌, not, ◌↔◌, [], ◌∷◌, ◌++◌, false, length, slice_get, if◌then◌else◌, IsTrue, IsNone, IfNone, IfOk, OnOk, OnErr, IsErrOf};
ghost use Rattle.std.specs.List.{list_any};
ghost use Rattle.std.specs.Option.{option_map};
ghost use Rattle.indexmap.specs.IndexMap.{values};
ghost use Rattle.fault_queue.specs.inner.Maps.{entries_of};
ghost use Rattle.fault_queue.specs.Waiting.{is_asked, asked};

use indexmap::IndexMap;
use migration_types::PageNo;
use std::alloc::{AllocError, Global};
use std::marker::Model;
use thiserror::Error;

/// What a fault changed in the queue.
#[derive(Clone, Copy, Debug, PartialEq, Eq)]
pub enum Asked {
    /// Nobody waited for the page, which now has a new entry.
    New,
    /// The page had an entry, which now has one more waiter.
    Joined,
}

/// Why a fault was not queued. The queue is then as it was.
#[derive(Clone, Copy, Debug, PartialEq, Eq, Error)]
pub enum QueueFault {
    /// The virtual processor waits already, for this page or for another.
    #[error("waits already")]
    AlreadyWaiting,
    /// Memory ran out.
    #[error("out of memory")]
    Memory,
}

/// The pages that virtual processors wait for, in order of arrival, each with its waiters, in order of arrival. Each
/// page has at most one entry, each virtual processor waits for at most one page, and each entry has a waiter.
/// Contracts see the list of entries. Only `fault` and `left_without` allocate memory.
#[derive(Drop)]
pub struct FaultQueue {
    waiting: IndexMap<PageNo, Vec<u8>>,
}

impl Model for FaultQueue {
    ghost use Rattle.std.specs.Prelude.{List};
    ghost use Rattle.fault_queue.specs.Waiting.{Waiting, IsQueue};
    ghost use Rattle.fault_queue.specs.inner.Maps.{entries_of};

    ghost Value = { List Waiting };

    ghost view = { λ q. entries_of q.waiting };

    ghost invariant = { λ q. IsQueue (entries_of q.waiting) };
}

impl FaultQueue {
    ghost use Rattle.fault_queue.specs.Waiting.{waiters_of, waiting_for, is_waiting, without, without_all, IsQueue};

    /// Returns a queue in which nobody waits. Allocates no memory.
    pub fn new(alloc: Global) -> Self
        ensures { result ≡ [] }
    {
        FaultQueue {
            waiting: IndexMap::new(alloc),
        }
    }

    /// Queues a virtual processor that waits for a page: after the page's other waiters, or in a new entry after the
    /// others. One that waits already, for any page, is refused; this is checked before memory is allocated. On an
    /// error, nothing changes.
    pub fn fault(&mut self, page: PageNo, vcpu: u8) -> Result<Asked, QueueFault>
        ensures already { IsErrOf result QueueFault.AlreadyWaiting ↔ IsTrue (is_waiting vcpu self.old) }
        ensures told { IfOk result (λ told. told ≡ (if is_asked page self.old then Asked.Joined else Asked.New)) }
        ensures entries { OnOk result (self.new ≡ asked page vcpu self.old) }
        ensures nobody_lost { OnOk result ((p : ℕ) → waiting_for p self.new ≡ waiting_for p self.old ++ (if p == page then vcpu ∷ [] else [])) }
        ensures err { OnErr result (self.new ≡ self.old) }
    {
        if self.is_waiting(vcpu) {
            return Err(QueueFault::AlreadyWaiting);
        }
        ask(&mut self.waiting, page, vcpu).map_err(|_| QueueFault::Memory)
    }

    /// Removes a page's entry and returns its waiters, in order of arrival. The other entries stay, in their order.
    /// Returns `None` if nobody waits for the page, and then nothing changes. Allocates no memory.
    pub fn served(&mut self, page: PageNo) -> Option<Vec<u8>>
        ensures waiters { option_map (λ v. v.items) result ≡ waiters_of page self.old }
        ensures others { self.new ≡ without page self.old }
        ensures nobody_lost { (p : ℕ) → waiting_for p self.new ≡ (if p == page then [] else waiting_for p self.old) }
        ensures none { IsNone result ↔ (is_asked page self.old ≡ false) }
        ensures unchanged { IfNone result (self.new ≡ self.old) }
    {
        self.waiting.shift_remove(&page)
    }

    /// Returns a queue without the entries of these pages. The other entries stay, in their order. Fails only if memory
    /// runs out.
    pub fn left_without(&self, pages: &[PageNo]) -> Result<FaultQueue, AllocError>
        ensures { IfOk result (λ left. left ≡ without_all pages.now self.now) }
    {
        let mut left = self.another()?;
        for page in pages {
            left.served(*page);
        }
        Ok(left)
    }

    /// Returns the same queue again. Fails only if memory runs out.
    fn another(&self) -> Result<FaultQueue, AllocError>
        ensures { IfOk result (λ same. same ≡ self.now) }
    {
        let waiting = self.waiting.clone()?;
        Ok(FaultQueue { waiting })
    }

    /// Returns the page of the oldest entry, or `None` if nobody waits.
    pub fn first(&self) -> Option<PageNo>
        ensures { result ≡ option_map (λ e. e.page) (slice_get self.now 0) }
    {
        let (page, _) = self.waiting.first()?;
        Some(*page)
    }

    /// Returns how many pages are waited for, which is the number of entries.
    pub fn pages(&self) -> u32
        ensures count { result ≡ length self.now }
        ensures kept { IsQueue self.now }
    {
        self.waiting.len() as u32
    }

    /// Returns whether a virtual processor waits, for any page.
    pub fn is_waiting(&self, vcpu: u8) -> bool
        ensures { result ≡ is_waiting vcpu self.now }
    {
        waits(&self.waiting, vcpu)
    }

    /// Returns whether a virtual processor waits for a page other than these, and so would still wait if their entries
    /// were gone. Allocates no memory.
    pub fn waits_beside(&self, vcpu: u8, pages: &[PageNo]) -> bool
        ensures { result ≡ is_waiting vcpu (without_all pages.now self.now) }
    {
        waits_among_others(&self.waiting, vcpu, pages)
    }
}

/// Returns whether a virtual processor is among the waiters of a page.
fn waits(waiting: &IndexMap<PageNo, Vec<u8>>, vcpu: u8) -> bool
    ensures { result ≡ list_any (λ v. list_any (λ x. x == vcpu) v.items) (values waiting.now) }
{
    waiting.values().any(|waiters| waiters.contains(&vcpu))
}

/// Returns whether a virtual processor is among the waiters of a page other than these.
fn waits_among_others(waiting: &IndexMap<PageNo, Vec<u8>>, vcpu: u8, pages: &[PageNo]) -> bool
    ensures { result ≡ list_any (λ e. list_any (λ x. x == vcpu) e.1.items && not (list_any (λ p. p == e.0) pages.now)) waiting.now.entries }
{
    waiting.iter().any(|(page, waiters)| waiters.contains(&vcpu) && !is_among(*page, pages))
}

/// Returns whether a page is one of these.
fn is_among(page: PageNo, pages: &[PageNo]) -> bool
    ensures { result ≡ list_any (λ p. p == page) pages.now }
{
    pages.contains(&page)
}

/// Puts a virtual processor after those that wait for a page, or into a new entry.
fn ask(waiting: &mut IndexMap<PageNo, Vec<u8>>, page: PageNo, vcpu: u8) -> Result<Asked, AllocError>
    ensures told { IfOk result (λ told. told ≡ (if is_asked page (entries_of waiting.old) then Asked.Joined else Asked.New)) }
    ensures entries { OnOk result (entries_of waiting.new ≡ asked page vcpu (entries_of waiting.old)) }
    ensures err { OnErr result (entries_of waiting.new ≡ entries_of waiting.old) }
{
    if let Some(waiters) = waiting.get_mut(&page) {
        waiters.push(vcpu)?;
        return Ok(Asked::Joined);
    }
    let mut vcpus = Vec::new(*waiting.allocator());
    vcpus.push(vcpu)?;
    waiting.insert(page, vcpus)?;
    Ok(Asked::New)
}
