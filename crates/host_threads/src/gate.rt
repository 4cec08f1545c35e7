//! Gates, which threads call at some moments of a run.

ghost use Rattle.std.specs.Prelude.{⊤, ◌≡◌, true};

use migration_types::PageNo;
use target_side::TargetBook;

/// A gate: calls that the threads of a run make at some of its moments. Each call may wait, and the thread waits with
/// it. Only `held` is called while a lock is held, which is the target's.
pub trait Gate: Sync {
    /// No call does anything.
    ghost stands_open: { Self → Type 0 } = { λ _. ⊥ };

    /// Returns whether no call does anything. The threads then do many things under one lock, and leave calls out. With
    /// any other gate, each operation or event is the only one under its locks.
    fn is_open(&self) -> bool
        ensures { result ≡ true → stands_open self.now }
    {
        false
    }

    /// Called when the pager's thread is about to place a page, or to drop it if it is resident already.
    fn placing(&self, page: PageNo);

    /// Called when the source's thread has offered a page to the link.
    fn offered(&self, page: PageNo);

    /// Called when a virtual processor's operation on a page was answered at the target.
    fn answered(&self, vcpu: u8, page: PageNo);

    /// Called when a virtual processor's operation on a page was answered at the target, while the target's lock is
    /// still held. The book is lent.
    fn held(&self, vcpu: u8, page: PageNo, book: &TargetBook);
}

/// The greatest number of things that a thread does under one lock, if no call of the gate does anything.
const MOST_AT_ONCE: usize = 256;

/// Returns the greatest number of things that a thread does under one lock.
pub fn most_at_once<G: Gate>(gate: &G) -> usize
    ensures { (G.stands_open gate.now → ⊥) → result ≡ 1 }
{
    if gate.is_open() { MOST_AT_ONCE } else { 1 }
}

/// A gate that never waits.
#[derive(Clone, Copy)]
pub struct Open;

impl Gate for Open {
    ghost stands_open = { λ _. ⊤ };

    fn is_open(&self) -> bool {
        true
    }

    fn placing(&self, _page: PageNo) {}

    fn offered(&self, _page: PageNo) {}

    fn answered(&self, _vcpu: u8, _page: PageNo) {}

    fn held(&self, _vcpu: u8, _page: PageNo, _book: &TargetBook) {}
}
