//! The source's book: the machine as the guest left it, and the source's log of what it sends.
#![tactic(auto)]

ghost use Rattle.std.specs.Prelude.{◌≡◌, ℕ, ◌<◌, true};
ghost use Rattle.migration_types.specs.PageSets.{Pages};
ghost use Rattle.active_push.specs.Choice.{IsChoice};

mod book;
mod records;

pub use book::SourceBook;
pub use migration_events::EventFault as SourceFault;

/// A law: the page that is pushed is the next one of bubbling. Runs nothing.
pub fn pushes_are_next()
    ensures { (pages pivot : ℕ) (set : Pages) → ((p : ℕ) → set p ≡ true → p < pages) → IsChoice pages pivot set }
{}
