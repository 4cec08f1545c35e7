//! A migration in threads: one for each virtual processor of a script, and one each for the source, the link and the
//! pager, on the parties' books, each under its lock; the bell that wakes them, the gate with which a caller may hold
//! them, and the relay through which packets may go; and the checks of what they leave.
#![tactic(auto)]

mod bell;
mod books;
mod carry;
mod gate;
mod lines;
mod link;
mod loopback;
mod pager;
mod passage;
mod relay;
mod run;
mod shared;
mod side;
mod source;
mod stop_reason;
mod turns;
mod vcpu;

pub use gate::{Gate, Open};
pub use guest_script::{Answered, Transcript};
pub use host_checks::{Migrated, RunFault};
pub use relay::{Relay, RelayFault};
pub use run::{migrate, migrate_over, migrate_tcp};
