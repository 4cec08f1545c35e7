//! The recording that the files of logs make: it is gone through as those files are read, and meanwhile its session is held or its text
//! is written.
#![tactic(auto)]

mod cursors;
mod files;
mod held;
mod init;
mod kept;
mod laws;
mod logs;
mod needs;
mod noting;
mod records;
mod room;
mod senders;
mod takers;
mod text;
mod visiting;
mod walking;
mod whole;
mod write_faults;

pub use files::{LogFiles, WalkFault};
pub use held::HeldRecording;
pub use laws::files_make_one_recording;
pub use noting::{Messages, note_messages};
pub use room::Room;
pub use senders::Senders;
pub use walking::walk_logs;
pub use whole::write_recording;
pub use write_faults::WriteFault;
