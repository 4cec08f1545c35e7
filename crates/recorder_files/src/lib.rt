//! What recorders' files say: the records of a log, what it lacks, the machine, and when messages are delivered. And what can be kept
//! of logs that are not whole.
#![tactic(auto)]

mod buffers;
mod delivering;
mod describing;
mod file_names;
mod files;
mod fronts;
mod gatherers;
mod heads;
mod lacking;
mod laws;
mod lines;
mod log_parts;
mod machine_lines;
mod machine_log;
mod names;
mod naming;
mod noting;
mod pieces;
mod raw;
mod reach;
mod records;
mod steps;
mod surveying;
mod taking;
mod turns;
mod visiting;

pub use delivering::{Deliveries, Message, deliver};
pub use describing::{DescribeFault, Description};
pub use file_names::{NAME_FILE, read_compressed_name, read_file_name};
pub use files::{FileFault, FileReader};
pub use fronts::Front;
pub use gatherers::{GatherFault, Gatherer};
pub use lacking::{LogLack, count_records, find_lacks};
pub use laws::{
    deliveries_cost_no_order, files_say_one_thing, files_tell_one_log, fronts_have_a_greatest,
    messages_are_delivered_once_in_time,
};
pub use lines::{Last, Opening, Party, read_numbered};
pub use log_parts::{LogPart, PartEnd, PartFault, find_parts};
pub use machine_lines::{MachineRec, Outline};
pub use machine_log::{MachineEntry, MachineLog, MachineLogFault};
pub use names::{LOST, named_by};
pub use naming::Naming;
pub use noting::{Delivered, Noter, Told};
pub use raw::{RawPager, RawSource};
pub use records::LogRecord;
pub use surveying::{NoOnlooker, Onlooker, Surveyed, survey};
pub use taking::{LogFault, RecordTaker, TakeRefusal, TakingFault, take_records};
pub use turns::{Turn, next_turn, turns_gather};
