//! The words of the command line: one table of the commands, the command line that it makes, and what words ask for.
#![tactic(auto)]

mod building;
mod giving;
mod matching;
mod parameters;
mod reading;
mod requests;
mod table;

pub use reading::{Reading, read_words};
pub use requests::{
    AnswerKind, Audits, Carrier, Checks, Demand, Explains, Folders, Intent, Job, Lacking, ListForm,
    Lists, OneText, Pages, ReportForm, Request, Several, StoryForm, Targets, TwoTexts, VerdictForm,
};
