//! Answers about a session: its report, in each form that there is, and what it lacks. Programs read the JSON object on
//! one line; the words of a report are for people.
#![tactic(auto)]

mod causes;
mod fields;
mod forms;
mod kinds;
mod lacks;
mod lists;
mod objects;
mod records;
mod reports;
mod stories;
mod telling;
mod topics;

pub use forms::{AnswerForm, Ask, LackForm, Story};
pub use lacks::{print_lack, print_lack_of};
pub use objects::{
    push_all_faults, push_missing, push_refused, push_refused_table, push_report, push_told,
    push_verdict,
};
pub use reports::{print_refusal, print_told};
pub use stories::{print_story, print_story_refusal};
pub use telling::{print_missing, print_refused, print_topic, words_on};
