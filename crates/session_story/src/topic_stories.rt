//! The story of a session on a topic, as a value: of its report, of a page, or of a line of its text.

ghost use Rattle.std.specs.Prelude.{◌≡◌};
ghost use Rattle.session_story.specs.Topics.{apart_in, fault_in, fault_reported, page_in};

use crate::explanations::Explanation;
use crate::fault_stories::{FaultStory, ShapeStory};
use crate::{Handover, Kinds, PageStory};
use migration_types::LogName;

/// The story of a page, with its faults.
#[derive(Clone, Copy)]
pub struct FullPageStory {
    pub story: PageStory,
    pub handover: Handover,
    /// Its first fault, if it has one.
    pub fault: Option<FaultStory>,
    /// All its faults, by kind.
    pub kinds: Kinds,
}

/// A record, and the story of its page.
#[derive(Clone, Copy)]
pub struct LineStory {
    pub log: LogName,
    /// The record's number in its log.
    pub place: u32,
    /// What is wrong with its shape, if the report names it for that.
    pub shape: Option<ShapeStory>,
    /// The story of the page that it is about, directly or through the records that it names, if it is about one.
    pub page: Option<FullPageStory>,
}

/// The story of a session on a topic.
#[derive(Drop)]
pub enum TopicStory {
    /// The story of the report.
    Report(Explanation),
    /// The story of the page of this number, or `None` if the machine has no such page.
    Page(u32, Option<FullPageStory>),
    /// The story of the record at this line, or `None` if there is no record at the line.
    Line(u32, Option<LineStory>),
}

impl TopicStory {
    /// Returns the story of a page, if this is one. Allocates no memory.
    pub fn page(&self) -> Option<FullPageStory>
        ensures { result ≡ page_in self.now }
    {
        match self {
            TopicStory::Report(_) => None,
            TopicStory::Page(_, told) => *told,
            TopicStory::Line(_, told) => match told {
                Some(line) => line.page,
                None => None,
            },
        }
    }

    /// Returns the story of the first fault that misshapen records do not touch, if the story is of the shape and there is
    /// such a fault. Allocates no memory.
    pub fn apart(&self) -> Option<FaultStory>
        ensures { result ≡ apart_in self.now }
    {
        match self {
            TopicStory::Report(Explanation::Shape { apart, .. }) => match apart {
                Some(told) => Some(told.story),
                None => None,
            },
            _ => None,
        }
    }

    /// Returns the story of the fault, if there is one: the report's, or the first of the page. Allocates no memory.
    pub fn fault(&self) -> Option<FaultStory>
        ensures { result ≡ fault_in self.now }
    {
        if let TopicStory::Report(explanation) = self {
            return fault_reported(explanation);
        }
        match self.page() {
            Some(page) => page.fault,
            None => None,
        }
    }
}

/// Returns the story of the report's fault of a page, if it names one.
fn fault_reported(explanation: &Explanation) -> Option<FaultStory>
    ensures { result ≡ fault_reported explanation.now }
{
    match explanation {
        Explanation::Faulty { story, .. } => Some(*story),
        _ => None,
    }
}
