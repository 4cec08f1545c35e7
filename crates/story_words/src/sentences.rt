//! The sentences of stories: which there are, what each is about, and its words in English.

use crate::english::{Teller, clean, faults, knots, lacks, pages};
use audit_model::PageReason;
use audit_report::Lines;
use migration_types::{LogName, PageNo};
use session_story::{CauseKind, CellValue, Handover, Name, Waiting};
use std::alloc::AllocError;

/// A sentence, with its records and numbers. If the log of a record is clear, the sentence has only the record's number
/// there.
#[derive(Clone, Copy)]
pub enum Sentence {
    // ---- a fault of a page
    /// This record is wrong.
    Wrong(Name),
    /// A page goes wrong in this way, with this record.
    GoesWrong {
        page: PageNo,
        kind: CauseKind,
        name: Name,
    },
    /// The cell of this read keeps the value that it has since this record, or from the start.
    Keeps {
        read: u32,
        since: Option<u32>,
    },
    /// No record explains what this page has.
    Unexplained(PageNo),
    /// The guest is at the source, so a fault is none of the migration.
    AtSource,
    /// What went wrong before shows at this record.
    Shows(Name),
    /// What one machine that never moved has instead of what a read gives.
    OneMachine(CellValue),
    /// The page of an early use is never placed.
    NotThere,
    /// No look before an early use of its page reaches this placement.
    Unreached(u32),
    /// This look reaches furthest before a use or a release, if there is one.
    FurthestLook(Option<u32>),
    /// This look is the first that reaches a placement, if there is one, and comes after an early use.
    LateForUse(Option<u32>),
    /// This look is the first that reaches a placement, if there is one, and comes after a release.
    LateForRelease(Option<u32>),
    /// This release is the first use of its page at the target.
    ReleasedFirst(u32),
    /// This placement may come after the release of its page.
    MayComeAfter(u32),
    /// What would be right instead of a placement over a release.
    RightOrder,
    /// This record has a value in a cell whose value in the page is another at the halt.
    Contents {
        name: Name,
        value: u64,
        at_halt: CellValue,
    },
    /// What this record of the pager took was sent with this value, by this record of the source.
    SentWith {
        got: u32,
        value: u64,
        sending: u32,
    },
    /// A page that is sent is released at the halt.
    ReleasedAtHalt,
    /// A page that is placed as zeros is not released at the halt.
    NotReleasedAtHalt,
    /// This record of the guest is the last change of the page before the halt, if there is one.
    ChangedLast(Option<u32>),
    /// This record placed the page before.
    PlacedBefore(u32),
    /// Every order of the records shows a fault with this reason.
    EveryOrder(PageReason),
    /// The order in an audit's report shows a fault with this reason.
    ShownOrder(PageReason),
    /// This page, which misshapen records do not touch, has a fault too.
    Apart(PageNo),
    /// This many other pages have a fault.
    MoreFaulty(usize),
    /// This page has this many faults in all.
    Faults {
        page: PageNo,
        count: u64,
    },
    /// This many of them are for this reason, and this record is the first.
    FaultsFor {
        reason: PageReason,
        count: u32,
        first: u32,
    },

    // ---- a fault of a record's shape
    /// This record does not have the right shape.
    Misshapen(Name),
    /// The rule that this record of the guest breaks, and where the guest is halted and resumed.
    OutOfPhase {
        place: u32,
        handover: Handover,
    },
    /// This record names that one, which is not what it must name.
    Names {
        name: Name,
        named: Name,
    },
    /// How the log of this record must begin.
    Begins(Name),
    /// This record sent the page before.
    SentBefore(u32),
    /// This record resumed the guest at the target, although the source starts it again.
    ResumedToo(u32),
    /// The guest's first access after that, if there is one.
    FirstAccess(Option<u32>),

    // ---- records that wait for one another
    /// No order of the records exists.
    NoOrder,
    /// This record waits for another one, and so for the next.
    Waits {
        waiting: Waiting,
        next: Option<Waiting>,
    },

    // ---- the story of a page
    /// The story of the page of this number follows.
    StoryOf(PageNo),
    /// The last change of the page, before the halt if there is one.
    Change {
        halted: bool,
        place: Option<u32>,
    },
    /// The guest's halt.
    Halt(Option<u32>),
    /// The sending of the page.
    Sending(Option<u32>),
    /// The delivery of the page, by the link or by the lane.
    Delivery {
        log: LogName,
        place: Option<u32>,
    },
    /// The record by which the pager took the page.
    Taking(Option<u32>),
    /// The placement of the page.
    Placement(Option<u32>),
    /// The second placement of the page.
    SecondPlacement(u32),
    /// The first look that reaches the page's placement.
    FirstLook(Option<u32>),
    /// The first use of the page at the target, which may release it.
    FirstUse {
        releases: bool,
        place: Option<u32>,
    },

    // ---- a clean session
    /// Every order of the records is safe.
    Clean,
    /// This many pages were sent and placed.
    SentPages(u32),
    /// This many released pages came back as zeros.
    ZeroedPages(u32),
    /// This many pages were not placed.
    UnplacedPages(u32),
    /// This many pages were released at the target and never placed.
    FreshPages(u32),
    /// This many other pages were not placed.
    OtherPages(u32),
    /// This many pages were released at the halt, and so not sent.
    ReleasedPages(u32),
    /// This many owed pages never came.
    LeftPages(u32),
    /// The guest read, wrote or released this many pages at the target.
    UsedPages(u32),
    /// This many reads of the guest were recorded at the target.
    Reads(u32),
    /// A page was sent this many times, and this many of them unasked.
    Sendings {
        sends: u32,
        pushes: u32,
    },
    /// A packet was repeated this many times.
    Repeats(u32),
    /// This many packets were sent and not delivered.
    UndeliveredPackets(u32),
    /// This many packets were delivered by the lane.
    LanePackets(u32),
    /// This many packets were dropped by the pager.
    DroppedPackets(u32),
    /// The pager asked for a page this many times, and this many of its requests were not delivered.
    Requests {
        requests: u32,
        unheard: u32,
    },
    /// The guest missed a page this many times, and this many misses waited for a page that was already asked for.
    Misses {
        misses: u32,
        waits: u32,
    },

    // ---- a page or a line that is asked for
    /// The machine has no page of this number, and this many pages.
    NoPage {
        number: u32,
        pages: u32,
    },
    /// Whether this page has a fault.
    Verdict {
        page: PageNo,
        is_faulty: bool,
    },
    /// There is no record at this line.
    NoRecord(u32),
    /// This is the record at the line.
    Stands(Name),

    // ---- what a clean session lacks
    /// The logs do not tell of a whole migration.
    NotWhole,
    /// This page was owed to the target, and did not come.
    Owed(PageNo),
    /// An owed page came as far as this record, or was not sent.
    CameTo(Option<Name>),
    /// The guest was never halted.
    NeverHalted,
    /// The guest was never resumed.
    NeverResumed,
    /// This record halted the guest.
    HaltedAt(u32),
    /// The guest returned to the source.
    Returned,
    /// This record started the guest again at the source.
    StartedAgainAt(u32),
    /// The pager never said that every owed page had come.
    NeverSaid,
    /// The source never learned that every owed page had come.
    NeverLearned,
    /// This record of the pager said that every owed page had come.
    SaidAt(u32),
    /// The pager neither placed nor dropped the packet that this record took.
    Untaken(u32),
}

impl<L: Lines> Teller<'_, L> {
    /// Appends the words of a sentence.
    pub(crate) fn push_words(
        &self,
        out: &mut String,
        sentence: &Sentence,
    ) -> Result<(), AllocError> {
        match *sentence {
            Sentence::Wrong(name) => self.push_wrong(out, name),
            Sentence::GoesWrong { page, kind, name } => {
                self.push_goes_wrong(out, page, kind, name)
            }
            Sentence::Keeps { read, since } => self.push_keeps(out, read, since),
            Sentence::Unexplained(page) => faults::push_unexplained(out, page),
            Sentence::AtSource => out.push_str(faults::AT_SOURCE),
            Sentence::Shows(name) => self.push_with_record(out, "It shows at ", name),
            Sentence::OneMachine(held) => self.push_one_machine(out, held),
            Sentence::NotThere => out.push_str(faults::NOT_THERE),
            Sentence::Unreached(place) => self.push_unreached(out, place),
            Sentence::FurthestLook(look) => self.push_furthest(out, look),
            Sentence::LateForUse(look) => self.push_late(out, faults::LATE_FOR_USE, look),
            Sentence::LateForRelease(look) => self.push_late(out, faults::LATE_FOR_RELEASE, look),
            Sentence::ReleasedFirst(place) => self.push_released_first(out, place),
            Sentence::MayComeAfter(place) => self.push_may_come_after(out, place),
            Sentence::RightOrder => out.push_str(faults::RIGHT_ORDER),
            Sentence::Contents {
                name,
                value,
                at_halt,
            } => self.push_contents(out, name, value, at_halt),
            Sentence::SentWith {
                got,
                value,
                sending,
            } => self.push_sent_with(out, got, value, sending),
            Sentence::ReleasedAtHalt => out.push_str(faults::RELEASED_AT_HALT),
            Sentence::NotReleasedAtHalt => out.push_str(faults::NOT_RELEASED_AT_HALT),
            Sentence::ChangedLast(place) => self.push_changed_last(out, place),
            Sentence::PlacedBefore(place) => self.push_placed_before(out, place),
            Sentence::EveryOrder(reason) => out.push_str(faults::in_every_order(reason)),
            Sentence::ShownOrder(reason) => out.push_str(faults::in_shown_order(reason)),
            Sentence::Apart(page) => faults::push_apart(out, page),
            Sentence::MoreFaulty(more) => faults::push_more(out, more),
            Sentence::Faults { page, count } => faults::push_in_all(out, page, count),
            Sentence::FaultsFor {
                reason,
                count,
                first,
            } => self.push_kind(out, reason, count, first),
            Sentence::Misshapen(name) => self.push_misshapen(out, name),
            Sentence::OutOfPhase { place, handover } => self.push_phase(out, place, handover),
            Sentence::Names { name, named } => self.push_names(out, name, named),
            Sentence::Begins(name) => out.push_str(self.beginning(name)),
            Sentence::SentBefore(place) => self.push_sent_before(out, place),
            Sentence::ResumedToo(place) => self.push_resumed_too(out, place),
            Sentence::FirstAccess(place) => self.push_first_access(out, place),
            Sentence::NoOrder => out.push_str(knots::NO_ORDER),
            Sentence::Waits { waiting, next } => self.push_waits(out, &waiting, next),
            Sentence::StoryOf(page) => pages::push_heading(out, page),
            Sentence::Change { halted, place } => self.push_change(out, halted, place),
            Sentence::Halt(place) => self.push_halt(out, place),
            Sentence::Sending(place) => self.push_sending(out, place),
            Sentence::Delivery { log, place } => self.push_delivery(out, log, place),
            Sentence::Taking(place) => self.push_taking(out, place),
            Sentence::Placement(place) => self.push_placement(out, place),
            Sentence::SecondPlacement(place) => self.push_second_placement(out, place),
            Sentence::FirstLook(place) => self.push_first_look(out, place),
            Sentence::FirstUse { releases, place } => self.push_first_use(out, releases, place),
            Sentence::Clean => out.push_str(clean::CLEAN),
            Sentence::SentPages(n) => clean::push_sent(out, n),
            Sentence::ZeroedPages(n) => clean::push_zeroed(out, n),
            Sentence::UnplacedPages(n) => clean::push_unplaced(out, n),
            Sentence::FreshPages(n) => clean::push_fresh(out, n),
            Sentence::OtherPages(n) => clean::push_other(out, n),
            Sentence::ReleasedPages(n) => clean::push_released(out, n),
            Sentence::LeftPages(n) => clean::push_left(out, n),
            Sentence::UsedPages(n) => clean::push_used(out, n),
            Sentence::Reads(n) => clean::push_reads(out, n),
            Sentence::Sendings { sends, pushes } => clean::push_sendings(out, sends, pushes),
            Sentence::Repeats(n) => clean::push_repeats(out, n),
            Sentence::UndeliveredPackets(n) => clean::push_undelivered(out, n),
            Sentence::LanePackets(n) => clean::push_by_lane(out, n),
            Sentence::DroppedPackets(n) => clean::push_dropped(out, n),
            Sentence::Requests { requests, unheard } => {
                clean::push_requests(out, requests, unheard)
            }
            Sentence::Misses { misses, waits } => clean::push_misses(out, misses, waits),
            Sentence::NoPage { number, pages } => pages::push_no_page(out, number, pages),
            Sentence::Verdict { page, is_faulty } => pages::push_verdict(out, page, is_faulty),
            Sentence::NoRecord(line) => self.push_no_record(out, line),
            Sentence::Stands(name) => self.push_stands(out, name),
            Sentence::NotWhole => out.push_str(lacks::NOT_WHOLE),
            Sentence::Owed(page) => lacks::push_owed(out, page),
            Sentence::CameTo(name) => self.push_came_to(out, name),
            Sentence::NeverHalted => out.push_str(lacks::NEVER_HALTED),
            Sentence::NeverResumed => out.push_str(lacks::NEVER_RESUMED),
            Sentence::HaltedAt(place) => self.push_halted_at(out, place),
            Sentence::Returned => out.push_str(lacks::RETURNED),
            Sentence::StartedAgainAt(place) => self.push_started_again_at(out, place),
            Sentence::NeverSaid => out.push_str(lacks::NEVER_SAID),
            Sentence::NeverLearned => out.push_str(lacks::NEVER_LEARNED),
            Sentence::SaidAt(place) => self.push_said_at(out, place),
            Sentence::Untaken(place) => self.push_untaken(out, place),
        }
    }
}
