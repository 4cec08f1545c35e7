//! Why a record is faulty: the reasons, in their order, and the word of each.

ghost use Rattle.std.specs.Prelude.{◌≡◌, Some, slice_get};
ghost use Rattle.audit_model.specs.declared.reasons.ShapeReason.{ShapeReason};
ghost use Rattle.audit_model.specs.declared.reasons.PageReason.{PageReason};
ghost use Rattle.audit_model.specs.Reasons.{shape_reasons, rank, shape_word, page_reasons, page_rank, page_word};

/// Why a record does not have the right shape. If there are several reasons, the first counts.
#[derive(Clone, Copy, Debug, PartialEq, Eq)]
pub enum ShapeReason {
    /// It is in the wrong phase: a second halt or resume, a resume before the halt, a read, a write or a release
    /// between the two, a miss or a look before the resume, or, in the first version, a release after it.
    Phases,
    /// It does not name a record of the kind that it must name.
    Named,
    /// The source's log does not begin with its receipt for the halt and the processor state, or the pager's with the
    /// state's arrival and its readiness; or one of these is elsewhere, or the source's `back` comes before its log's
    /// end.
    Start,
    /// It sends a page that was sent before.
    SecondSend,
    /// It starts the guest again at the source, although the guest was resumed at the target.
    Both,
}

impl ShapeReason {
    /// The reasons, in their order.
    pub const ALL: [ShapeReason; 5] = [
        ShapeReason::Phases,
        ShapeReason::Named,
        ShapeReason::Start,
        ShapeReason::SecondSend,
        ShapeReason::Both,
    ];

    /// Returns the reasons, in their order.
    pub fn all() -> [ShapeReason; 5]
        ensures list { result ≡ shape_reasons }
        ensures order { (reason : ShapeReason) → slice_get shape_reasons (rank reason) ≡ Some reason }
    {
        ShapeReason::ALL
    }

    /// Returns the word of a reason in what is printed.
    pub fn word(self) -> &'static [u8]
        ensures { result.now ≡ shape_word self }
    {
        match self {
            ShapeReason::Phases => b"phases",
            ShapeReason::Named => b"named",
            ShapeReason::Start => b"start",
            ShapeReason::SecondSend => b"second-send",
            ShapeReason::Both => b"both",
        }
    }
}

/// Why a record is a fault of its page. If there are several reasons, the first counts.
#[derive(Clone, Copy, Debug, PartialEq, Eq)]
pub enum PageReason {
    /// It reads another value than one machine that never moved would.
    Read,
    /// It reads or writes a page at the target that was not released there before, and no look before it covers the
    /// page's placement.
    Early,
    /// It sends a page that was released at the halt.
    Given,
    /// It sends other contents than the page had at the halt.
    Stale,
    /// It places a page that was placed before.
    Twice,
    /// It places other contents than the page had at the halt.
    Altered,
    /// It places zeros for a page that was not released at the halt.
    Unfit,
    /// It places a page whose first use at the target is a release, and no look before this release covers the
    /// placement.
    Over,
}

impl PageReason {
    /// The reasons, in their order.
    pub const ALL: [PageReason; 8] = [
        PageReason::Read,
        PageReason::Early,
        PageReason::Given,
        PageReason::Stale,
        PageReason::Twice,
        PageReason::Altered,
        PageReason::Unfit,
        PageReason::Over,
    ];

    /// Returns the reasons, in their order.
    pub fn all() -> [PageReason; 8]
        ensures list { result ≡ page_reasons }
        ensures order { (reason : PageReason) → slice_get page_reasons (page_rank reason) ≡ Some reason }
    {
        PageReason::ALL
    }

    /// Returns the word of a reason in what is printed.
    pub fn word(self) -> &'static [u8]
        ensures { result.now ≡ page_word self }
    {
        match self {
            PageReason::Read => b"read",
            PageReason::Early => b"early",
            PageReason::Given => b"given",
            PageReason::Stale => b"stale",
            PageReason::Twice => b"twice",
            PageReason::Altered => b"altered",
            PageReason::Unfit => b"unfit",
            PageReason::Over => b"over",
        }
    }
}
