//! The sentences about a clean session.

ghost use Rattle.std.specs.Prelude.{◌≡◌, ◌++◌, OnOk};
ghost use Rattle.story_words.specs.Sentences.{counts_told, lane_of, unplaced_told};

use crate::Sentence;
use crate::listing::push_if;
use migration_types::Version;
use session_story::Counts;
use std::alloc::AllocError;

/// Appends how many pages were not placed.
#[tactic(auto, unfolding(crate::specs::Sentences::unplaced_told))]
fn push_unplaced(
    out: &mut Vec<Sentence>,
    version: Version,
    counts: &Counts,
) -> Result<(), AllocError>
    ensures { OnOk result (out.new.items ≡ out.old.items ++ unplaced_told version counts.now) }
{
    match version {
        Version::One => out.extend_from_slice(&[Sentence::UnplacedPages(counts.unmoved)]),
        Version::Two => out.extend_from_slice(&[
            Sentence::FreshPages(counts.fresh),
            Sentence::OtherPages(counts.unmoved),
        ]),
    }
}

/// Returns how many packets the lane delivered, if it delivered some.
fn lane_of(by_lane: u32) -> Option<Sentence>
    ensures { result ≡ lane_of by_lane }
{
    if by_lane > 0 {
        Some(Sentence::LanePackets(by_lane))
    } else {
        None
    }
}

/// Appends how a clean session went.
#[tactic(auto, unfolding(crate::specs::Sentences::counts_told))]
pub(crate) fn push_counts(
    out: &mut Vec<Sentence>,
    version: Version,
    counts: &Counts,
) -> Result<(), AllocError>
    ensures { OnOk result (out.new.items ≡ out.old.items ++ counts_told version counts.now) }
{
    out.extend_from_slice(&[
        Sentence::Clean,
        Sentence::SentPages(counts.sent),
        Sentence::ZeroedPages(counts.zeroed),
    ])?;
    push_unplaced(out, version, counts)?;
    out.extend_from_slice(&[
        Sentence::ReleasedPages(counts.released),
        Sentence::LeftPages(counts.left),
        Sentence::UsedPages(counts.used),
        Sentence::Reads(counts.reads),
        Sentence::Sendings {
            sends: counts.sends,
            pushes: counts.pushes,
        },
        Sentence::Repeats(counts.repeats),
        Sentence::UndeliveredPackets(counts.undelivered),
    ])?;
    push_if(out, lane_of(counts.by_lane))?;
    out.extend_from_slice(&[
        Sentence::DroppedPackets(counts.dropped),
        Sentence::Requests {
            requests: counts.requests,
            unheard: counts.unheard,
        },
        Sentence::Misses {
            misses: counts.misses,
            waits: counts.waits,
        },
    ])
}
