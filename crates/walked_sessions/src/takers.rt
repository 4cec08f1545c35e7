//! The takers of the logs' records, which a visitor meets.

ghost use Rattle.std.specs.Prelude.{◌≡◌, ◌⊎◌, true, IfErr, IfOk};
ghost use Rattle.recorder_files.specs.Told.{lane_packet, link_packet, request};
ghost use Rattle.walked_sessions.specs.inner.Meeting.{MeetsAll, MeetsCarrier, MeetsPager, MeetsSource};
ghost use Rattle.walked_sessions.specs.inner.Passing.{IsNotNext, Passes};

use crate::cursors::Cursor;
use recorder_files::{LogRecord, Message, RawPager, RawSource, RecordTaker, TakeRefusal};
use recordings::{Visitor, Wide, WideGuest, WideLane, WideLink};

/// The guest's records.
#[derive(Clone, Copy)]
pub(crate) struct GuestTaker;

impl<V: Visitor> RecordTaker<WideGuest, V> for GuestTaker {
    ghost use Rattle.recordings.specs.declared.wide.Wide.{Wide};

    ghost Takes = { λ first from now onto records. MeetsAll V.Met Wide.Guest from onto records };

    ghost IsUnfit = { λ taker number rec. ⊥ };

    fn take(&mut self, onto: &mut V, number: u64, rec: WideGuest) -> Result<(), TakeRefusal> {
        match onto.record(number, Wide::Guest(rec)) {
            Ok(()) => Ok(()),
            Err(_) => Err(TakeRefusal::Memory),
        }
    }
}

/// The source's records, each with the number of the message that it takes.
#[derive(Clone, Copy)]
pub(crate) struct SourceTaker<'a> {
    pub(crate) link: Cursor<'a>,
}

impl<'a, V: Visitor> RecordTaker<RawSource, V> for SourceTaker<'a> {
    ghost Takes = { λ first from now onto records. MeetsSource V.Met first from now onto records };

    ghost IsUnfit = { λ taker number rec. IsNotNext taker.link (request number rec) };

    fn take(&mut self, onto: &mut V, number: u64, rec: RawSource) -> Result<(), TakeRefusal> {
        let up = self.link.pass(rec.request(number))?;
        match onto.record(number, Wide::Source(rec.numbered(up))) {
            Ok(()) => Ok(()),
            Err(_) => Err(TakeRefusal::Memory),
        }
    }
}

/// A record of the link or of the lane: of a log that is what its own files tell, or the deliveries of messages.
pub(crate) trait CarrierRecord: LogRecord {
    ghost use Rattle.recorder_files.specs.declared.delivering.Message.{Message as Sent};
    ghost use Rattle.recordings.specs.declared.wide.Wide.{Wide as OfAny};

    /// The record, as one of any log.
    ghost wide: { Self → OfAny };

    /// The record for the delivery of a message.
    ghost delivery: { Sent → Self };

    /// Returns the record, as one of any log.
    fn wide(self) -> Wide
        ensures { result ≡ wide self };

    /// Returns the record for the delivery of a message.
    fn delivery(message: Message) -> Self
        ensures { result ≡ delivery message };
}

impl CarrierRecord for WideLink {
    ghost use Rattle.recordings.specs.declared.wide.Wide.{Wide};
    ghost use Rattle.walked_sessions.specs.inner.Meeting.{wide_link_delivery};

    ghost wide = { Wide.Link };

    ghost delivery = { wide_link_delivery };

    #[inline(always)]
    fn wide(self) -> Wide {
        Wide::Link(self)
    }

    #[inline(always)]
    fn delivery(message: Message) -> WideLink {
        match message {
            Message::Down { sent, .. } => WideLink::Down { sending: sent },
            Message::Up { sent, .. } => WideLink::Up { asking: sent },
        }
    }
}

impl CarrierRecord for WideLane {
    ghost use Rattle.recordings.specs.declared.wide.Wide.{Wide};
    ghost use Rattle.walked_sessions.specs.inner.Meeting.{wide_lane_delivery};

    ghost wide = { Wide.Lane };

    ghost delivery = { wide_lane_delivery };

    #[inline(always)]
    fn wide(self) -> Wide {
        Wide::Lane(self)
    }

    #[inline(always)]
    fn delivery(message: Message) -> WideLane {
        match message {
            Message::Down { sent, .. } | Message::Up { sent, .. } => {
                WideLane::Down { sending: sent }
            }
        }
    }
}

/// The records of the own files of the link or of the lane. There may be none if a record of another log takes a message without
/// them.
#[derive(Clone, Copy)]
pub(crate) struct CarrierTaker {
    pub(crate) is_told: bool,
}

impl<K: CarrierRecord, V: Visitor> RecordTaker<K, V> for CarrierTaker {
    ghost Takes = { λ first from now onto records. MeetsCarrier V.Met K.wide first from now onto records };

    ghost IsUnfit = { λ taker number rec. taker.is_told ≡ true };

    fn take(&mut self, onto: &mut V, number: u64, rec: K) -> Result<(), TakeRefusal> {
        if self.is_told {
            return Err(TakeRefusal::Unfit);
        }
        match onto.record(number, rec.wide()) {
            Ok(()) => Ok(()),
            Err(_) => Err(TakeRefusal::Memory),
        }
    }
}

/// The pager's records, each with the number of the message that it takes, and how many there are.
#[derive(Clone, Copy)]
pub(crate) struct PagerTaker<'a> {
    pub(crate) link: Cursor<'a>,
    pub(crate) lane: Cursor<'a>,
    pub(crate) count: u64,
}

impl<'a, V: Visitor> RecordTaker<RawPager, V> for PagerTaker<'a> {
    ghost Takes = { λ first from now onto records. MeetsPager V.Met first from now onto records };

    ghost IsUnfit = { λ taker number rec. IsNotNext taker.link (link_packet number rec) ⊎ IsNotNext taker.lane (lane_packet number rec) };

    fn take(&mut self, onto: &mut V, number: u64, rec: RawPager) -> Result<(), TakeRefusal> {
        let Some(count) = number.checked_add(1) else {
            return Err(TakeRefusal::Memory);
        };
        self.count = count;
        let down = pass_either(&mut self.link, &mut self.lane, number, &rec)?;
        match onto.record(number, Wide::Pager(rec.numbered(down))) {
            Ok(()) => Ok(()),
            Err(_) => Err(TakeRefusal::Memory),
        }
    }
}

/// Passes the packet of the link or of the lane that a record of the pager takes, if it takes one, and returns the packet's number.
fn pass_either(
    link: &mut Cursor<'_>,
    lane: &mut Cursor<'_>,
    number: u64,
    rec: &RawPager,
) -> Result<u64, TakeRefusal>
    ensures link { IfOk result (Passes link.old link.new (link_packet number rec.now)) }
    ensures lane { IfOk result (Passes lane.old lane.new (lane_packet number rec.now)) }
    ensures unfit { IfErr result (λ refusal. IsNotNext link.old (link_packet number rec.now) ⊎ IsNotNext lane.old (lane_packet number rec.now)) }
{
    match rec {
        RawPager::Own(_) => link.pass(None),
        RawPager::GotSent { .. } => link.pass(rec.link_packet(number)),
        RawPager::PullSent { .. } => lane.pass(rec.lane_packet(number)),
    }
}
