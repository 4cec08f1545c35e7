//! The messages over the link and the lane in the records of the pager and of the source, and the taker that notes them.

ghost use Rattle.std.specs.Prelude.{◌≡◌, [], ◌∷◌, ◌++◌, List, IfOk, OnOk, length};
ghost use Rattle.std.specs.Option.{option_to_list};
ghost use Rattle.recordings.specs.Wide.{source_of, pager_of};
ghost use Rattle.recorder_files.specs.declared.raw.RawSource.{RawSource as Taken};
ghost use Rattle.recorder_files.specs.declared.raw.RawPager.{RawPager as Received};
ghost use Rattle.recorder_files.specs.Told.{AreDelivered, Follow, HasMessages, Tells, lane_messages, lane_packet, link_messages, link_packet, numbered_pager, numbered_source, request};

use crate::delivering::{Deliveries, Message, deliver};
use crate::raw::{RawPager, RawSource};
use crate::taking::{RecordTaker, TakeRefusal};
use recordings::{WidePager, WideSource};
use std::alloc::{AllocError, Global};

/// The messages in records, which are taken one by one.
#[derive(Drop)]
pub struct Told {
    pub(crate) packets: Vec<Message>,
    pub(crate) pulls: Vec<Message>,
    pub(crate) requests: Vec<Message>,
    pub(crate) pager: u64,
    pub(crate) source: u64,
}

/// The deliveries of the link and of the lane.
#[derive(Drop)]
pub struct Delivered {
    /// Those of the link. The first numbers are those of the pager's packets, in the order of its records. Those of the
    /// messages that the source's records take follow, in the order of these records.
    pub link: Deliveries,
    /// Those of the lane, in the order of the pager's records.
    pub lane: Deliveries,
    /// The messages of the link: the pager's packets, in the order of its records, and then those that the source's records take,
    /// in the order of these records.
    pub link_messages: Vec<Message>,
    /// How many of these are the pager's packets.
    pub packets: usize,
    /// The messages of the lane, in the order of the pager's records.
    pub lane_messages: Vec<Message>,
    /// How many records the pager has.
    pub pager: u64,
}

/// Keeps a message, if there is one.
fn keep(messages: &mut Vec<Message>, message: Option<Message>) -> Result<(), AllocError>
    ensures { OnOk result (messages.new.items ≡ messages.old.items ++ option_to_list message) }
{
    match message {
        Some(message) => messages.push(message)?,
        None => {}
    }
    Ok(())
}

impl RawPager {
    /// Returns the packet of the link that it takes.
    pub fn link_packet(&self, number: u64) -> Option<Message>
        ensures { result ≡ link_packet number self.now }
    {
        match self {
            RawPager::GotSent { sending } => Some(Message::Down {
                sent: *sending,
                taken: number,
            }),
            _ => None,
        }
    }

    /// Returns the packet of the lane that it takes.
    pub fn lane_packet(&self, number: u64) -> Option<Message>
        ensures { result ≡ lane_packet number self.now }
    {
        match self {
            RawPager::PullSent { sending } => Some(Message::Down {
                sent: *sending,
                taken: number,
            }),
            _ => None,
        }
    }

    /// Returns the record with the number of the message that it takes, if it takes one.
    pub fn numbered(self, number: u64) -> WidePager
        ensures { pager_of result ≡ numbered_pager number self }
    {
        match self {
            RawPager::Own(rec) => rec,
            RawPager::GotSent { .. } => WidePager::Got { down: number },
            RawPager::PullSent { .. } => WidePager::Pull { down: number },
        }
    }
}

impl RawSource {
    /// Returns the message that it takes.
    pub fn request(&self, number: u64) -> Option<Message>
        ensures { result ≡ request number self.now }
    {
        match self {
            RawSource::AskSent { asking } => Some(Message::Up {
                sent: *asking,
                taken: number,
            }),
            RawSource::Own(_) => None,
        }
    }

    /// Returns the record with the number of the message that it takes, if it takes one.
    pub fn numbered(self, number: u64) -> WideSource
        ensures { source_of result ≡ numbered_source number self }
    {
        match self {
            RawSource::Own(rec) => rec,
            RawSource::AskSent { .. } => WideSource::Ask { up: number },
        }
    }
}

impl Told {
    /// Returns the messages of no records.
    pub fn new(alloc: Global) -> Told
        ensures { Tells result [] [] }
    {
        Told {
            packets: Vec::new(alloc),
            pulls: Vec::new(alloc),
            requests: Vec::new(alloc),
            pager: 0,
            source: 0,
        }
    }

    /// Takes the pager's next record.
    ///
    /// # Errors
    ///
    /// Memory ran out. Nothing is promised about the messages afterwards.
    pub fn note_pager(&mut self, rec: &RawPager) -> Result<(), AllocError>
        ensures { (pager : List Received) (source : List Taken) → Tells self.old pager source → OnOk result (Tells self.new (pager ++ rec.now ∷ []) source) }
    {
        let number = self.pager;
        let next = number.checked_add(1).ok_or(AllocError)?;
        keep(&mut self.packets, rec.link_packet(number))?;
        keep(&mut self.pulls, rec.lane_packet(number))?;
        self.pager = next;
        Ok(())
    }

    /// Takes the source's next record.
    ///
    /// # Errors
    ///
    /// Memory ran out. Nothing is promised about the messages afterwards.
    pub fn note_source(&mut self, rec: &RawSource) -> Result<(), AllocError>
        ensures { (pager : List Received) (source : List Taken) → Tells self.old pager source → OnOk result (Tells self.new pager (source ++ rec.now ∷ [])) }
    {
        let number = self.source;
        let next = number.checked_add(1).ok_or(AllocError)?;
        keep(&mut self.requests, rec.request(number))?;
        self.source = next;
        Ok(())
    }

    /// Returns the deliveries of the link and of the lane, if these are all records.
    ///
    /// # Errors
    ///
    /// Memory ran out.
    pub fn deliver(self, alloc: Global) -> Result<Delivered, AllocError>
        ensures link { IfOk result (λ d. (pager : List Received) (source : List Taken) → Tells self pager source → AreDelivered (link_messages pager source) (length pager) d.link) }
        ensures lane { IfOk result (λ d. (pager : List Received) (source : List Taken) → Tells self pager source → AreDelivered (lane_messages pager) (length pager) d.lane) }
        ensures told { IfOk result (λ d. (pager : List Received) (source : List Taken) → Tells self pager source → HasMessages d pager source) }
        ensures follow { IfOk result Follow }
    {
        let Told {
            mut packets,
            pulls,
            requests,
            pager,
            source: _,
        } = self;
        let count = packets.len();
        packets.extend_from_slice(&requests)?;
        let link = deliver(alloc, &packets, pager)?;
        let lane = deliver(alloc, &pulls, pager)?;
        Ok(Delivered {
            link,
            lane,
            link_messages: packets,
            packets: count,
            lane_messages: pulls,
            pager,
        })
    }
}

/// A taker that notes the messages in the records of the pager and of the source, and keeps nothing else.
#[derive(Clone, Copy)]
pub struct Noter;

impl RecordTaker<RawPager, Told> for Noter {
    ghost Takes = { λ first from now onto records. (source : List Taken) → Tells from [] source → Tells onto records source };

    ghost IsUnfit = { λ taker number rec. ⊥ };

    fn take(&mut self, onto: &mut Told, number: u64, rec: RawPager) -> Result<(), TakeRefusal> {
        let _ = number;
        match onto.note_pager(&rec) {
            Ok(()) => Ok(()),
            Err(_) => Err(TakeRefusal::Memory),
        }
    }
}

impl RecordTaker<RawSource, Told> for Noter {
    ghost Takes = { λ first from now onto records. (pager : List Received) → Tells from pager [] → Tells onto pager records };

    ghost IsUnfit = { λ taker number rec. ⊥ };

    fn take(&mut self, onto: &mut Told, number: u64, rec: RawSource) -> Result<(), TakeRefusal> {
        let _ = number;
        match onto.note_source(&rec) {
            Ok(()) => Ok(()),
            Err(_) => Err(TakeRefusal::Memory),
        }
    }
}
