//! A recording, gone through as the files of its logs are read.

ghost use Rattle.std.specs.Prelude.{◌≡◌, ◌↔◌, [], false, IfErr, IfOk, IsTrue, OnOk, length};
ghost use Rattle.migration_types.specs.Sessions.{Recorded};
ghost use Rattle.recordings.specs.Recordings.{IsMachine};
ghost use Rattle.recordings.specs.Seen.{BeforeGuest, with_init};
ghost use Rattle.recordings.specs.Wide.{extent_of, init_of};
ghost use Rattle.recorder_files.specs.declared.noting.Delivered.{Delivered as Noted};
ghost use Rattle.walked_sessions.specs.Faults.{IsWalkFault};
ghost use Rattle.walked_sessions.specs.Walks.{HasNoHole, WalksFiles};
ghost use Rattle.walked_sessions.specs.inner.Meeting.{MeetsAll, WalksCarrier, WalksGuest, WalksPager, WalksSource, begun_with};
ghost use Rattle.walked_sessions.specs.inner.Refusing.{IsCarrierFault, IsTaking, IsTakingOne};

use crate::cursors::Cursor;
use crate::files::{LogFiles, WalkFault, take_log};
use crate::noting::Messages;
use crate::takers::{CarrierRecord, CarrierTaker, GuestTaker, PagerTaker, SourceTaker};
use migration_types::LogName;
use recorder_files::{Delivered, Message, RawPager, RawSource};
use recordings::{Visitor, WideGuest, WideInit, WideLane, WideLink, WideMachine};
use std::alloc::{AllocError, Global};

/// Meets an initial page.
fn meet_page<V: Visitor>(alloc: Global, page: &WideInit, visitor: &mut V) -> Result<(), AllocError>
    ensures { OnOk result ((d : Recorded) → BeforeGuest d → V.Met visitor.old d → V.Met visitor.new (with_init d (init_of page.now))) }
{
    visitor.init(page.another(alloc)?)?;
    Ok(())
}

/// Meets the machine and the initial pages.
fn walk_start<V: Visitor>(
    alloc: Global,
    machine: &WideMachine,
    init: &[WideInit],
    visitor: &mut V,
) -> Result<(), AllocError>
    requires new { V.IsNew visitor.old }
    requires machine { IsMachine (extent_of machine.now) }
    ensures { OnOk result (V.Met visitor.new (begun_with machine.now init.now)) }
{
    visitor.machine(machine)?;
    for i in 0..init.len() {
        meet_page(alloc, &init[i], visitor)?;
    }
    Ok(())
}

/// Meets the guest's records. Returns whether the log has no hole.
fn walk_guest<F: LogFiles, V: Visitor>(
    alloc: Global,
    machine: &WideMachine,
    files: &F,
    visitor: &mut V,
) -> Result<bool, WalkFault>
    requires { IsMachine (extent_of machine.now) }
    ensures walked { IfOk result (WalksGuest V.Met machine.now (F.bytes_of files.now) visitor.old visitor.new) }
    ensures refused { IfErr result (λ fault. (messages : Noted) → IsWalkFault machine.now (F.bytes_of files.now) messages fault) }
{
    let mut taker = GuestTaker;
    take_log::<F, WideGuest, V, GuestTaker>(
        alloc,
        machine,
        files,
        LogName::Guest,
        WalkFault::Changed,
        &mut taker,
        visitor,
    )
}

/// Meets the source's records. Returns whether the log has no hole.
fn walk_source<F: LogFiles, V: Visitor>(
    alloc: Global,
    machine: &WideMachine,
    files: &F,
    messages: &Delivered,
    visitor: &mut V,
) -> Result<bool, WalkFault>
    requires { IsMachine (extent_of machine.now) }
    ensures walked { IfOk result (WalksSource V.Met machine.now (F.bytes_of files.now) messages.now visitor.old visitor.new) }
    ensures refused { IfErr result (IsWalkFault machine.now (F.bytes_of files.now) messages.now) }
{
    let mut taker = SourceTaker {
        link: Cursor::of_link(messages, messages.packets),
    };
    let whole = take_log::<F, RawSource, V, SourceTaker<'_>>(
        alloc,
        machine,
        files,
        LogName::Source,
        WalkFault::Changed,
        &mut taker,
        visitor,
    )?;
    if taker.link.is_at_end() {
        Ok(whole)
    } else {
        Err(WalkFault::Changed)
    }
}

/// Returns whether there is a message.
fn are_some(messages: &[Message]) -> bool
    ensures { (result ≡ false) ↔ (messages.now ≡ []) }
{
    !messages.is_empty()
}

/// Returns the fault of a log that has records of its own, where a record of another log takes this message.
fn taking(log: LogName, message: Message) -> WalkFault
    ensures { IsTaking log message result }
{
    match message {
        Message::Up { taken, .. } => WalkFault::OwnLog(log, LogName::Source, taken),
        Message::Down { taken, .. } => WalkFault::OwnLog(log, LogName::Pager, taken),
    }
}

/// Returns the fault of a log that has records of its own, where records of other logs take these messages. It names the record that
/// takes the one at the place, or the first if there is none.
fn own_log(log: LogName, messages: &[Message], place: usize) -> WalkFault
    ensures { (messages.now ≡ [] → ⊥) → IsTakingOne log messages.now result }
{
    if place < messages.len() {
        return taking(log, messages[place]);
    }
    if messages.len() > 0 {
        return taking(log, messages[0]);
    }
    WalkFault::Changed
}

/// Meets the deliveries of the link or of the lane.
fn walk_deliveries<K: CarrierRecord, V: Visitor>(
    deliveries: &[Message],
    visitor: &mut V,
) -> Result<(), AllocError>
    ensures { OnOk result (MeetsAll V.Met (λ m. K.wide (K.delivery m)) visitor.old visitor.new deliveries.now) }
{
    for i in 0..deliveries.len() {
        visitor.record(i as u64, K::delivery(deliveries[i]).wide())?;
    }
    Ok(())
}

/// Meets the records of the link or of the lane: those of its own files, or the deliveries, if there are messages. Where its own
/// files have a record beside these messages, the fault names the record that takes the message at the place, or the first. Returns
/// whether its own files have no hole.
fn walk_carrier<F: LogFiles, K: CarrierRecord, V: Visitor>(
    alloc: Global,
    machine: &WideMachine,
    files: &F,
    log: LogName,
    messages: &[Message],
    place: usize,
    deliveries: &[Message],
    visitor: &mut V,
) -> Result<bool, WalkFault>
    requires { IsMachine (extent_of machine.now) }
    ensures walked { IfOk result (WalksCarrier V.Met K.line (K.IsOf machine.now) log K.wide K.delivery (F.bytes_of files.now) messages.now deliveries.now visitor.old visitor.new) }
    ensures refused { IfErr result (IsCarrierFault K.line (K.IsOf machine.now) log (F.bytes_of files.now) messages.now) }
{
    let is_told = are_some(messages);
    let mut taker = CarrierTaker { is_told };
    let unfit = own_log(log, messages, place);
    let whole = take_log::<F, K, V, CarrierTaker>(
        alloc, machine, files, log, unfit, &mut taker, visitor,
    )?;
    if is_told {
        walk_deliveries::<K, V>(deliveries, visitor)?;
    }
    Ok(whole)
}

/// Returns whether the pager's records, which were met, take all messages that they are to take.
fn are_passed(taker: &PagerTaker<'_>, messages: &Delivered) -> bool
    ensures { IsTrue result ↔ ((taker.now.link.place ≡ messages.now.packets) × (taker.now.lane.place ≡ length taker.now.lane.messages.now) × (taker.now.count ≡ messages.now.pager)) }
{
    taker.link.place == messages.packets && taker.lane.is_at_end() && taker.count == messages.pager
}

/// Meets the pager's records. Returns whether the log has no hole.
fn walk_pager<F: LogFiles, V: Visitor>(
    alloc: Global,
    machine: &WideMachine,
    files: &F,
    messages: &Delivered,
    visitor: &mut V,
) -> Result<bool, WalkFault>
    requires { IsMachine (extent_of machine.now) }
    ensures walked { IfOk result (WalksPager V.Met machine.now (F.bytes_of files.now) messages.now visitor.old visitor.new) }
    ensures refused { IfErr result (IsWalkFault machine.now (F.bytes_of files.now) messages.now) }
{
    let mut taker = PagerTaker {
        link: Cursor::of_link(messages, 0),
        lane: Cursor::of_lane(messages),
        count: 0,
    };
    let whole = take_log::<F, RawPager, V, PagerTaker<'_>>(
        alloc,
        machine,
        files,
        LogName::Pager,
        WalkFault::Changed,
        &mut taker,
        visitor,
    )?;
    if are_passed(&taker, messages) {
        Ok(whole)
    } else {
        Err(WalkFault::Changed)
    }
}

/// Returns whether each of the five is so.
fn are_all(guest: bool, source: bool, link: bool, lane: bool, pager: bool) -> bool
    ensures { IsTrue result ↔ (IsTrue guest × IsTrue source × IsTrue link × IsTrue lane × IsTrue pager) }
{
    guest && source && link && lane && pager
}

/// Goes through the recording that the files of its logs make, with a visitor. The visitor meets the machine, the initial pages, and
/// each log as its files are read, up to its end or to the first number that no file has. A record of the source or of the pager has
/// the number of the message that it takes. The link and the lane are those of their own files, or, where no file has a record of
/// one, the deliveries of the messages. Memory is taken for one record at a time. Returns whether no log has a hole: whether the
/// files of each were read to their ends.
///
/// # Errors
///
/// What is wrong with a log, or that a record takes a message of a log whose files have records, or that the files have changed
/// since the messages were noted, or that memory was refused. The visitor may have met some of the recording by then.
pub fn walk_logs<F: LogFiles, V: Visitor>(
    alloc: Global,
    machine: &WideMachine,
    init: &[WideInit],
    files: &F,
    messages: &Messages,
    visitor: &mut V,
) -> Result<bool, WalkFault>
    requires new { V.IsNew visitor.old }
    requires machine { IsMachine (extent_of machine.now) }
    ensures walked { IfOk result (λ whole. (w : WalksFiles V.Met machine.now init.now (F.bytes_of files.now) visitor.new) × (IsTrue whole ↔ HasNoHole w.made)) }
    ensures refused { IfErr result (IsWalkFault machine.now (F.bytes_of files.now) messages.now) }
{
    let delivered = &messages.delivered;
    walk_start(alloc, machine, init, visitor)?;
    let guest = walk_guest(alloc, machine, files, visitor)?;
    let source = walk_source(alloc, machine, files, delivered, visitor)?;
    let link = walk_carrier::<F, WideLink, V>(
        alloc,
        machine,
        files,
        LogName::Link,
        delivered.link_messages.as_slice(),
        delivered.packets,
        delivered.link.log.as_slice(),
        visitor,
    )?;
    let lane = walk_carrier::<F, WideLane, V>(
        alloc,
        machine,
        files,
        LogName::Lane,
        delivered.lane_messages.as_slice(),
        0,
        delivered.lane.log.as_slice(),
        visitor,
    )?;
    let pager = walk_pager(alloc, machine, files, delivered, visitor)?;
    Ok(are_all(guest, source, link, lane, pager))
}
