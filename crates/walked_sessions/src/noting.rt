//! The messages in the records of the pager and of the source.

ghost use Rattle.std.specs.Prelude.{◌≡◌, IfErr, IfOk};
ghost use Rattle.recordings.specs.Recordings.{IsMachine};
ghost use Rattle.recordings.specs.Wide.{extent_of};
ghost use Rattle.walked_sessions.specs.Faults.{IsNoteFault};
ghost use Rattle.walked_sessions.specs.Walks.{AreMessagesOf};

use crate::files::{LogFiles, WalkFault, take_log};
use crate::senders::{Senders, in_order};
use migration_types::LogName;
use recorder_files::{Delivered, Noter, RawPager, RawSource, Told, deliver};
use recordings::WideMachine;
use std::alloc::{AllocError, Global};
use std::marker::Model;

/// The messages in the records of the pager and of the source, and their deliveries.
#[derive(Drop)]
pub struct Messages {
    pub(crate) delivered: Delivered,
}

impl Model for Messages {
    ghost use Rattle.recorder_files.specs.declared.noting.Delivered.{Delivered};
    ghost use Rattle.recorder_files.specs.Told.{Follow};

    ghost Value = { Delivered };

    ghost view = { λ m. m.delivered };

    ghost invariant = { λ m. Follow m.delivered };
}

impl Messages {
    /// Returns the messages that the senders say, and their deliveries: the pager's log has this many records.
    ///
    /// # Errors
    ///
    /// Memory was refused.
    pub fn of(alloc: Global, senders: Senders, pager: u64) -> Result<Self, AllocError>
        ensures { IfOk result (λ messages. messages.pager ≡ pager) }
    {
        let Senders {
            packets,
            pulls,
            requests,
        } = senders;
        let mut link = in_order(packets)?;
        let lane = in_order(pulls)?;
        let packets = link.len();
        link.extend_from_slice(&in_order(requests)?)?;
        let delivered = Delivered {
            link: deliver(alloc, &link, pager)?,
            lane: deliver(alloc, &lane, pager)?,
            link_messages: link,
            packets,
            lane_messages: lane,
            pager,
        };
        Ok(Messages { delivered })
    }
}

/// Notes the messages in the records of the pager and of the source, each log up to its end or to the first number that no file has.
/// Keeps the messages alone.
///
/// # Errors
///
/// What is wrong with one of the two logs, or that memory was refused.
pub fn note_messages<F: LogFiles>(
    alloc: Global,
    machine: &WideMachine,
    files: &F,
) -> Result<Messages, WalkFault>
    requires { IsMachine (extent_of machine.now) }
    ensures noted { IfOk result (AreMessagesOf machine.now (F.bytes_of files.now)) }
    ensures refused { IfErr result (IsNoteFault machine.now (F.bytes_of files.now)) }
{
    let mut told = Told::new(alloc);
    let mut noter = Noter;
    take_log::<F, RawPager, Told, Noter>(
        alloc,
        machine,
        files,
        LogName::Pager,
        WalkFault::Changed,
        &mut noter,
        &mut told,
    )?;
    take_log::<F, RawSource, Told, Noter>(
        alloc,
        machine,
        files,
        LogName::Source,
        WalkFault::Changed,
        &mut noter,
        &mut told,
    )?;
    match told.deliver(alloc) {
        Ok(delivered) => Ok(Messages { delivered }),
        Err(_) => Err(WalkFault::Memory),
    }
}
