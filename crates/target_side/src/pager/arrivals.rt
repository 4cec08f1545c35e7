//! How the pager takes packets that have arrived.

ghost use Rattle.std.specs.Prelude.{◌≡◌, ◌<◌, ◌≤◌, [], length, is_some, true, false, OnOk, OnErr, IsErrOf};
ghost use Rattle.std.specs.List.{AllByRecursion};
ghost use Rattle.migration_types.specs.Limits.{most_records};
ghost use Rattle.audit_model.specs.Shape.{is_taking};
ghost use Rattle.target_side.specs.PagerPart.{pager_pop, pager_pull, pops_first, takes};
ghost use Rattle.target_side.specs.PagerLists.{part_of, IsPacketOf};

use super::PagerBook;
use crate::log::append;
use crate::marks::mark_all;
use crate::{Incoming, TargetFault};
use migration_events::{look_for_room, make_room};
use migration_types::{Contents, PageNo, PagerRec, Shared};
use page_stream::Packet;

impl PagerBook {
    /// Takes what the link's record of this number delivered down. The first state makes the pager ready. A page waits
    /// to be placed. Another state is recorded and dropped. What comes before the state, and what the source does not
    /// send, is dropped without a record. On an error, nothing changes.
    pub fn pop(&mut self, link_number: u32, packet: &Packet) -> Result<(), TargetFault>
        requires { IsPacketOf self.old.geometry packet.now }
        ensures ok { OnOk result (part_of self.new ≡ pager_pop link_number packet.now (part_of self.old)) }
        ensures full { IsErrOf result TargetFault.LogFull → most_records < length (pager_pop link_number packet.now (part_of self.old)).log }
        ensures memory { IsErrOf result TargetFault.Memory → length (pager_pop link_number packet.now (part_of self.old)).log ≤ most_records }
        ensures err { OnErr result (self.new ≡ self.old) }
    {
        if self.released.is_some() {
            return self.take(PagerRec::Got { down: link_number }, packet);
        }
        match packet {
            Packet::State { released, .. } => self.begin(link_number, released),
            Packet::Page { .. } | Packet::Want { .. } | Packet::All { .. } => Ok(()),
        }
    }

    /// Takes what the lane's record of this number delivered. A page waits to be placed. A state is recorded and
    /// dropped. What comes before the state, and what the source does not send, is dropped without a record. On an
    /// error, nothing changes.
    pub fn pull(&mut self, lane_number: u32, packet: &Packet) -> Result<(), TargetFault>
        requires { IsPacketOf self.old.geometry packet.now }
        ensures ok { OnOk result (part_of self.new ≡ pager_pull lane_number packet.now (part_of self.old)) }
        ensures full { IsErrOf result TargetFault.LogFull → most_records < length (pager_pull lane_number packet.now (part_of self.old)).log }
        ensures memory { IsErrOf result TargetFault.Memory → length (pager_pull lane_number packet.now (part_of self.old)).log ≤ most_records }
        ensures err { OnErr result (self.new ≡ self.old) }
    {
        if self.released.is_none() {
            return Ok(());
        }
        self.take(PagerRec::Pull { down: lane_number }, packet)
    }

    /// Returns whether the log has room for what taking a packet from the link appends. Allocates no memory.
    pub fn look_to_pop(&self, link_number: u32, packet: &Packet) -> Result<(), TargetFault>
        ensures room { OnOk result (length (pager_pop link_number packet.now (part_of self.now)).log ≤ most_records) }
        ensures full { OnErr result (most_records < length (pager_pop link_number packet.now (part_of self.now)).log) }
        ensures memory { IsErrOf result TargetFault.Memory → ⊥ }
    {
        self.keeps_limits();
        let _link_number = link_number;
        let more = match packet {
            Packet::State { .. } => 2,
            Packet::Page { .. } if self.released.is_some() => 1,
            _ => 0,
        };
        look_for_room(&self.log, more)
    }

    /// Returns whether the log has room for what taking a packet from the lane appends. Allocates no memory.
    pub fn look_to_pull(&self, lane_number: u32, packet: &Packet) -> Result<(), TargetFault>
        ensures room { OnOk result (length (pager_pull lane_number packet.now (part_of self.now)).log ≤ most_records) }
        ensures full { OnErr result (most_records < length (pager_pull lane_number packet.now (part_of self.now)).log) }
        ensures memory { IsErrOf result TargetFault.Memory → ⊥ }
    {
        self.keeps_limits();
        let _lane_number = lane_number;
        let more = match packet {
            Packet::State { .. } if self.released.is_some() => 2,
            Packet::Page { .. } if self.released.is_some() => 1,
            _ => 0,
        };
        look_for_room(&self.log, more)
    }

    /// Takes the state, which the link's record of this number delivered.
    fn begin(&mut self, link_number: u32, released: &Shared<PageNo>) -> Result<(), TargetFault>
        requires unready { is_some self.old.released ≡ false }
        requires pages { AllByRecursion (λ p. p < self.old.geometry.pages) released.now }
        ensures ok { OnOk result (part_of self.new ≡ pops_first link_number (Packet.State 0 released.now) (part_of self.old)) }
        ensures full { IsErrOf result TargetFault.LogFull → most_records < length (pops_first link_number (Packet.State 0 released.now) (part_of self.old)).log }
        ensures memory { IsErrOf result TargetFault.Memory → length (pops_first link_number (Packet.State 0 released.now) (part_of self.old)).log ≤ most_records }
        ensures err { OnErr result (self.new ≡ self.old) }
    {
        make_room(&mut self.log, 2)?;
        let Ok(pages) = released.another() else {
            return Err(TargetFault::Memory);
        };
        mark_all(&mut self.marks, released.as_slice());
        append(&mut self.log, PagerRec::Got { down: link_number });
        append(&mut self.log, PagerRec::Ready);
        self.released = Some(pages);
        Ok(())
    }

    /// Takes a packet after the state has come, and records it by this receipt.
    fn take(&mut self, receipt: PagerRec, packet: &Packet) -> Result<(), TargetFault>
        requires ready { is_some self.old.released ≡ true }
        requires taking { is_taking receipt ≡ true }
        requires packet { IsPacketOf self.old.geometry packet.now }
        ensures ok { OnOk result (part_of self.new ≡ takes receipt packet.now (part_of self.old)) }
        ensures full { IsErrOf result TargetFault.LogFull → most_records < length (takes receipt packet.now (part_of self.old)).log }
        ensures memory { IsErrOf result TargetFault.Memory → length (takes receipt packet.now (part_of self.old)).log ≤ most_records }
        ensures err { OnErr result (self.new ≡ self.old) }
    {
        match packet {
            Packet::State { .. } => self.drop_state(receipt),
            Packet::Page { page, cells, .. } => self.take_page(receipt, *page, cells),
            Packet::Want { .. } | Packet::All { .. } => Ok(()),
        }
    }

    /// Records another state, and drops it.
    fn drop_state(&mut self, receipt: PagerRec) -> Result<(), TargetFault>
        requires ready { is_some self.old.released ≡ true }
        requires taking { is_taking receipt ≡ true }
        ensures ok { OnOk result (part_of self.new ≡ takes receipt (Packet.State 0 []) (part_of self.old)) }
        ensures full { IsErrOf result TargetFault.LogFull → most_records < length (takes receipt (Packet.State 0 []) (part_of self.old)).log }
        ensures memory { IsErrOf result TargetFault.Memory → length (takes receipt (Packet.State 0 []) (part_of self.old)).log ≤ most_records }
        ensures err { OnErr result (self.new ≡ self.old) }
    {
        make_room(&mut self.log, 2)?;
        let got = append(&mut self.log, receipt);
        append(&mut self.log, PagerRec::Skip { got });
        Ok(())
    }

    /// Records a page, which then waits to be placed.
    fn take_page(
        &mut self,
        receipt: PagerRec,
        page: PageNo,
        contents: &Contents,
    ) -> Result<(), TargetFault>
        requires ready { is_some self.old.released ≡ true }
        requires taking { is_taking receipt ≡ true }
        requires page { page < self.old.geometry.pages }
        requires cells { length contents.now ≡ self.old.geometry.cells }
        ensures ok { OnOk result (part_of self.new ≡ takes receipt (Packet.Page 0 page contents.now) (part_of self.old)) }
        ensures full { IsErrOf result TargetFault.LogFull → most_records < length (takes receipt (Packet.Page 0 page contents.now) (part_of self.old)).log }
        ensures memory { IsErrOf result TargetFault.Memory → length (takes receipt (Packet.Page 0 page contents.now) (part_of self.old)).log ≤ most_records }
        ensures err { OnErr result (self.new ≡ self.old) }
    {
        make_room(&mut self.log, 1)?;
        if self.inbox.reserve(1).is_err() {
            return Err(TargetFault::Memory);
        }
        let Ok(contents) = contents.another(self.alloc) else {
            return Err(TargetFault::Memory);
        };
        let got = append(&mut self.log, receipt);
        self.inbox.push_back_reserved(Incoming {
            got,
            page,
            contents,
        });
        Ok(())
    }
}
