//! Laws: the receipt and the limits of each kind of record follow from what it consists of.

ghost use Rattle.std.specs.Prelude.{◌≡◌, ◌↔◌, None};
ghost use Rattle.migration_types.specs.Extents.{Extent};
ghost use Rattle.migration_types.specs.Receipts.{Name, guest_receipt, source_receipt, link_receipt, lane_receipt, pager_receipt};
ghost use Rattle.migration_types.specs.Names.{receipt};
ghost use Rattle.migration_types.specs.Sessions.{Recorded, GuestRecFits, SourceRecFits, LinkRecFits, LaneRecFits, PagerRecFits, HasSourceRec};
ghost use Rattle.migration_types.specs.declared.version.Version.{Version as Of};
ghost use Rattle.migration_types.specs.declared.records.LogName.TheVariants as log;
ghost use Rattle.migration_types.specs.declared.records.GuestRec.{GuestRec};
ghost use Rattle.migration_types.specs.declared.records.SourceRec.{SourceRec};
ghost use Rattle.migration_types.specs.declared.records.LinkRec.{LinkRec};
ghost use Rattle.migration_types.specs.declared.records.LaneRec.{LaneRec};
ghost use Rattle.migration_types.specs.declared.records.PagerRec.{PagerRec};
ghost use Rattle.migration_types.specs.Rows.{row_of, guest_row, source_row, link_row, lane_row, pager_row, source_contents, pager_contents};
ghost use Rattle.migration_types.specs.Follow.{receipt_among, receipt_by, RowFits};

/// A record is a receipt for the first record of another log that it has as a field.
pub fn receipts_follow()
    ensures guest { (r : GuestRec) → guest_receipt r ≡ receipt_among log.Guest (guest_row r).fields }
    ensures source { (r : SourceRec) → source_receipt r ≡ receipt_among log.Source (source_row r).fields }
    ensures link { (r : LinkRec) → link_receipt r ≡ receipt_among log.Link (link_row r).fields }
    ensures lane { (r : LaneRec) → lane_receipt r ≡ receipt_among log.Lane (lane_row r).fields }
    ensures pager { (r : PagerRec) → pager_receipt r ≡ receipt_among log.Pager (pager_row r).fields }
    ensures named { (s : Recorded) (name : Name) → receipt s name ≡ receipt_by name.0 (row_of s name) }
{}

/// A record is within the limits exactly when its fields and its contents are, and sessions of the size have it. Every
/// size has all records, except some of the source's.
pub fn limits_follow()
    ensures guest { (v : Of) (e : Extent) (r : GuestRec) → GuestRecFits e r ↔ RowFits v e log.Guest (guest_row r) None }
    ensures source { (v : Of) (e : Extent) (r : SourceRec) → SourceRecFits e r ↔ (RowFits v e log.Source (source_row r) (source_contents r) × HasSourceRec e.size r) }
    ensures link { (v : Of) (e : Extent) (r : LinkRec) → LinkRecFits e r ↔ RowFits v e log.Link (link_row r) None }
    ensures lane { (v : Of) (e : Extent) (r : LaneRec) → LaneRecFits v e r ↔ RowFits v e log.Lane (lane_row r) None }
    ensures pager { (v : Of) (e : Extent) (r : PagerRec) → PagerRecFits v e r ↔ RowFits v e log.Pager (pager_row r) (pager_contents r) }
{}
