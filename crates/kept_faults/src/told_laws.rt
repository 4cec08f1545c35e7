//! A law of sessions whose deliveries are made of what their receivers wrote.

ghost use Rattle.std.specs.Prelude.{List};
ghost use Rattle.migration_types.specs.Receipts.{Name};
ghost use Rattle.migration_types.specs.Sessions.{Recorded, log_length};
ghost use Rattle.audit_model.specs.Mergings.{Cursors};
ghost use Rattle.recordings.specs.declared.machine.WideMachine.{WideMachine};
ghost use Rattle.recordings.specs.declared.wide.WideInit.{WideInit};
ghost use Rattle.recorder_files.specs.Fronts.{IsFront, cut_to};
ghost use Rattle.walked_sessions.specs.Walks.{Bytes, IsRecordingOf};
ghost use Rattle.kept_faults.specs.FrontLaws.{IsPart};
ghost use Rattle.kept_faults.specs.ToldOrders.{told, IsToldOrder};

/// The deliveries of the link and of the lane cost no order. Recorders' files tell the records of a guest, a source and a pager. A
/// record that takes a message may name the record that sent it, and the session's delivery is made of that. For each order of the
/// records in the files, in which each comes after the one that it names, the session has a merging with just that order, once the
/// deliveries that were made are left out. The same holds of the session's logs that are cut to a front, for each order of the records
/// in the front. If the link or the lane wrote a log, its records are in the order too. No such order exists if a record names one
/// that no file tells: one that was lost, or, by its number, a delivery that is made.
pub fn deliveries_keep_orders()
    ensures whole { (machine : WideMachine) (initial : List WideInit) (bytes : Bytes) (s : Recorded) (made : IsRecordingOf machine initial bytes s) (order : List Name) → IsToldOrder made (log_length s) order → IsPart s (told made) order }
    ensures cut { (machine : WideMachine) (initial : List WideInit) (bytes : Bytes) (s : Recorded) (made : IsRecordingOf machine initial bytes s) (c : Cursors) (order : List Name) → IsFront s c → IsToldOrder made c order → IsPart (cut_to c s) (told made) order }
{}
