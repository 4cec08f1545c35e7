//! Laws of recorders' files, of the logs that they tell, and of deliveries.

ghost use Rattle.std.specs.Prelude.{◌≡◌, ℕ, List, Option, ◌++◌, IsSome, AllPairs, filter};
ghost use Rattle.migration_types.specs.declared.records.LogName.{LogName};
ghost use Rattle.migration_types.specs.Sessions.{Recorded, log_length};
ghost use Rattle.audit_model.specs.Mergings.{Cursors};
ghost use Rattle.recorder_files.specs.declared.lines.Party.{Party};
ghost use Rattle.recorder_files.specs.Fronts.{IsFront, IsGreatestFront, HasGreatestFront, IsWhole, cut_to};
ghost use Rattle.recorder_files.specs.Said.{FileSays, Said};
ghost use Rattle.std.specs.List.{AllByRecursion};
ghost use Rattle.recorder_files.specs.Logs.{Came, Gathering};
ghost use Rattle.recorder_files.specs.Records.{EndsAt};
ghost use Rattle.std.specs.List.Sorted.{IsPermutation};
ghost use Rattle.recorder_files.specs.declared.delivering.Message.{Message};
ghost use Rattle.recorder_files.specs.Deliveries.{NoLater, delivered, is_of_first};
ghost use Rattle.recorder_files.specs.Orders.{Happening, IsOrder, IsWithDeliveries, Rec};

/// A law: the logs of a session have one greatest front. Logs that are cut to a front are whole: each of their records
/// names only records that exist. Nothing is cut from logs that are whole. Runs nothing.
pub fn fronts_have_a_greatest()
    ensures greatest { (s : Recorded) → HasGreatestFront s }
    ensures unique { (s : Recorded) (c d : Cursors) → IsGreatestFront s c → IsGreatestFront s d → (log : LogName) → c log ≡ d log }
    ensures cut { (s : Recorded) (c : Cursors) → IsFront s c → IsWhole (cut_to c s) }
    ensures whole { (s : Recorded) (c : Cursors) → IsWhole s → IsGreatestFront s c → cut_to c s ≡ s }
{}

/// A law: the bytes of a party's file say at most one thing. Runs nothing.
pub fn files_say_one_thing()
    ensures { (party : Party) (bytes : List ℕ) (x y : Option Said) → FileSays party bytes x → FileSays party bytes y → x ≡ y }
{}

/// A law: where the bytes of its files are known, a log is told in one way, up to its end or to the first number that no file has.
/// What came of the files by then is a front of it. Runs nothing.
pub fn files_tell_one_log()
    ensures front { (party : Party) (knowns : List (Option (List ℕ))) (g h : Gathering) (log whole : List (List ℕ)) (hole : Option ℕ) → AllByRecursion IsSome knowns → Came party knowns g log → EndsAt party knowns h whole hole → (more : List (List ℕ)) × (whole ≡ log ++ more) }
    ensures one { (party : Party) (knowns : List (Option (List ℕ))) (g h : Gathering) (log other : List (List ℕ)) (hole end : Option ℕ) → AllByRecursion IsSome knowns → EndsAt party knowns g log hole → EndsAt party knowns h other end → log ≡ other }
{}

/// A law: each message whose record is among the pager's first records is delivered once, and nothing else is. The
/// order is right in time: a packet comes before what is sent after it was taken, and before later packets; and what is
/// sent comes before packets that are taken later. Runs nothing.
pub fn messages_are_delivered_once_in_time()
    ensures once { (messages : List Message) (count : ℕ) → IsPermutation (filter (is_of_first count) messages) (delivered messages count) }
    ensures in_time { (messages : List Message) (count : ℕ) → AllPairs NoLater (delivered messages count) }
{}

/// A law: the deliveries cost no order. In any order of the records of a guest, a source and a pager in which each message is sent
/// before it is taken, the deliveries have a place: these messages, in the order of the link's log, each after the record that sends
/// it and before the one that takes it. The order of the records stays as it is. Runs nothing.
pub fn deliveries_cost_no_order()
    ensures { (messages : List Message) (count : ℕ) (order : List Rec) → IsOrder messages count order → (all : List Happening) × IsWithDeliveries messages count order all }
{}
