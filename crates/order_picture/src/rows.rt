//! The rows of a picture, while they are built.

ghost use Rattle.std.specs.Prelude.{◌≡◌, ◌+◌, ◌*◌, ◌≤◌, ◌<◌, ◌^◌, [], ◌∷◌, ◌++◌, List, IfOk, OnOk, length, nat_lt, position, true, if◌then◌else◌};
ghost use Rattle.std.specs.List.{list_any};
ghost use Rattle.migration_types.specs.Receipts.{Name as Named};
ghost use Rattle.order_picture.specs.declared.focus.Mark.{Mark as Marked};
ghost use Rattle.order_picture.specs.Marks.{is_one, mark_of};
ghost use Rattle.audit_model.specs.Mergings.{at_start};
ghost use Rattle.merge_runs.specs.Taken.{cursors_of};
ghost use Rattle.order_picture.specs.Rows.{Covers, HasCertain, has_row, is_at, is_certain, is_faulty, is_next_to, shows_fault};
ghost use Rattle.order_picture.specs.inner.Built.{Extends, HasCertainBelow, IsBuilt, certain_left, closed_rows};

use crate::focus::{Focus, Mark, mark_of};
use crate::picture::PictureRow;
use crate::records::is_one;
use merge_runs::TakenCounts;
use migration_types::{LogName, Session};
use session_story::Name;
use std::alloc::{AllocError, Global};

/// The greatest number of rows besides those of the faulty record, of its neighbours, of the cause and of the record that
/// it is set against, the folds before each of these, and the fold at the end.
const MOST_OTHERS: usize = 194;

/// The rows so far.
#[derive(Drop)]
pub(crate) struct Building {
    pub rows: Vec<PictureRow>,
    /// How many records of each log came after the last row.
    pub since: TakenCounts,
    /// How many these are in all.
    pub folded: usize,
    /// How many more rows there may be for records other than the faulty one.
    pub room: usize,
    /// 1 until the faulty record has come.
    pub fault_left: usize,
}

/// Returns whether this is the mark of the faulty record.
fn is_faulty(mark: Mark) -> bool
    ensures { result ≡ is_faulty mark }
{
    matches!(mark, Mark::Faulty | Mark::OwnCause)
}

impl Building {
    /// Returns a state without rows.
    fn new(alloc: Global) -> Self
        ensures start { (mark : Named → Marked) → IsBuilt mark result [] }
        ensures few { length result.rows.items + result.room + 2 * result.fault_left ≡ 196 }
    {
        Building {
            rows: Vec::new(alloc),
            since: TakenCounts::nothing(),
            folded: 0,
            room: MOST_OTHERS,
            fault_left: 1,
        }
    }

    /// Folds the records that came after the last row into a row of their own, if there are any.
    fn close(&mut self) -> Result<(), AllocError>
        ensures rows { OnOk result (self.new.rows.items ≡ closed_rows self.old) }
        ensures since { OnOk result (cursors_of self.new.since ≡ at_start) }
        ensures folded { OnOk result (self.new.folded ≡ 0) }
        ensures room { OnOk result (self.new.room ≡ self.old.room) }
        ensures fault_left { OnOk result (self.new.fault_left ≡ self.old.fault_left) }
    {
        if self.folded > 0 {
            self.rows.push(PictureRow::Fold(self.since))?;
        }
        self.since = TakenCounts::nothing();
        self.folded = 0;
        Ok(())
    }

    /// Gives a record a row.
    #[tactic(auto, using(crate::proofs::Certain::closed_extends))]
    fn keep(&mut self, name: Name, mark: Mark) -> Result<(), AllocError>
        ensures more { OnOk result (Extends self.old.rows.items self.new.rows.items) }
        ensures own { OnOk result (has_row self.new.rows.items name ≡ true) }
        ensures rows { OnOk result (self.new.rows.items ≡ closed_rows self.old ++ PictureRow.Record name.0 name.1 mark ∷ []) }
        ensures since { OnOk result (cursors_of self.new.since ≡ at_start) }
        ensures folded { OnOk result (self.new.folded ≡ 0) }
        ensures room { OnOk result (self.new.room ≡ self.old.room) }
        ensures fault_left { OnOk result (self.new.fault_left ≡ self.old.fault_left) }
    {
        self.close()?;
        self.rows.push(PictureRow::Record {
            log: name.0,
            place: name.1,
            mark,
        })?;
        Ok(())
    }

    /// Gives a record a row that counts as one of the others.
    fn keep_other(&mut self, name: Name, mark: Mark) -> Result<(), AllocError>
        requires { (if nat_lt 0 self.old.folded then 2 else 1) ≤ self.old.room }
        ensures built { (look : Named → Marked) (names : List Named) → mark ≡ look name → IsBuilt look self.old names → OnOk result (IsBuilt look self.new (names ++ name ∷ [])) }
        ensures few { OnOk result (length self.new.rows.items + self.new.room + 2 * self.new.fault_left ≤ length self.old.rows.items + self.old.room + 2 * self.old.fault_left) }
        ensures more { OnOk result (Extends self.old.rows.items self.new.rows.items) }
        ensures own { OnOk result (has_row self.new.rows.items name ≡ true) }
    {
        let before = self.rows.len();
        self.keep(name, mark)?;
        self.room -= self.rows.len() - before;
        Ok(())
    }

    /// Gives the faulty record its row.
    fn keep_fault(&mut self, name: Name, mark: Mark) -> Result<(), AllocError>
        requires left { 1 ≤ self.old.fault_left }
        requires faulty { is_faulty mark ≡ true }
        ensures built { (look : Named → Marked) (names : List Named) → mark ≡ look name → IsBuilt look self.old names → OnOk result (IsBuilt look self.new (names ++ name ∷ [])) }
        ensures few { OnOk result (length self.new.rows.items + self.new.room + 2 * self.new.fault_left ≤ length self.old.rows.items + self.old.room + 2 * self.old.fault_left) }
        ensures more { OnOk result (Extends self.old.rows.items self.new.rows.items) }
        ensures own { OnOk result (has_row self.new.rows.items name ≡ true) }
    {
        self.keep(name, mark)?;
        self.fault_left = 0;
        Ok(())
    }

    /// Counts a record that has no row.
    fn fold(&mut self, name: Name)
        requires few { self.old.folded + 1 < 2 ^ 64 }
        requires since { cursors_of self.old.since name.0 ≤ self.old.folded }
        ensures built { (look : Named → Marked) (names : List Named) → (is_faulty (look name) ≡ true → self.old.fault_left ≡ 0) → IsBuilt look self.old names → IsBuilt look self.new (names ++ name ∷ []) }
        ensures few { length self.new.rows.items + self.new.room + 2 * self.new.fault_left ≡ length self.old.rows.items + self.old.room + 2 * self.old.fault_left }
        ensures more { self.new.rows.items ≡ self.old.rows.items }
    {
        self.since = self.since.moved(name.0, 1);
        self.folded += 1;
    }

    /// Takes the next record, which is not the faulty one, or is the faulty one again. It gets a row if it is wanted
    /// and there is room for it.
    fn take_other(&mut self, name: Name, mark: Mark, wanted: bool) -> Result<(), AllocError>
        requires few { self.old.folded + 1 < 2 ^ 64 }
        requires since { cursors_of self.old.since name.0 ≤ self.old.folded }
        requires other { is_faulty mark ≡ true → self.old.fault_left ≡ 0 }
        ensures built { (look : Named → Marked) (names : List Named) → mark ≡ look name → IsBuilt look self.old names → OnOk result (IsBuilt look self.new (names ++ name ∷ [])) }
        ensures few { OnOk result (length self.new.rows.items + self.new.room + 2 * self.new.fault_left ≤ length self.old.rows.items + self.old.room + 2 * self.old.fault_left) }
        ensures more { OnOk result (Extends self.old.rows.items self.new.rows.items) }
    {
        let cost = if self.folded > 0 { 2 } else { 1 };
        if !wanted || self.room < cost {
            self.fold(name);
            return Ok(());
        }
        self.keep_other(name, mark)
    }

    /// Takes the next record, whose row is not certain. It gets a row if it is wanted and there is room for it, or if
    /// it is the faulty one.
    fn take_uncertain(&mut self, name: Name, mark: Mark, wanted: bool) -> Result<(), AllocError>
        requires few { self.old.folded + 1 < 2 ^ 64 }
        requires since { cursors_of self.old.since name.0 ≤ self.old.folded }
        ensures built { (look : Named → Marked) (names : List Named) → mark ≡ look name → IsBuilt look self.old names → OnOk result (IsBuilt look self.new (names ++ name ∷ [])) }
        ensures few { OnOk result (length self.new.rows.items + self.new.room + 2 * self.new.fault_left ≤ length self.old.rows.items + self.old.room + 2 * self.old.fault_left) }
        ensures more { OnOk result (Extends self.old.rows.items self.new.rows.items) }
    {
        if self.fault_left == 0 {
            return self.take_other(name, mark, wanted);
        }
        if is_faulty(mark) {
            return self.keep_fault(name, mark);
        }
        self.take_other(name, mark, wanted)
    }

    /// Gives a record a row that is certain.
    fn keep_certain(&mut self, name: Name, mark: Mark) -> Result<(), AllocError>
        ensures built { (look : Named → Marked) (names : List Named) → mark ≡ look name → IsBuilt look self.old names → OnOk result (IsBuilt look self.new (names ++ name ∷ [])) }
        ensures few { OnOk result (length self.new.rows.items + self.new.room + 2 * self.new.fault_left ≤ length self.old.rows.items + self.old.room + 2 * self.old.fault_left + 2) }
        ensures more { OnOk result (Extends self.old.rows.items self.new.rows.items) }
        ensures own { OnOk result (has_row self.new.rows.items name ≡ true) }
    {
        self.keep(name, mark)?;
        Ok(())
    }
}

/// Returns whether a place is right before or right after another, if there is another.
fn is_next_to(at: Option<usize>, n: usize) -> bool
    ensures { result ≡ is_next_to at n }
{
    match at {
        Some(at) => at.checked_sub(1) == Some(n) || n.checked_sub(1) == Some(at),
        None => false,
    }
}

/// Returns whether a place is the other one, if there is another.
fn is_at(at: Option<usize>, n: usize) -> bool
    ensures { result ≡ is_at at n }
{
    match at {
        Some(at) => at == n,
        None => false,
    }
}

/// The places in an order of the faulty record, of the cause and of the record that it is set against, if the order has
/// them.
#[derive(Clone, Copy)]
pub(crate) struct Certain {
    pub fault: Option<usize>,
    pub cause: Option<usize>,
    pub against: Option<usize>,
}

impl Certain {
    /// Returns the places in an order of what a picture is about.
    pub(crate) fn of(focus: &Focus, order: &[Name]) -> Self
        ensures fault { result.fault ≡ position (is_one focus.now.fault) order.now }
        ensures cause { result.cause ≡ position (is_one focus.now.cause) order.now }
        ensures against { result.against ≡ position (is_one focus.now.against) order.now }
    {
        Certain {
            fault: place_of(order, focus.fault),
            cause: place_of(order, focus.cause),
            against: place_of(order, focus.against),
        }
    }
}

/// Returns whether the record at a place of an order always has a row.
pub(crate) fn is_certain(certain: Certain, n: usize) -> bool
    ensures { result ≡ is_certain certain.fault certain.cause certain.against n }
{
    is_next_to(certain.fault, n) || is_at(certain.cause, n) || is_at(certain.against, n)
}

/// Returns the place of a record in an order, if there is that record and the order has it.
fn place_of(order: &[Name], one: Option<Name>) -> Option<usize>
    ensures { result ≡ position (is_one one) order.now }
{
    order.iter().position(|name| is_one(one, *name))
}

/// Takes the next record of an order. Only a record that may get a row is looked at.
fn take_next(
    session: &Session,
    focus: &Focus,
    name: Name,
    wanted: bool,
    certain: bool,
    building: &mut Building,
) -> Result<(), AllocError>
    requires few { building.old.folded + 1 < 2 ^ 64 }
    requires since { cursors_of building.old.since name.0 ≤ building.old.folded }
    ensures built { (names : List Named) → IsBuilt (mark_of session.now focus.now) building.old names → OnOk result (IsBuilt (mark_of session.now focus.now) building.new (names ++ name ∷ [])) }
    ensures few { OnOk result (length building.new.rows.items + building.new.room + 2 * building.new.fault_left ≤ length building.old.rows.items + building.old.room + 2 * building.old.fault_left + (if certain then 2 else 0)) }
    ensures more { OnOk result (Extends building.old.rows.items building.new.rows.items) }
    ensures own { certain ≡ true → OnOk result (has_row building.new.rows.items name ≡ true) }
{
    if !wanted && !certain && !is_one(focus.fault, name) {
        building.fold(name);
        return Ok(());
    }
    let mark = mark_of(session, focus, name);
    if certain {
        building.keep_certain(name, mark)
    } else {
        building.take_uncertain(name, mark, wanted)
    }
}

/// Takes the records of an order, given which places are wanted.
fn take_all(
    session: &Session,
    focus: &Focus,
    order: &[Name],
    wanted: &[bool],
    certain: Certain,
    building: &mut Building,
) -> Result<(), AllocError>
    requires start { IsBuilt (mark_of session.now focus.now) building.old [] }
    ensures built { OnOk result (IsBuilt (mark_of session.now focus.now) building.new order.now) }
    ensures few { OnOk result (length building.new.rows.items + building.new.room + 2 * building.new.fault_left ≤ length building.old.rows.items + building.old.room + 2 * building.old.fault_left + 8) }
    ensures certain { OnOk result (HasCertain certain.fault certain.cause certain.against building.new.rows.items order.now) }
{
    for n in 0..order.len() {
        let is_wanted = wanted.get(n).copied().unwrap_or(false);
        let is_certain = is_certain(certain, n);
        take_next(session, focus, order[n], is_wanted, is_certain, building)?;
    }
    Ok(())
}

/// Returns the rows of the records of an order, given which places are wanted and which are certain.
pub(crate) fn rows_of(
    alloc: Global,
    session: &Session,
    focus: &Focus,
    order: &[Name],
    wanted: &[bool],
    certain: Certain,
) -> Result<Vec<PictureRow>, AllocError>
    ensures covers { IfOk result (λ rows. Covers (mark_of session.now focus.now) rows.items order.now) }
    ensures few { IfOk result (λ rows. length rows.items ≤ 205) }
    ensures shown { IfOk result (λ rows. shows_fault rows.items ≡ list_any (is_one focus.now.fault) order.now) }
    ensures certain { IfOk result (λ rows. HasCertain certain.fault certain.cause certain.against rows.items order.now) }
{
    let mut building = Building::new(alloc);
    take_all(session, focus, order, wanted, certain, &mut building)?;
    building.close()?;
    Ok(building.rows)
}
