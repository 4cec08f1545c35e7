//! The file whose turn it is, if the records of a log are in several files. Most often it is the one whose record came last.

ghost use Rattle.std.specs.Prelude.{◌≡◌, ◌≤◌, ◌<◌, ℕ, List, length, IfOk, IsTrue, MatchOption, OnOk};
ghost use Rattle.std.specs.BinaryHeap.{heap_items};
ghost use Rattle.recorder_files.specs.Gathered.{Gives, Has, IsGathered, IsTurn, Numbered};
ghost use Rattle.recorder_files.specs.inner.Heads.{IsLeastOf, lower_of};
ghost use Rattle.recorder_files.specs.inner.Turns.{AreKept, AreTurns, IsInOrder, IsOfLast, IsPlaced, IsQueued, Waits, place_of};

use std::alloc::{AllocError, Global};
use std::cmp::Reverse;
use std::collections::BinaryHeap;

/// The file whose turn it is.
#[derive(Clone, Copy)]
pub enum Turn {
    /// This file alone.
    Of(usize),
    /// Two files have a record with the number that is wanted.
    Twice(usize, usize),
    /// No file has that number. This is the least number that a file has.
    Missing(u64),
    /// No file has more records.
    End,
}

/// Returns the first file, from one on, whose next record has this number.
fn holder(heads: &[Option<u64>], wanted: u64, first: usize) -> Option<usize>
    ensures { MatchOption result ((j : ℕ) → first ≤ j → Has heads.now j wanted → ⊥) (λ i. (first ≤ i) × (i < length heads.now) × Has heads.now i wanted × ((j : ℕ) → first ≤ j → j < i → Has heads.now j wanted → ⊥)) }
{
    for i in first..heads.len() {
        if heads[i] == Some(wanted) {
            return Some(i);
        }
    }
    None
}

/// Returns the lower of two numbers. Any of them may be missing.
fn lower(one: Option<u64>, other: Option<u64>) -> Option<u64>
    ensures { result ≡ lower_of one other }
{
    match one {
        Some(a) => match other {
            Some(b) => Some(a.min(b)),
            None => Some(a),
        },
        None => other,
    }
}

/// Returns the least number of a file's next record.
fn least(heads: &[Option<u64>]) -> Option<u64>
    ensures { IsLeastOf heads.now (length heads.now) result }
{
    let mut least: Option<u64> = None;
    for i in 0..heads.len() {
        let head = heads[i];
        least = lower(least, head);
    }
    least
}

/// Returns the file whose turn it is, given the number that is wanted and the numbers of the files' next records.
/// Allocates no memory.
pub fn next_turn(heads: &[Option<u64>], wanted: u64) -> Turn
    ensures { IsTurn heads.now wanted result }
{
    match holder(heads, wanted, 0) {
        Some(first) => match holder(heads, wanted, first + 1) {
            Some(second) => Turn::Twice(first, second),
            None => Turn::Of(first),
        },
        None => match least(heads) {
            Some(number) => Turn::Missing(number),
            None => Turn::End,
        },
    }
}

/// A law: if files take turns and give a log to the end of each file, no number is missing, and none occurs twice. They
/// give no other log. Runs nothing.
pub fn turns_gather<X>()
    ensures gathered { (files : List (Numbered X)) (log : List X) → Gives 0 files log → IsGathered files log }
    ensures one { (n : ℕ) (files : List (Numbered X)) (a b : List X) → Gives n files a → Gives n files b → a ≡ b }
{}

/// Files in a queue, each behind the number of its next record.
type Queue = BinaryHeap<Reverse<(u64, usize)>>;

/// Returns a number such that no file in the queue has a lower one.
fn least_queued(queue: &Queue) -> u64
    requires { IsInOrder (heap_items queue.now) }
    ensures { (n j : ℕ) → IsQueued (heap_items queue.now) n j → result ≤ n }
{
    match queue.peek() {
        Some(Reverse((number, _))) => *number,
        None => u64::MAX,
    }
}

/// The fewest places of a table.
const FEWEST: usize = 1_024;

/// What stands at a place where no file waits.
const FREE: usize = usize::MAX;

/// Files that wait for their turn. A file waits at the place of its next record's number in a table, or in a queue if another
/// waits there.
#[derive(Drop)]
struct Waiting {
    /// Which file waits at each place.
    table: Vec<usize>,
    /// Which bits of a number say its place.
    mask: u64,
    /// The other files.
    queue: Queue,
    /// No file in the queue has a lower number.
    queued: u64,
}

impl Waiting {
    /// None of so many files waits.
    fn new(alloc: Global, files: usize) -> Result<Self, AllocError>
        ensures { IfOk result AreKept }
    {
        let Some(count) = files
            .saturating_mul(4)
            .max(FEWEST)
            .checked_next_power_of_two()
        else {
            return Err(AllocError);
        };
        let table = vec![in alloc; FREE; count]?;
        Ok(Waiting {
            table,
            mask: (count as u64).saturating_sub(1),
            queue: BinaryHeap::new(alloc),
            queued: u64::MAX,
        })
    }

    /// Returns the place of a number.
    #[inline(always)]
    fn place_of(&self, number: u64) -> usize
        ensures { result ≡ place_of self.now number }
    {
        (number & self.mask) as usize
    }

    /// Returns the file that waits at the place of a number. It is no file if none does.
    #[inline(always)]
    fn at(&self, number: u64) -> usize
        ensures { (j : ℕ) → IsPlaced self.now number j → j ≡ result }
    {
        let place = self.place_of(number);
        if place < self.table.len() {
            self.table[place]
        } else {
            FREE
        }
    }

    /// Returns whether no file that waits has this number. Where this is false, one may have it.
    #[inline(always)]
    fn none_has(&self, heads: &[Option<u64>], number: u64) -> bool
        requires { AreKept self.now }
        ensures { IsTrue result → (j : ℕ) → Has heads.now j number → Waits self.now number j → ⊥ }
    {
        if self.queued <= number {
            return false;
        }
        let file = self.at(number);
        file >= heads.len() || heads[file] != Some(number)
    }

    /// Lets a file wait, if it has a next record.
    #[inline(always)]
    fn add(&mut self, heads: &[Option<u64>], file: usize) -> Result<(), AllocError>
        requires { AreKept self.old }
        ensures kept { AreKept self.new }
        ensures others { (n j : ℕ) → j < length heads.now → Waits self.old n j → Waits self.new n j }
        ensures waits { OnOk result ((n : ℕ) → Has heads.now file n → Waits self.new n file) }
    {
        if file < heads.len() {
            if let Some(number) = heads[file] {
                let place = self.place_of(number);
                if place < self.table.len() && heads.len() <= self.table[place] {
                    self.table[place] = file;
                } else {
                    self.queue.push(Reverse((number, file)))?;
                    self.queued = least_queued(&self.queue);
                }
            }
        }
        Ok(())
    }

    /// Takes a file out: the one that has this number, if only one has. Returns a number of no file if none was taken.
    #[inline(always)]
    fn remove(&mut self, number: u64) -> usize
        requires { AreKept self.old }
        ensures kept { AreKept self.new }
        ensures others { (n j : ℕ) → (j ≡ result → ⊥) → Waits self.old n j → Waits self.new n j }
    {
        if self.queued <= number {
            let first = self.queue.pop();
            self.queued = least_queued(&self.queue);
            return match first {
                Some(Reverse((_, file))) => file,
                None => FREE,
            };
        }
        let place = self.place_of(number);
        if place >= self.table.len() {
            return FREE;
        }
        let file = self.table[place];
        self.table[place] = FREE;
        file
    }
}

/// Whose turn it may be: the file whose record came last, and those that wait.
#[derive(Drop)]
pub(crate) struct Turns {
    /// The file whose record came last, or that is to be asked first.
    last: usize,
    /// The other files.
    waiting: Waiting,
}

impl Turns {
    /// Of files whose next records have these numbers.
    pub(crate) fn new(alloc: Global, heads: &[Option<u64>]) -> Result<Self, AllocError>
        ensures { IfOk result (AreTurns heads.now) }
    {
        let mut waiting = Waiting::new(alloc, heads.len())?;
        for file in 1..heads.len() {
            waiting.add(heads, file)?;
        }
        Ok(Turns { last: 0, waiting })
    }

    /// Returns whether it is the turn of the file whose record came last.
    #[inline(always)]
    fn is_of_last(&self, heads: &[Option<u64>], wanted: u64) -> bool
        requires { AreTurns heads.now self.now }
        ensures { IsTrue result → IsTurn heads.now wanted (Turn.Of self.now.last) }
    {
        self.waiting.none_has(heads, wanted)
            && self.last < heads.len()
            && heads[self.last] == Some(wanted)
    }

    /// Lets the file whose record came last wait, and takes in its place the one that has the number that is wanted.
    #[inline(always)]
    fn pass(&mut self, heads: &[Option<u64>], wanted: u64) -> Result<(), AllocError>
        requires { AreTurns heads.now self.old }
        ensures { AreTurns heads.now self.new }
    {
        self.waiting.add(heads, self.last)?;
        self.last = self.waiting.remove(wanted);
        Ok(())
    }

    /// Returns the same as `take`, where it is not known to be the turn of the file whose record came last.
    fn take_other(&mut self, heads: &[Option<u64>], wanted: u64) -> Result<Turn, AllocError>
        requires { AreTurns heads.now self.old }
        ensures turn { IfOk result (λ turn. IsTurn heads.now wanted turn × IsOfLast self.new.last turn) }
        ensures kept { AreTurns heads.now self.new }
    {
        self.pass(heads, wanted)?;
        if self.is_of_last(heads, wanted) {
            return Ok(Turn::Of(self.last));
        }
        match next_turn(heads, wanted) {
            // (no file is left here, since the one that has the number was taken)
            Turn::Of(_) => Err(AllocError),
            turn => Ok(turn),
        }
    }

    /// Returns the file whose turn it is, as `next_turn` does, and takes it for the one whose record came last.
    #[inline(always)]
    pub(crate) fn take(&mut self, heads: &[Option<u64>], wanted: u64) -> Result<Turn, AllocError>
        requires { AreTurns heads.now self.old }
        ensures turn { IfOk result (λ turn. IsTurn heads.now wanted turn × IsOfLast self.new.last turn) }
        ensures kept { AreTurns heads.now self.new }
    {
        if self.is_of_last(heads, wanted) {
            return Ok(Turn::Of(self.last));
        }
        self.take_other(heads, wanted)
    }
}
