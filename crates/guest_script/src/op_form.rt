//! Lines of operations.

ghost use Rattle.std.specs.Prelude.{◌≡◌, ◌≢◌, ◌≤◌, ◌<◌, ◌^◌, ℕ, IfOk, IfErr, OnOk, OnErr, MatchOption};
ghost use Rattle.std.specs.Fmt.{decimal};
ghost use Rattle.migration_types.specs.Extents.{IsExtent};
ghost use Rattle.migration_events.specs.declared.ops.Op.{Op as Done};
ghost use Rattle.guest_script.specs.Scripts.{counts_line, op_line, place_text, value_text};
ghost use Rattle.guest_script.specs.Moments.{OpFitsAt};
ghost use Rattle.guest_script.specs.inner.Ops.{TakesOp};
ghost use Rattle.guest_script.specs.inner.ScriptHeld.{small_machine};

use crate::keys::{READ_KEY, RELEASE_KEY, VCPU_KEY, WRITE_KEY};
use crate::{MOST_OPS, When, may_release};
use migration_events::Op;
use migration_types::PageNo;
use session_grammar::Sizes;
use text_lines::{FaultKind, Wanted, after_key, number_then, read_decimal};

/// Returns a number of at most `limit` that a text spells.
fn read_limited(text: &[u8], limit: u64) -> Option<u64>
    ensures { MatchOption result ((n : ℕ) → n ≤ limit → text.now ≢ decimal n) (λ n. (n ≤ limit) × (text.now ≡ decimal n)) }
{
    let number = read_decimal(text)?;
    if number > limit {
        return None;
    }
    Some(number)
}

/// Returns the page and the cell of a machine that a text spells.
fn read_place(text: &[u8], sizes: Sizes) -> Option<(PageNo, u16)>
    requires { IsExtent (small_machine sizes.pages sizes.cells) }
    ensures { MatchOption result ((p c : ℕ) → p < sizes.pages → c < sizes.cells → text.now ≢ place_text p c) (λ a. (a.0 < sizes.pages) × (a.1 < sizes.cells) × (text.now ≡ place_text a.0 a.1)) }
{
    let (page, rest) = number_then(text, u64::from(sizes.pages) - 1)?;
    let cell = read_limited(rest, u64::from(sizes.cells) - 1)?;
    Some((PageNo::new(page as u32), cell as u16))
}

/// Returns the page and the cell of a machine, and the value, that a text spells.
fn read_value(text: &[u8], sizes: Sizes) -> Option<(PageNo, u16, u64)>
    requires { IsExtent (small_machine sizes.pages sizes.cells) }
    ensures { MatchOption result ((p c x : ℕ) → p < sizes.pages → c < sizes.cells → x < 2 ^ 64 → text.now ≢ value_text p c x) (λ a. (a.0 < sizes.pages) × (a.1 < sizes.cells) × (a.2 < 2 ^ 64) × (text.now ≡ value_text a.0 a.1 a.2)) }
{
    let (page, rest) = number_then(text, u64::from(sizes.pages) - 1)?;
    let (cell, rest) = number_then(rest, u64::from(sizes.cells) - 1)?;
    let value = read_decimal(rest)?;
    Some((PageNo::new(page as u32), cell as u16, value))
}

/// Returns the operation that a line spells, for a machine, before a move or after it.
fn read_op(line: &[u8], sizes: Sizes, when: When) -> Option<Op>
    requires { IsExtent (small_machine sizes.pages sizes.cells) }
    ensures { MatchOption result ((op : Done) → OpFitsAt when (small_machine sizes.pages sizes.cells) op → line.now ≢ op_line op) (λ op. OpFitsAt when (small_machine sizes.pages sizes.cells) op × (line.now ≡ op_line op)) }
{
    if let Some(text) = after_key(line, READ_KEY) {
        let (page, cell) = read_place(text, sizes)?;
        return Some(Op::Read { page, cell });
    }
    if let Some(text) = after_key(line, WRITE_KEY) {
        let (page, cell, value) = read_value(text, sizes)?;
        return Some(Op::Write { page, cell, value });
    }
    if !may_release(when) {
        return None;
    }
    let text = after_key(line, RELEASE_KEY)?;
    let page = read_limited(text, u64::from(sizes.pages) - 1)?;
    Some(Op::Release {
        page: PageNo::new(page as u32),
    })
}

/// Returns what is allowed at an operation, before a move or after it.
pub fn wanted_op(when: When) -> Wanted {
    let what = match when {
        When::BeforeMove => "an operation before the move",
        When::AfterMove(_) => "an operation after the move",
    };
    if may_release(when) {
        Wanted::one(what, &["r P C", "w P C X", "z P"])
    } else {
        Wanted::one(what, &["r P C", "w P C X"])
    }
}

/// Takes the line of an operation after others, before a move or after it.
pub fn take_op(ops: &mut Vec<Op>, sizes: Sizes, when: When, line: &[u8]) -> Result<(), FaultKind>
    requires { IsExtent (small_machine sizes.pages sizes.cells) }
    ensures ok { OnOk result (TakesOp when (small_machine sizes.pages sizes.cells) ops.old.items ops.new.items line.now) }
    ensures refused { IfErr result (λ kind. kind ≢ FaultKind.Memory → (op : Done) → OpFitsAt when (small_machine sizes.pages sizes.cells) op → line.now ≢ op_line op) }
    ensures err { OnErr result (ops.new.items ≡ ops.old.items) }
{
    let Some(op) = read_op(line, sizes, when) else {
        return Err(FaultKind::Form);
    };
    match ops.push(op) {
        Ok(()) => Ok(()),
        Err(_) => Err(FaultKind::Memory),
    }
}

/// Returns the numbers of operations before and after a move that a line gives.
pub fn read_counts(line: &[u8]) -> Result<(u32, u32), FaultKind>
    ensures found { IfOk result (λ a. (a.0 ≤ 65536) × (a.1 ≤ 65536) × (line.now ≡ counts_line a.0 a.1)) }
    ensures refused { OnErr result ((b a : ℕ) → b ≤ 65536 → a ≤ 65536 → line.now ≢ counts_line b a) }
{
    let Some(text) = after_key(line, VCPU_KEY) else {
        return Err(FaultKind::Form);
    };
    let Some((before, rest)) = number_then(text, u64::from(MOST_OPS)) else {
        return Err(FaultKind::Form);
    };
    let Some(after) = read_limited(rest, u64::from(MOST_OPS)) else {
        return Err(FaultKind::Form);
    };
    Ok((before as u32, after as u32))
}

/// Returns what is allowed at the line with the numbers of a virtual processor's operations.
pub fn wanted_counts() -> Wanted {
    let what = "the numbers of operations before and after the move of a virtual processor";
    Wanted::one(what, &["vcpu N N"]).within(0, MOST_OPS)
}
