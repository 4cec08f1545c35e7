//! The text of a table of lines, line by line.

ghost use Rattle.std.specs.Prelude.{◌≡◌, [], ◌∷◌, ◌++◌, OnOk};
ghost use Rattle.std.specs.Fmt.{decimal};
ghost use Rattle.windows.specs.Tables.{most_lines, table_text};

use migration_types::{LOG_COUNT, Seq, Size};
use std::alloc::{AllocError, Global};
use std::marker::Model;
use text_lines::{FaultKind, Stages, Wanted, end_line, push_number, read_decimal};

/// Returns the most lines of a table: as many as the text of a session of the large size can have. Ten of those are no
/// initial page and no record.
fn most_lines() -> usize
    ensures { result ≡ most_lines }
{
    let limits = Size::Large.limits();
    10 + limits.pages as usize + LOG_COUNT * limits.records as usize
}

/// Appends the number of a line, on a line of its own.
fn push_row(out: &mut Vec<u8>, line: &u64) -> Result<(), AllocError>
    ensures { OnOk result (out.new.items ≡ out.old.items ++ (decimal line.now ++ 10 ∷ [])) }
{
    push_number(out, *line)?;
    end_line(out)
}

/// Appends the text of a table. Fails only if memory runs out.
pub fn push_table(out: &mut Vec<u8>, table: &[u64]) -> Result<(), AllocError>
    ensures { OnOk result (out.new.items ≡ out.old.items ++ table_text table.now) }
{
    for line in table {
        push_row(out, line)?;
    }
    Ok(())
}

/// The part of a table that has been read.
#[derive(Drop)]
pub struct TableParts {
    lines: Vec<u64>,
}

impl Model for TableParts {
    ghost use Rattle.std.specs.Prelude.{ℕ, List};
    ghost use Rattle.windows.specs.Tables.{AreLines};

    ghost Value = { List ℕ };

    ghost view = { λ a. a.lines.items };

    ghost invariant = { λ a. AreLines a.lines.items };
}

impl Stages for TableParts {
    type Stage = ();

    type Text = Seq<u64>;

    ghost use Rattle.std.specs.Prelude.{map, ⊤};
    ghost use Rattle.std.specs.Fmt.{decimal};
    ghost use Rattle.windows.specs.Tables.{SpellsTable};

    ghost spells = { SpellsTable };

    ghost held = { λ _ table. map decimal table };

    ghost Live = { λ _ _. ⊤ };

    fn begin(alloc: Global) -> ((), Self) {
        (
            (),
            TableParts {
                lines: Vec::new(alloc),
            },
        )
    }

    fn take(&mut self, _stage: (), line: &[u8]) -> Result<(), FaultKind> {
        if self.lines.len() >= most_lines() {
            return Err(FaultKind::Ended);
        }
        let Some(number) = read_decimal(line) else {
            return Err(FaultKind::Form);
        };
        match self.lines.push(number) {
            Ok(()) => Ok(()),
            Err(_) => Err(FaultKind::Memory),
        }
    }

    fn goes_on(&self, _stage: ()) {
        let _lines = &self.lines;
    }

    fn wanted(&self, _stage: ()) -> Wanted {
        if self.lines.len() < most_lines() {
            return Wanted::one("the number of a line", &["N"]);
        }
        Wanted::one("nothing after line 687865866, the last of a table", &[])
    }

    fn text(self, _stage: ()) -> Option<Seq<u64>> {
        Some(Seq::from_vec(self.lines))
    }

    ghost use Rattle.windows.specs.inner.Plain.{plain_table};

    ghost plain = { plain_table };
}
