//! What a record consists of: a word, and the fields after it.

ghost use Rattle.std.specs.Prelude.{◌≡◌, [], ◌∷◌};
ghost use Rattle.migration_types.specs.Follow.{receipt_among};
ghost use Rattle.migration_types.specs.Rows.{consists, field_name, field_number};

use crate::pages::PageNo;
use crate::records::LogName;
use std::marker::Model;

/// A field of a record.
#[derive(Clone, Copy)]
pub enum Field {
    Vcpu(u8),
    Page(PageNo),
    Cell(u16),
    Value(u64),
    /// The number of a record that is about the same page.
    Number(LogName, u32),
    /// The number of a record of the handover, which is about no page.
    Handover(LogName, u32),
}

impl Field {
    /// Returns its number, as it appears in lines.
    pub fn number(self) -> u64
        ensures { result ≡ field_number self }
    {
        match self {
            Field::Vcpu(vcpu) => u64::from(vcpu),
            Field::Page(page) => u64::from(page.number()),
            Field::Cell(cell) => u64::from(cell),
            Field::Value(value) => value,
            Field::Number(_, number) | Field::Handover(_, number) => u64::from(number),
        }
    }

    /// Returns the record that it names, if it names one.
    pub fn name(self) -> Option<(LogName, u32)>
        ensures { result ≡ field_name self }
    {
        match self {
            Field::Number(log, number) | Field::Handover(log, number) => Some((log, number)),
            _ => None,
        }
    }
}

/// The greatest number of fields in a record.
const MOST_FIELDS: usize = 4;

/// What a record consists of: its word, and the fields after it. Contents, which some records have last, are kept
/// apart.
#[derive(Drop)]
pub struct Row {
    word: &'static [u8],
    fields: [Field; MOST_FIELDS],
    count: usize,
}

impl Model for Row {
    ghost use Rattle.std.specs.Prelude.{◌≤◌, take};
    ghost use Rattle.migration_types.specs.Rows.{Consists};

    ghost Value = { Consists };

    ghost view = { λ r. record { word = r.word.now; fields = take r.count r.fields } };

    ghost invariant = { λ r. r.count ≤ 4 };
}

/// Returns the first named record that is of another log than `own`.
fn receipt_among(fields: &[Field], own: LogName) -> Option<(LogName, u32)>
    ensures { result ≡ receipt_among own fields.now }
{
    for field in fields {
        if let Some(name) = field.name()
            && name.0 != own
        {
            return Some(name);
        }
    }
    None
}

impl Row {
    /// Returns the row of a word alone.
    pub fn new(word: &'static [u8]) -> Self
        ensures { result ≡ consists word.now [] }
    {
        Row {
            word,
            fields: [Field::Value(0); MOST_FIELDS],
            count: 0,
        }
    }

    /// Returns the row of a word and a field.
    pub fn one(word: &'static [u8], field: Field) -> Self
        ensures { result ≡ consists word.now (field ∷ []) }
    {
        Row {
            word,
            fields: [field; MOST_FIELDS],
            count: 1,
        }
    }

    /// Returns the row of a word and two fields.
    pub fn two(word: &'static [u8], first: Field, second: Field) -> Self
        ensures { result ≡ consists word.now (first ∷ second ∷ []) }
    {
        Row {
            word,
            fields: [first, second, Field::Value(0), Field::Value(0)],
            count: 2,
        }
    }

    /// Returns the row of a read or a write by a virtual processor.
    pub fn access(word: &'static [u8], vcpu: u8, page: PageNo, cell: u16, value: u64) -> Self
        ensures { result ≡ consists word.now (Field.Vcpu vcpu ∷ Field.Page page ∷ Field.Cell cell ∷ Field.Value value ∷ []) }
    {
        let fields = [
            Field::Vcpu(vcpu),
            Field::Page(page),
            Field::Cell(cell),
            Field::Value(value),
        ];
        Row {
            word,
            fields,
            count: 4,
        }
    }

    /// Returns its word.
    pub fn word(&self) -> &'static [u8]
        ensures { result.now ≡ self.now.word }
    {
        self.word
    }

    /// Returns the fields after the word.
    pub fn fields(&self) -> &[Field]
        ensures { result.now ≡ self.now.fields }
    {
        &self.fields[..self.count]
    }

    /// Returns the record of another log than its own that it is a receipt for.
    pub fn receipt(&self, own: LogName) -> Option<(LogName, u32)>
        ensures { result ≡ receipt_among own self.now.fields }
    {
        receipt_among(self.fields(), own)
    }
}
