//! Lines of the lane's records.

ghost use Rattle.std.specs.Prelude.{◌≡◌, ◌≢◌, [], ◌∷◌, ◌++◌, ◌≤◌, IfSome, IsSomeAnd, OnOk};
ghost use Rattle.migration_types.specs.Limits.{limits};
ghost use Rattle.migration_types.specs.Sessions.{LaneRecIn};
ghost use Rattle.migration_types.specs.declared.records.LaneRec.{LaneRec as Rec};
ghost use Rattle.migration_types.specs.declared.version.Version.TheVariants.{Two};
ghost use Rattle.session_grammar.specs.Records.{lane_line};

use crate::fields::numbered_then;
use crate::link::DOWN_KEY;
use crate::records::{RecordForm, Records};
use migration_types::{LaneRec, Size};
use std::alloc::AllocError;
use text_lines::{FaultKind, push_keyed};

/// The lines of the lane's log, which only the second version has, for a machine of this size.
#[derive(Clone, Copy)]
pub(crate) struct LaneLines(pub Size);

impl RecordForm for LaneLines {
    type Record = LaneRec;

    ghost spell = { lane_line };

    ghost IsForm = { λ f. Unit {0} };

    ghost Fits = { λ f r. LaneRecIn (limits f.0).records Two r };

    #[inline(always)]
    fn push(rec: &LaneRec, out: &mut Vec<u8>) -> Result<(), AllocError> {
        let LaneRec::Down { sending } = *rec;
        push_keyed(out, DOWN_KEY, sending)
    }

    #[inline(always)]
    fn record_then<'a>(&self, text: &'a [u8]) -> Result<(LaneRec, &'a [u8]), FaultKind> {
        match numbered_then(self.0, text, DOWN_KEY) {
            Some((sending, rest)) => Ok((LaneRec::Down { sending }, rest)),
            None => Err(FaultKind::Form),
        }
    }
}
