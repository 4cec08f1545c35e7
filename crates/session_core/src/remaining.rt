//! What remains for virtual processors to do.

ghost use Rattle.std.specs.Prelude.{◌≡◌, map, IfOk};
ghost use Rattle.std.specs.Option.{option_map};
ghost use Rattle.session_core.specs.States.{vcpu_of};
ghost use Rattle.session_core.specs.inner.Steps.{next, early, late};

use guest_script::Vcpu;
use migration_events::Op;
use std::alloc::{AllocError, Global};
use std::marker::Model;

/// What a virtual processor of a borrowed script has left to do, before its move and after it.
#[derive(Drop)]
pub(crate) struct Remaining<'a> {
    pub(crate) before_move: &'a [Op],
    pub(crate) after_move: &'a [Op],
}

impl<'a> Model for Remaining<'a> {
    ghost use Rattle.migration_model.specs.Books.{Vcpu};

    ghost Value = { Vcpu };

    ghost view = { λ l. record { before_move = l.before_move.now; after_move = l.after_move.now } };
}

impl<'a> Remaining<'a> {
    /// Returns what is left at the start, which is everything.
    fn whole(vcpu: &'a Vcpu) -> Remaining<'a>
        ensures { result ≡ vcpu_of vcpu.now }
    {
        Remaining {
            before_move: vcpu.before_move.as_slice(),
            after_move: vcpu.after_move.as_slice(),
        }
    }

    /// Returns the next operation before the move, and what is left after it, or `None` if the virtual processor is at
    /// its move.
    pub(crate) fn early(&self) -> Option<(Op, Remaining<'a>)>
        ensures { option_map (λ n. next n.0 n.1) result ≡ early self.now }
    {
        let (op, rest) = self.before_move.split_first()?;
        Some((
            *op,
            Remaining {
                before_move: rest,
                after_move: self.after_move,
            },
        ))
    }

    /// Returns the next operation after the move, and what is left after it, or `None` if there is none.
    pub(crate) fn late(&self) -> Option<(Op, Remaining<'a>)>
        ensures { option_map (λ n. next n.0 n.1) result ≡ late self.now }
    {
        let (op, rest) = self.after_move.split_first()?;
        Some((
            *op,
            Remaining {
                before_move: self.before_move,
                after_move: rest,
            },
        ))
    }
}

/// Returns what the virtual processors have left at the start, which is everything. Fails only if memory runs out.
pub(crate) fn all_left<'a>(
    alloc: Global,
    vcpus: &'a [Vcpu],
) -> Result<Vec<Remaining<'a>>, AllocError>
    ensures { IfOk result (λ left. left.items ≡ map vcpu_of vcpus.now) }
{
    let mut left = Vec::with_capacity(alloc, vcpus.len())?;
    for vcpu in vcpus {
        left.push(Remaining::whole(vcpu))?;
    }
    Ok(left)
}
