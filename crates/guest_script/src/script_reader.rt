//! Reading a script, line by line.

ghost use Rattle.guest_script.specs.Scripts.{SpellsScript};

use crate::Script;
use crate::script_steps::ScriptParts;
use crate::stages::ScriptStage;
use std::alloc::Global;
use text_lines::{FaultKind, Stages, Wanted};

impl Stages for ScriptParts {
    type Stage = ScriptStage;

    fn begin(alloc: Global) -> (ScriptStage, Self) {
        (ScriptStage::Header, ScriptParts::new(alloc))
    }

    fn take(&mut self, stage: ScriptStage, line: &[u8]) -> Result<ScriptStage, FaultKind> {
        self.step(stage, line)
    }

    type Text = Script;

    ghost spells = { SpellsScript };

    ghost use Rattle.guest_script.specs.inner.ScriptDraft.{held_at, LiveAt};

    ghost held = { held_at };

    ghost Live = { LiveAt };

    fn goes_on(&self, _stage: ScriptStage) {}

    fn wanted(&self, stage: ScriptStage) -> Wanted {
        self.wanted_at(stage)
    }

    fn text(self, stage: ScriptStage) -> Option<Script> {
        match stage {
            ScriptStage::Done => self.into_script(),
            _ => None,
        }
    }

    ghost use Rattle.guest_script.specs.inner.ScriptPlain.{plain_script};

    ghost plain = { plain_script };
}
