//! What is allowed at each line of a script's text.

use crate::fates::wanted_fates;
use crate::op_form::{wanted_counts, wanted_op};
use crate::script_steps::ScriptParts;
use crate::stages::ScriptStage;
use crate::{MOST_PIVOTS, MOST_VCPUS, MOST_WINDOW, Vcpu, When};
use migration_types::{Size, Version};
use session_grammar::{wanted_cells, wanted_init_count, wanted_init_page, wanted_pages};
use text_lines::Wanted;

/// The line with the number of initial pages.
const INIT_LINE: u32 = 4;

/// The forms of the header.
const HEADER_FORMS: &[&str] = &["postcopy-script 1", "postcopy-script 2"];

impl ScriptParts {
    /// Returns what is allowed at the next line.
    pub fn wanted_at(&self, stage: ScriptStage) -> Wanted {
        let wanted = match stage {
            ScriptStage::Header => Wanted::one("the header of a script", HEADER_FORMS),
            ScriptStage::Pages => wanted_pages(Size::Small),
            ScriptStage::Cells => wanted_cells(Size::Small),
            ScriptStage::InitCount => wanted_init_count(self.sizes.pages),
            ScriptStage::Init => self.wanted_in_init(),
            ScriptStage::Window => {
                Wanted::one("the window", &["window N"]).within(1, MOST_WINDOW)
            }
            ScriptStage::Down => wanted_fates("the fates on the way down", &["down FATES"]),
            ScriptStage::Up => wanted_fates("the fates on the way up", &["up FATES"]),
            ScriptStage::Lanes => {
                Wanted::one("the number of links that go down", &["lanes 1", "lanes 2"])
            }
            ScriptStage::Lane => wanted_fates("the fates on the lane", &["lane FATES"]),
            ScriptStage::Count => {
                Wanted::one("the number of virtual processors", &["vcpus N"]).within(1, MOST_VCPUS)
            }
            ScriptStage::First => wanted_counts().counted(0, self.count, self.vcpus_line()),
            ScriptStage::Ops => self.wanted_in_ops(),
            ScriptStage::Done => Wanted::nothing_more(),
        };
        wanted.of_machine(self.sizes.pages, self.sizes.cells)
    }

    /// Expects an initial page, or after the last the number of pivots.
    fn wanted_in_init(&self) -> Wanted {
        let wanted = if self.init.is_whole() {
            Wanted::one("the number of pivots", &["pivots N"]).within(1, MOST_PIVOTS)
        } else {
            wanted_init_page(&self.init, self.sizes.pages)
        };
        wanted.of_list(&self.init, INIT_LINE)
    }

    /// Expects an operation; after the last one of a virtual processor, the next virtual processor or the closing line.
    fn wanted_in_ops(&self) -> Wanted {
        let before = short(self.before.len());
        let after = short(self.after.len());
        let ended = short(self.vcpus.len()).saturating_add(1);
        if before < self.before_count {
            return wanted_op(When::BeforeMove).counted(before, self.before_count, self.vcpu_line());
        }
        if after < self.after_count {
            return wanted_op(When::AfterMove(self.version)).counted(
                after,
                self.after_count,
                self.vcpu_line(),
            );
        }
        if ended < self.count {
            return wanted_counts().counted(ended, self.count, self.vcpus_line());
        }
        Wanted::closing_line().counted(ended, self.count, self.vcpus_line())
    }

    /// Returns the line with the number of virtual processors.
    fn vcpus_line(&self) -> u32 {
        let lanes = match (self.version, &self.lane) {
            (Version::One, _) => 0,
            (Version::Two, None) => 1,
            (Version::Two, Some(_)) => 2,
        };
        self.init
            .came()
            .saturating_add(INIT_LINE + 5)
            .saturating_add(lanes)
    }

    /// Returns the line of the virtual processor that is being read.
    fn vcpu_line(&self) -> u32 {
        let mut line = self.vcpus_line().saturating_add(1);
        for vcpu in &self.vcpus {
            line = line.saturating_add(lines_of(vcpu));
        }
        line
    }
}

/// Returns how many lines a virtual processor has: its own, and one for each operation.
fn lines_of(vcpu: &Vcpu) -> u32 {
    let before = short(vcpu.before_move.as_slice().len());
    let after = short(vcpu.after_move.as_slice().len());
    before.saturating_add(after).saturating_add(1)
}

/// Returns a length, which is small.
fn short(length: usize) -> u32 {
    u32::try_from(length).unwrap_or(u32::MAX)
}
