//! What is allowed at each line of a session's text.

ghost use Rattle.session_grammar.specs.inner.Held.{Live};
ghost use Rattle.session_log.specs.inner.Steps.{draft_of};

use crate::parts::Parts;
use migration_types::Version;
use session_grammar::{Stage, wanted_behind, wanted_init_count, wanted_init_page, wanted_item};
use text_lines::Wanted;

impl Parts {
    /// Returns what is allowed at the next line.
    pub(crate) fn wanted_at(&self, stage: Stage) -> Wanted
        requires { Live stage (draft_of self.now) }
    {
        let wanted = if self.left(stage) == 0 {
            self.wanted_behind(stage)
        } else {
            self.wanted_item(stage)
        };
        self.in_list(stage, wanted)
            .of_machine(self.sizes.pages, self.sizes.cells)
            .of_logs(self.sizes.size.limits().records)
    }

    /// Expects the next item of a stage's list.
    fn wanted_item(&self, stage: Stage) -> Wanted {
        match stage {
            Stage::Init => wanted_init_page(&self.init, self.sizes.pages),
            _ => wanted_item(stage, self.version, self.sizes.size),
        }
    }

    /// Expects the line after all lines of a stage.
    fn wanted_behind(&self, stage: Stage) -> Wanted {
        match stage {
            Stage::InitCount => wanted_init_count(self.sizes.pages),
            _ => wanted_behind(stage, self.version, self.sizes.size),
        }
    }

    /// Adds the place in a stage's list, or after its last item.
    fn in_list(&self, stage: Stage, wanted: Wanted) -> Wanted {
        let at = self.count_line(stage);
        match stage {
            Stage::Init => wanted.of_list(&self.init, at),
            Stage::Guest => wanted.of_list(&self.guest, at),
            Stage::Source => wanted.of_list(&self.source, at),
            Stage::Link => wanted.of_list(&self.link, at),
            Stage::Lane => wanted.of_list(&self.lane, at),
            Stage::Pager => wanted.of_list(&self.pager, at),
            _ => wanted,
        }
    }

    /// Returns the line that gives the number of items in a stage's list.
    fn count_line(&self, stage: Stage) -> u32 {
        let init = 4;
        let guest = line_behind(init, self.init.came());
        let source = line_behind(guest, self.guest.came());
        let link = line_behind(source, self.source.came());
        let lane = line_behind(link, self.link.came());
        let pager = match self.version {
            Version::One => lane,
            Version::Two => line_behind(lane, self.lane.came()),
        };
        match stage {
            Stage::Init => init,
            Stage::Guest => guest,
            Stage::Source => source,
            Stage::Link => link,
            Stage::Lane => lane,
            Stage::Pager => pager,
            _ => 0,
        }
    }
}

/// Returns the line after a list's items, whose number is at this line.
fn line_behind(count_line: u32, items: u32) -> u32 {
    count_line.saturating_add(items).saturating_add(1)
}
