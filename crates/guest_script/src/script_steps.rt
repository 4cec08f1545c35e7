//! How a reader of scripts takes each line.

ghost use Rattle.std.specs.Prelude.{◌≡◌, ◌+◌, ◌<◌, ◌≤◌, length, OnOk, OnErr, IfErr, IsSomeAnd};
ghost use Rattle.guest_script.specs.inner.ScriptDraft.{draft_of, ScriptStep, HasAllOps, begun, ended};
ghost use Rattle.guest_script.specs.inner.ScriptHeld.{ScriptFits, ScriptLive, scenario_of};

use crate::fates::read_fates;
use crate::keys::{
    DOWN_KEY, LANE_KEY, ONE_LANE, PIVOTS_KEY, TWO_LANES, UP_KEY, VCPUS_KEY, WINDOW_KEY,
};
use crate::op_form::{read_counts, take_op};
use crate::stages::ScriptStage;
use crate::versions::script_header;
use crate::{MOST_PIVOTS, MOST_VCPUS, MOST_WINDOW, Scenario, Script, Vcpu, When};
use migration_events::{Fate, Op};
use migration_types::{Geometry, InitPage, Seq, Size, Version};
use session_grammar::{INIT_KEY, InitLines, Sizes, read_cells, read_pages};
use std::alloc::Global;
use std::mem;
use text_lines::{CLOSING, Counted, FaultKind, is_line, read_some};

/// What was read of a script.
#[derive(Drop)]
pub struct ScriptParts {
    pub(crate) version: Version,
    pub(crate) sizes: Sizes,
    pub(crate) init: Counted<InitPage>,
    pub(crate) pivots: u32,
    pub(crate) window: u32,
    pub(crate) down: Seq<Fate>,
    pub(crate) up: Seq<Fate>,
    /// `None` if there is no lane, and until its delivery outcomes are read.
    pub(crate) lane: Option<Seq<Fate>>,
    /// How many virtual processors there are.
    pub(crate) count: u32,
    /// The virtual processors that were read completely.
    pub(crate) vcpus: Vec<Vcpu>,
    /// How many operations before its move the current virtual processor has, and those that were read.
    pub(crate) before_count: u32,
    pub(crate) before: Vec<Op>,
    /// How many operations after its move it has, and those that were read.
    pub(crate) after_count: u32,
    pub(crate) after: Vec<Op>,
}

impl ScriptParts {
    /// Returns the parts with nothing read. Allocates no memory.
    pub(crate) fn new(alloc: Global) -> Self
        ensures { ScriptLive ScriptStage.Header (draft_of result) }
    {
        ScriptParts {
            version: Version::One,
            sizes: Sizes {
                alloc,
                size: Size::Small,
                pages: 0,
                cells: 0,
            },
            init: Counted::nothing(alloc),
            pivots: 0,
            window: 0,
            down: Seq::from_vec(Vec::new(alloc)),
            up: Seq::from_vec(Vec::new(alloc)),
            lane: None,
            count: 0,
            vcpus: Vec::new(alloc),
            before_count: 0,
            before: Vec::new(alloc),
            after_count: 0,
            after: Vec::new(alloc),
        }
    }

    /// Returns the script, if all of it was read.
    pub(crate) fn into_script(self) -> Option<Script>
        requires { ScriptFits ScriptStage.Done (draft_of self) }
        ensures { IsSomeAnd result (λ script. script ≡ scenario_of (draft_of self)) }
    {
        match Geometry::new(self.sizes.pages, self.sizes.cells) {
            Ok(geometry) => Some(Script::of_scenario(Scenario {
                version: self.version,
                geometry,
                init: Seq::from_vec(self.init.into_vec()),
                pivots: self.pivots,
                window: self.window,
                down: self.down,
                up: self.up,
                lane: self.lane,
                vcpus: Seq::from_vec(self.vcpus),
            })),
            Err(_) => None,
        }
    }

    /// Takes the next line, and returns the stage after it.
    pub(crate) fn step(&mut self, stage: ScriptStage, line: &[u8]) -> Result<ScriptStage, FaultKind>
        requires { ScriptLive stage (draft_of self.old) }
        ensures { ScriptStep stage (draft_of self.old) line.now (draft_of self.new) result }
    {
        match stage {
            ScriptStage::Header => self.at_header(line),
            ScriptStage::Pages => self.at_pages(line),
            ScriptStage::Cells => self.at_cells(line),
            ScriptStage::InitCount => self.at_init_count(line),
            ScriptStage::Init => self.at_init(line),
            ScriptStage::Window => self.at_window(line),
            ScriptStage::Down => self.at_down(line),
            ScriptStage::Up => self.at_up(line),
            ScriptStage::Lanes => self.at_lanes(line),
            ScriptStage::Lane => self.at_lane(line),
            ScriptStage::Count => self.at_count(line),
            ScriptStage::First => self.at_first(line),
            ScriptStage::Ops => self.at_ops(line),
            ScriptStage::Done => Err(FaultKind::Ended),
        }
    }

    /// Takes the header, which gives the version.
    fn at_header(&mut self, line: &[u8]) -> Result<ScriptStage, FaultKind>
        requires { ScriptLive ScriptStage.Header (draft_of self.old) }
        ensures { ScriptStep ScriptStage.Header (draft_of self.old) line.now (draft_of self.new) result }
    {
        if is_line(line, script_header(Version::One)) {
            self.version = Version::One;
            return Ok(ScriptStage::Pages);
        }
        if is_line(line, script_header(Version::Two)) {
            self.version = Version::Two;
            return Ok(ScriptStage::Pages);
        }
        Err(FaultKind::Form)
    }

    /// Takes the number of pages.
    fn at_pages(&mut self, line: &[u8]) -> Result<ScriptStage, FaultKind>
        requires { ScriptLive ScriptStage.Pages (draft_of self.old) }
        ensures { ScriptStep ScriptStage.Pages (draft_of self.old) line.now (draft_of self.new) result }
    {
        let pages = read_pages(Size::Small, line)?;
        self.sizes.pages = pages;
        Ok(ScriptStage::Cells)
    }

    /// Takes the number of cells.
    fn at_cells(&mut self, line: &[u8]) -> Result<ScriptStage, FaultKind>
        requires { ScriptLive ScriptStage.Cells (draft_of self.old) }
        ensures { ScriptStep ScriptStage.Cells (draft_of self.old) line.now (draft_of self.new) result }
    {
        let cells = read_cells(Size::Small, line, self.sizes.pages)?;
        self.sizes.cells = cells;
        Ok(ScriptStage::InitCount)
    }

    /// Takes the number of initial pages.
    fn at_init_count(&mut self, line: &[u8]) -> Result<ScriptStage, FaultKind>
        requires { ScriptLive ScriptStage.InitCount (draft_of self.old) }
        ensures { ScriptStep ScriptStage.InitCount (draft_of self.old) line.now (draft_of self.new) result }
    {
        self.init.announce(line, INIT_KEY, self.sizes.pages)?;
        Ok(ScriptStage::Init)
    }

    /// Takes an initial page, or the number of pivots.
    fn at_init(&mut self, line: &[u8]) -> Result<ScriptStage, FaultKind>
        requires { ScriptLive ScriptStage.Init (draft_of self.old) }
        ensures { ScriptStep ScriptStage.Init (draft_of self.old) line.now (draft_of self.new) result }
    {
        if self.init.is_whole() {
            let pivots = read_some(line, PIVOTS_KEY, MOST_PIVOTS)?;
            self.pivots = pivots;
            return Ok(ScriptStage::Window);
        }
        let form = InitLines {
            sizes: self.sizes,
            high: self.sizes.pages - self.init.left(),
        };
        self.init.line(&form, line)?;
        Ok(ScriptStage::Init)
    }

    /// Takes the window.
    fn at_window(&mut self, line: &[u8]) -> Result<ScriptStage, FaultKind>
        requires { ScriptLive ScriptStage.Window (draft_of self.old) }
        ensures { ScriptStep ScriptStage.Window (draft_of self.old) line.now (draft_of self.new) result }
    {
        let window = read_some(line, WINDOW_KEY, MOST_WINDOW)?;
        self.window = window;
        Ok(ScriptStage::Down)
    }

    /// Takes the delivery outcomes on the way down.
    fn at_down(&mut self, line: &[u8]) -> Result<ScriptStage, FaultKind>
        requires { ScriptLive ScriptStage.Down (draft_of self.old) }
        ensures { ScriptStep ScriptStage.Down (draft_of self.old) line.now (draft_of self.new) result }
    {
        let down = read_fates(self.sizes.alloc, line, DOWN_KEY)?;
        self.down = down;
        Ok(ScriptStage::Up)
    }

    /// Takes the delivery outcomes on the way up. There is no lane until its line is read.
    fn at_up(&mut self, line: &[u8]) -> Result<ScriptStage, FaultKind>
        requires { ScriptLive ScriptStage.Up (draft_of self.old) }
        ensures { ScriptStep ScriptStage.Up (draft_of self.old) line.now (draft_of self.new) result }
    {
        let up = read_fates(self.sizes.alloc, line, UP_KEY)?;
        self.up = up;
        self.lane = None;
        match self.version {
            Version::One => Ok(ScriptStage::Count),
            Version::Two => Ok(ScriptStage::Lanes),
        }
    }

    /// Takes the number of links that carry packets down: one, or two with the lane.
    fn at_lanes(&self, line: &[u8]) -> Result<ScriptStage, FaultKind>
        requires { ScriptLive ScriptStage.Lanes (draft_of self.now) }
        ensures { ScriptStep ScriptStage.Lanes (draft_of self.now) line.now (draft_of self.now) result }
    {
        if is_line(line, ONE_LANE) {
            return Ok(ScriptStage::Count);
        }
        if is_line(line, TWO_LANES) {
            return Ok(ScriptStage::Lane);
        }
        Err(FaultKind::Form)
    }

    /// Takes the delivery outcomes on the way over the lane.
    fn at_lane(&mut self, line: &[u8]) -> Result<ScriptStage, FaultKind>
        requires { ScriptLive ScriptStage.Lane (draft_of self.old) }
        ensures { ScriptStep ScriptStage.Lane (draft_of self.old) line.now (draft_of self.new) result }
    {
        let lane = read_fates(self.sizes.alloc, line, LANE_KEY)?;
        self.lane = Some(lane);
        Ok(ScriptStage::Count)
    }

    /// Takes the number of virtual processors.
    fn at_count(&mut self, line: &[u8]) -> Result<ScriptStage, FaultKind>
        requires { ScriptLive ScriptStage.Count (draft_of self.old) }
        ensures { ScriptStep ScriptStage.Count (draft_of self.old) line.now (draft_of self.new) result }
    {
        let count = read_some(line, VCPUS_KEY, MOST_VCPUS)?;
        self.count = count;
        self.vcpus = Vec::new(self.sizes.alloc);
        Ok(ScriptStage::First)
    }

    /// Takes the numbers of operations of the first virtual processor.
    fn at_first(&mut self, line: &[u8]) -> Result<ScriptStage, FaultKind>
        requires { ScriptLive ScriptStage.First (draft_of self.old) }
        ensures { ScriptStep ScriptStage.First (draft_of self.old) line.now (draft_of self.new) result }
    {
        let (before, after) = read_counts(line)?;
        self.begin_vcpu(before, after);
        Ok(ScriptStage::Ops)
    }

    /// Takes an operation, or what follows the last of a virtual processor.
    fn at_ops(&mut self, line: &[u8]) -> Result<ScriptStage, FaultKind>
        requires { ScriptLive ScriptStage.Ops (draft_of self.old) }
        ensures { ScriptStep ScriptStage.Ops (draft_of self.old) line.now (draft_of self.new) result }
    {
        if self.before.len() < self.before_count as usize {
            take_op(&mut self.before, self.sizes, When::BeforeMove, line)?;
            return Ok(ScriptStage::Ops);
        }
        if self.after.len() < self.after_count as usize {
            let when = When::AfterMove(self.version);
            take_op(&mut self.after, self.sizes, when, line)?;
            return Ok(ScriptStage::Ops);
        }
        if self.vcpus.len() + 1 < self.count as usize {
            return self.at_next(line);
        }
        self.at_end(line)
    }

    /// Takes the numbers of operations of the next virtual processor, after the last operation of one.
    fn at_next(&mut self, line: &[u8]) -> Result<ScriptStage, FaultKind>
        requires live { ScriptLive ScriptStage.Ops (draft_of self.old) }
        requires whole { HasAllOps (draft_of self.old) }
        requires more { length (draft_of self.old).vcpus + 1 < (draft_of self.old).count }
        ensures { ScriptStep ScriptStage.Ops (draft_of self.old) line.now (draft_of self.new) result }
    {
        let (before, after) = read_counts(line)?;
        self.end_vcpu()?;
        self.begin_vcpu(before, after);
        Ok(ScriptStage::Ops)
    }

    /// Takes the closing line, after the last operation of the last virtual processor.
    fn at_end(&mut self, line: &[u8]) -> Result<ScriptStage, FaultKind>
        requires live { ScriptLive ScriptStage.Ops (draft_of self.old) }
        requires whole { HasAllOps (draft_of self.old) }
        requires last { (draft_of self.old).count ≤ length (draft_of self.old).vcpus + 1 }
        ensures { ScriptStep ScriptStage.Ops (draft_of self.old) line.now (draft_of self.new) result }
    {
        if !is_line(line, CLOSING) {
            return Err(FaultKind::Form);
        }
        self.end_vcpu()?;
        Ok(ScriptStage::Done)
    }

    /// Starts a virtual processor with this many operations. Allocates no memory.
    fn begin_vcpu(&mut self, before: u32, after: u32)
        ensures { draft_of self.new ≡ begun before after (draft_of self.old) }
    {
        self.before_count = before;
        self.before = Vec::new(self.sizes.alloc);
        self.after_count = after;
        self.after = Vec::new(self.sizes.alloc);
    }

    /// Completes a virtual processor, all of whose operations were read. Fails only if memory runs out, and then
    /// nothing changes.
    fn end_vcpu(&mut self) -> Result<(), FaultKind>
        ensures ok { OnOk result (draft_of self.new ≡ ended (draft_of self.old)) }
        ensures err { OnErr result (draft_of self.new ≡ draft_of self.old) }
        ensures kind { IfErr result (λ kind. kind ≡ FaultKind.Memory) }
    {
        if self.vcpus.reserve(1).is_err() {
            return Err(FaultKind::Memory);
        }
        let before = mem::replace(&mut self.before, Vec::new(self.sizes.alloc));
        let after = mem::replace(&mut self.after, Vec::new(self.sizes.alloc));
        self.vcpus.push_reserved(Vcpu {
            before_move: Seq::from_vec(before),
            after_move: Seq::from_vec(after),
        });
        Ok(())
    }
}
