//! Scripts.

ghost use Rattle.std.specs.Prelude.{◌≡◌, IfOk, MatchBool, MatchOption, MatchResult, OnErr};
ghost use Rattle.std.specs.Option.{option_map};
ghost use Rattle.migration_types.specs.declared.size.Size.TheVariants.{Small};
ghost use Rattle.guest_script.specs.Scenarios.{IsScenario, LaneFits};
ghost use Rattle.guest_script.specs.ScriptFaults.{IsScriptFault};

use crate::script_fault::{ScriptFault, first_vcpu_fault, first_wrong_page};
use crate::vcpus::{MOST_FATES, MOST_PIVOTS, MOST_VCPUS, MOST_WINDOW, Vcpu};
use migration_events::Fate;
use migration_types::{Contents, Geometry, InitPage, Seq, Version};
use std::alloc::{AllocError, Global};
use std::marker::Model;

/// What a script says: a machine and its initial memory, how pages are pushed, the delivery outcomes of packets, and
/// what each virtual processor does. It may break the limits of a script, which `Script::new` lists.
#[derive(Drop)]
pub struct Scenario {
    /// The version of its text.
    pub version: Version,
    /// The machine's geometry.
    pub geometry: Geometry,
    /// The pages that do not begin as zeros.
    pub init: Seq<InitPage>,
    /// The greatest number of pivots.
    pub pivots: u32,
    /// How many packets may be under way on the channel of pushed pages, including the pushed one. That channel is the
    /// lane, or without one the link down.
    pub window: u32,
    /// The delivery outcomes of the packets on their way down, in order.
    pub down: Seq<Fate>,
    /// The delivery outcomes of the packets on their way up, in order.
    pub up: Seq<Fate>,
    /// The delivery outcomes of the packets on the lane, in order, if there is a lane.
    pub lane: Option<Seq<Fate>>,
    /// What each virtual processor does.
    pub vcpus: Seq<Vcpu>,
}

/// The script of a migration: a scenario within all limits.
#[derive(Drop)]
pub struct Script {
    scenario: Scenario,
}

impl Model for Script {
    ghost use Rattle.guest_script.specs.declared.script.Scenario.{Scenario};
    ghost use Rattle.guest_script.specs.Scenarios.{IsScenario};

    ghost Value = { Scenario };

    ghost view = { λ a. a.scenario };

    ghost invariant = { λ a. IsScenario a.scenario };
}

/// Returns whether scripts of the version may have a lane, if there is one, and it has at most 4,096 delivery outcomes.
fn lane_fits(version: Version, lane: &Option<Seq<Fate>>) -> bool
    ensures { MatchBool result (LaneFits version lane.now) (LaneFits version lane.now → ⊥) }
{
    match (version, lane) {
        (_, None) => true,
        (Version::One, Some(_)) => false,
        (Version::Two, Some(fates)) => fates.as_slice().len() <= MOST_FATES as usize,
    }
}

/// Returns the first limit that the scenario breaks, if there is one.
fn fault_in(scenario: &Scenario) -> Option<ScriptFault>
    requires { scenario.now.geometry.size ≡ Small }
    ensures { MatchOption result (IsScenario scenario.now) (IsScriptFault scenario.now) }
{
    scenario.geometry.keeps_limits();
    if let Some(place) = first_wrong_page(scenario.geometry, scenario.init.as_slice()) {
        return Some(ScriptFault::Init(place));
    }
    if scenario.pivots == 0 || scenario.pivots > MOST_PIVOTS {
        return Some(ScriptFault::Pivots);
    }
    if scenario.window == 0 || scenario.window > MOST_WINDOW {
        return Some(ScriptFault::Window);
    }
    if scenario.down.as_slice().len() > MOST_FATES as usize {
        return Some(ScriptFault::Down);
    }
    if scenario.up.as_slice().len() > MOST_FATES as usize {
        return Some(ScriptFault::Up);
    }
    if !lane_fits(scenario.version, &scenario.lane) {
        return Some(ScriptFault::Lane);
    }
    let vcpus = scenario.vcpus.as_slice();
    if vcpus.is_empty() || vcpus.len() > MOST_VCPUS as usize {
        return Some(ScriptFault::Vcpus);
    }
    let (vcpu, fault) = first_vcpu_fault(scenario.version, scenario.geometry, vcpus)?;
    Some(ScriptFault::Vcpu { vcpu, fault })
}

impl Script {
    /// Returns the script that says this, of a small machine, if it is within all limits. Allocates no memory, and copies
    /// nothing.
    ///
    /// # Errors
    ///
    /// The first fault, in the order of `ScriptFault`. The scenario is then dropped. The limits are: initial pages that
    /// rise, belong to the machine, and have one value for each cell, not all of them zero; 1 to 16 pivots; a window of
    /// 1 to 65,536; at most 4,096 delivery outcomes in each direction; a lane only in a script of the second version,
    /// with at most as many; 1 to 64 virtual processors, each with at most 65,536 operations before its move and at most
    /// as many after it, on pages and cells of the machine; and in a script of the first version, no release after the
    /// move.
    pub fn new(scenario: Scenario) -> Result<Self, ScriptFault>
        requires { scenario.geometry.size ≡ Small }
        ensures value { MatchResult result (λ script. (script ≡ scenario) × IsScenario scenario) (IsScriptFault scenario) }
        ensures refused { OnErr result (IsScenario scenario → ⊥) }
    {
        match fault_in(&scenario) {
            Some(fault) => Err(fault),
            None => Ok(Script::of_scenario(scenario)),
        }
    }

    /// Returns the script that says this, which must be within all limits. Allocates no memory, and checks nothing.
    pub fn of_scenario(scenario: Scenario) -> Self
        requires { IsScenario scenario }
        ensures { result ≡ scenario }
    {
        Script { scenario }
    }

    /// Returns the version of its text. In the second, a virtual processor may release pages after its move, and there
    /// may be a lane.
    pub fn version(&self) -> Version
        ensures { result ≡ self.now.version }
    {
        self.scenario.version
    }

    /// Returns the machine's geometry.
    pub fn geometry(&self) -> Geometry
        ensures { result ≡ self.now.geometry }
    {
        self.scenario.geometry
    }

    /// Returns the pages that do not begin as zeros, in rising order.
    pub fn init(&self) -> &[InitPage]
        ensures { result.now ≡ self.now.init }
    {
        self.scenario.init.as_slice()
    }

    /// Returns a copy of the pages that do not begin as zeros. Fails only if memory runs out.
    pub fn copied_init(&self, alloc: Global) -> Result<Seq<InitPage>, AllocError>
        ensures { IfOk result (λ pages. pages ≡ self.now.init) }
    {
        let init = self.scenario.init.as_slice();
        let mut pages = Vec::with_capacity(alloc, init.len())?;
        for given in init {
            let cells = Contents::copied(alloc, given.cells.as_slice())?;
            pages.push(InitPage {
                page: given.page,
                cells,
            })?;
        }
        Ok(Seq::from_vec(pages))
    }

    /// Returns the greatest number of pivots, 1 to 16.
    pub fn pivots(&self) -> u32
        ensures { result ≡ self.now.pivots }
    {
        self.scenario.pivots
    }

    /// Returns the window, 1 to 65,536: how many packets may be under way on the channel of pushed pages, including the
    /// pushed one. That channel is the lane, or without one the link down.
    pub fn window(&self) -> u32
        ensures { result ≡ self.now.window }
    {
        self.scenario.window
    }

    /// Returns the delivery outcomes of the packets on their way down, in order, at most 4,096.
    pub fn down(&self) -> &[Fate]
        ensures { result.now ≡ self.now.down }
    {
        self.scenario.down.as_slice()
    }

    /// Returns the delivery outcomes of the packets on their way up, in order, at most 4,096.
    pub fn up(&self) -> &[Fate]
        ensures { result.now ≡ self.now.up }
    {
        self.scenario.up.as_slice()
    }

    /// Returns the delivery outcomes of the packets on the lane, in order, at most 4,096, or `None` if there is no
    /// lane, and pages are pushed on the link.
    pub fn lane(&self) -> Option<&[Fate]>
        ensures { option_map (λ l. l.now) result ≡ self.now.lane }
    {
        let fates = self.scenario.lane.as_ref()?;
        Some(fates.as_slice())
    }

    /// Returns what each virtual processor does. There are 1 to 64.
    pub fn vcpus(&self) -> &[Vcpu]
        ensures { result.now ≡ self.now.vcpus }
    {
        self.scenario.vcpus.as_slice()
    }

    /// States that it is within all limits.
    pub fn keeps_limits(&self)
        ensures { IsScenario self.now }
    {
        let _scenario = &self.scenario;
    }
}
