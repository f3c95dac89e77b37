// The bus of a run.
ghost use Rattle.std.specs.Prelude.{◌≡◌, IfOk, IfSome};
ghost use Rattle.adversary_script.specs.Script.{FitScript};
ghost use Rattle.bus_model.specs.BusHistory.{new_history};
ghost use Rattle.chip_device.specs.Buses.{IsBusOf, IsSameKind, LiesByScript, kind_told, run_history, same_kind, same_kinds};

use adversary_script::Script;
use bus_adversary::ScriptBus;
use bus_model::{Bus, HonestBus};
use sec_base::{Geometry, NoMemory, Sealed};
use std::alloc::Global;

/// The bus of a run to the memory outside the chip.
#[derive(Debug, Drop)]
pub enum RunBus {
    /// It answers what was written.
    Honest(HonestBus),
    /// It follows a script.
    Script(ScriptBus),
}

impl RunBus {
    // A bus to a memory of zeros, which follows the script, where there is one.
    pub(crate) fn new(
        alloc: Global,
        script: Option<Script>,
        geometry: Geometry,
    ) -> Result<RunBus, NoMemory>
        requires fits { IfSome script (FitScript geometry) }
        ensures history { IfOk result (λ bus. run_history bus ≡ new_history geometry) }
        ensures script { IfOk result (IsBusOf script) }
    {
        match script {
            Some(script) => Ok(RunBus::Script(ScriptBus::new(alloc, script, geometry)?)),
            None => Ok(RunBus::Honest(HonestBus::new(alloc, geometry)?)),
        }
    }

    /// How many answers were false: none where no script has a line, and the first about a place that a line of the
    /// script may change.
    pub fn lies(&self) -> u64
        ensures lies { result ≡ (run_history self.now).lies }
        ensures by_script { LiesByScript self.now }
    {
        match self {
            RunBus::Honest(_) => 0,
            RunBus::Script(bus) => bus.lies(),
        }
    }
}

impl Bus for RunBus {
    ghost history = { run_history };

    ghost moved = { IsSameKind };

    ghost unmoved = { same_kind };

    ghost moved_on = { same_kinds };

    ghost told = { kind_told };

    fn read_data(&mut self, line: u32) -> Result<Sealed, NoMemory> {
        match self {
            RunBus::Honest(bus) => bus.read_data(line),
            RunBus::Script(bus) => bus.read_data(line),
        }
    }

    fn write_data(&mut self, line: u32, sealed: &Sealed) -> Result<(), NoMemory> {
        match self {
            RunBus::Honest(bus) => bus.write_data(line, sealed),
            RunBus::Script(bus) => bus.write_data(line, sealed),
        }
    }

    fn read_node(&mut self, level: u8, index: u32) -> Result<[u8; 64], NoMemory> {
        match self {
            RunBus::Honest(bus) => bus.read_node(level, index),
            RunBus::Script(bus) => bus.read_node(level, index),
        }
    }

    fn write_node(&mut self, level: u8, index: u32, block: &[u8; 64]) -> Result<(), NoMemory> {
        match self {
            RunBus::Honest(bus) => bus.write_node(level, index, block),
            RunBus::Script(bus) => bus.write_node(level, index, block),
        }
    }
}
