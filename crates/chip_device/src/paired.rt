// Two programs that share the core.
ghost use Rattle.std.specs.Prelude.{◌≡◌, [], IfOk, IfSome};
ghost use Rattle.adversary_script.specs.Script.{FitScript};
ghost use Rattle.sec_base.specs.Geometry.{memory_size, one};
ghost use Rattle.sec_base.specs.Program.{IsImageOf, Program};
ghost use Rattle.bus_model.specs.BusHistory.{new_history};
ghost use Rattle.turn_order.specs.TurnOrder.{IsOrder};
ghost use Rattle.chip_words.specs.Defaults as defaults;
ghost use Rattle.chip_words.specs.Words.{side_asked};
ghost use Rattle.chip_device.specs.Buses.{IsBusOf, run_history};
ghost use Rattle.chip_device.specs.Device as spec;
ghost use Rattle.chip_device.specs.Device.{terms_of};
ghost use Rattle.chip_device.specs.Paired.{RunsBeside};

use crate::device::setup_of;
use crate::printed::Printed;
use crate::run_bus::RunBus;
use adversary_script::Script;
use chip_run::{PairRecord, RunRecord, Setup, Side, SideStop, run_pair};
use chip_words::{SideRun, side_run};
use hmac_tag::HmacTagger;
use sec_base::{Image, NoMemory};
use std::alloc::Global;

/// One of two programs that are to share the core.
#[derive(Drop)]
pub struct SideOnDevice<'a> {
    /// The program.
    pub image: &'a Image,
    /// What an adversary does to its memory, where there is a script.
    pub script: Option<Script>,
    /// How it is asked for.
    pub asked: &'a SideRun<'a>,
}

/// What one of two programs came to that shared the core.
#[derive(Debug, Drop)]
pub struct RanBeside {
    /// What it came to.
    pub run: RunRecord,
    /// The bus to its memory, as it stands at the end.
    pub bus: RunBus,
    /// The stop that ended it, if its memory or want of memory did.
    pub stop: Option<SideStop>,
    /// What it printed.
    pub printed: Printed,
}

/// Runs two programs turn by turn on empty inputs, each under its own device key and on protected memory over a bus of its own
/// that follows its script, where there is one. Whose turn it is the order says, 0 for the first and 1 for the second, over and
/// over; of none they take turns, the first one first. Fails only if out of memory.
pub fn pair_on_device(
    alloc: Global,
    first: SideOnDevice<'_>,
    second: SideOnDevice<'_>,
    order: &[u8],
) -> Result<(RanBeside, RanBeside), NoMemory>
    requires first_size { first.image.now.size ≡ memory_size (one 4) }
    requires second_size { second.image.now.size ≡ memory_size (one 4) }
    requires first_fits { IfSome first.script (FitScript (one 4)) }
    requires second_fits { IfSome second.script (FitScript (one 4)) }
    requires order { IsOrder order.now }
    ensures first { (program : Program) →
        IsImageOf (memory_size (one 4)) program first.entry.image.now →
        IfOk result (λ done.
        RunsBeside (terms_of (defaults.side_run (side_asked first.entry.asked.now)) program [])
        done.0.printed done.0.run done.0.bus done.0.stop) }
    ensures second { (program : Program) →
        IsImageOf (memory_size (one 4)) program second.entry.image.now →
        IfOk result (λ done.
        RunsBeside (terms_of (defaults.side_run (side_asked second.entry.asked.now)) program [])
        done.1.printed done.1.run done.1.bus done.1.stop) }
    ensures first_bus { IfOk result (λ done. IsBusOf first.entry.script done.0.bus) }
    ensures second_bus { IfOk result (λ done. IsBusOf second.entry.script done.1.bus) }
{
    let (setup1, bus1) = set_up(alloc, first.script, first.asked)?;
    let (setup2, bus2) = set_up(alloc, second.script, second.asked)?;
    let side1 = Side {
        image: first.image,
        input: &[],
        setup: &setup1,
        tagger: HmacTagger::new(&setup1.keys),
        bus: bus1,
    };
    let side2 = Side {
        image: second.image,
        input: &[],
        setup: &setup2,
        tagger: HmacTagger::new(&setup2.keys),
        bus: bus2,
    };
    let mut printed1 = Printed::new(alloc);
    let mut printed2 = Printed::new(alloc);
    let (record, bus1, bus2) = run_pair(alloc, side1, side2, order, &mut printed1, &mut printed2);
    let first = RanBeside {
        run: record.first,
        bus: bus1,
        stop: record.first_stop,
        printed: printed1,
    };
    let second = RanBeside {
        run: record.second,
        bus: bus2,
        stop: record.second_stop,
        printed: printed2,
    };
    Ok((first, second))
}

// What one of them is given as it is asked for, and a bus to a memory of zeros, which follows its script, where there is one.
fn set_up(
    alloc: Global,
    script: Option<Script>,
    asked: &SideRun<'_>,
) -> Result<(Setup, RunBus), NoMemory>
    requires fits { IfSome script (FitScript (one 4)) }
    ensures setup { IfOk result (λ made.
        made.0 ≡ spec.setup_of (defaults.side_run (side_asked asked.now))) }
    ensures history { IfOk result (λ made. run_history made.1 ≡ new_history (one 4)) }
    ensures bus { IfOk result (λ made. IsBusOf script made.1) }
{
    let run = side_run(asked);
    let setup = setup_of(&run);
    let bus = RunBus::new(alloc, script, run.execution.file.geometry)?;
    Ok((setup, bus))
}
