// The files of two programs that are to share the core.
ghost use Rattle.std.specs.Prelude.{◌≡◌, ◌≤◌, [], ◌∷◌, ◌++◌, option_map, IfOk, IfErr, IfSome, OnOk};
ghost use Rattle.adversary_script.specs.Script.{FitScript};
ghost use Rattle.sec_base.specs.Geometry.{memory_size, one};
ghost use Rattle.sec_base.specs.Program.{IsImageOf, Program};
ghost use Rattle.turn_order.specs.TurnOrder.{IsOrder};
ghost use Rattle.chip_words.specs.Defaults as defaults;
ghost use Rattle.chip_words.specs.Words.{pair_asked, side_asked};
ghost use Rattle.chip_files.specs.Causes.{Asks};
ghost use Rattle.chip_files.specs.Needs.{order_needs, pair_needs, program_need, script_needs};
ghost use Rattle.chip_files.specs.Stop.{IsStoppedBy};
ghost use Rattle.chip_files.specs.Taken.{IsOrderOf, IsProgram, IsScript, ReadsPair};

use crate::stop::Stop;
use crate::taking::{read_file, take_program, take_script};
use adversary_script::Script;
use chip_words::{PairRun, SideRun, side_run};
use sec_base::{Bytes, Files, Image};
use std::alloc::Global;
use turn_order::check_order;

/// No order of turns longer than this is read.
const ORDER_LIMIT: u64 = 1_048_576;

/// The files of two programs that are to share the core.
#[derive(Debug, Drop)]
pub struct PairFiles {
    /// The first program.
    pub first: Image,
    /// The second program.
    pub second: Image,
    /// Whose turn it is: nothing where no order is named.
    pub order: Bytes,
    /// What an adversary does to the first one's memory.
    pub first_script: Option<Script>,
    /// What an adversary does to the second one's memory.
    pub second_script: Option<Script>,
}

/// Two programs, the order of their turns and the scripts of their adversaries.
pub fn take_pair<F: Files>(
    alloc: Global,
    asked: &PairRun<'_>,
    files: &mut F,
) -> Result<PairFiles, Stop>
    ensures taken { IfOk result (λ taken. (first : Program) × (second : Program)
        × IsImageOf (memory_size (one 4)) first taken.first
        × IsImageOf (memory_size (one 4)) second taken.second
        × ReadsPair (pair_asked asked.now) (F.state files.old) (F.state files.new) first second
        taken.order taken.first_script taken.second_script) }
    ensures first_fits { IfOk result (λ taken. IfSome taken.first_script (FitScript (one 4))) }
    ensures second_fits { IfOk result (λ taken. IfSome taken.second_script (FitScript (one 4))) }
    ensures order { IfOk result (λ taken. IsOrder taken.order) }
    ensures stopped { IfErr result (λ stop.
        IsStoppedBy stop (pair_needs (pair_asked asked.now)) (F.state files.old)
        (F.state files.new)) }
    ensures held { (F.state files.new).held ≡ (F.state files.old).held }
    ensures quiet { OnOk result ((F.state files.new).faults ≡ (F.state files.old).faults) }
    ensures faults { (F.state files.old).faults ≤ (F.state files.new).faults }
{
    let first = take_side(alloc, &asked.first, files)?;
    let second = take_side(alloc, &asked.second, files)?;
    let order = take_order(alloc, asked.order, files)?;
    let (first_script, second_script) = take_scripts(alloc, asked, files)?;
    Ok(PairFiles {
        first,
        second,
        order,
        first_script,
        second_script,
    })
}

// The program of one of them.
fn take_side<F: Files>(alloc: Global, side: &SideRun<'_>, files: &mut F) -> Result<Image, Stop>
    ensures taken { IfOk result (λ image. (program : Program)
        × IsImageOf (memory_size (one 4)) program image
        × IsProgram (F.state files.old) (defaults.side_run (side_asked side.now)).execution.file
        program) }
    ensures asked { OnOk result
        (Asks (program_need (defaults.side_run (side_asked side.now)).execution.file ∷ [])
        (F.state files.old) (F.state files.new)) }
    ensures stopped { IfErr result (λ stop. IsStoppedBy stop
        (program_need (defaults.side_run (side_asked side.now)).execution.file ∷ [])
        (F.state files.old) (F.state files.new)) }
    ensures held { (F.state files.new).held ≡ (F.state files.old).held }
    ensures quiet { OnOk result ((F.state files.new).faults ≡ (F.state files.old).faults) }
    ensures faults { (F.state files.old).faults ≤ (F.state files.new).faults }
    ensures bytes_taken { (F.state files.old).taken ≤ (F.state files.new).taken }
{
    let run = side_run(side);
    take_program(alloc, &run.execution.file, files)
}

// The bytes of the order's file, where one is named. Each of them has to name a side.
fn take_order<F: Files>(alloc: Global, name: Option<&str>, files: &mut F) -> Result<Bytes, Stop>
    ensures taken { IfOk result
        (IsOrderOf (F.state files.old) (option_map (λ n. n.now) name.entry)) }
    ensures order { IfOk result (λ order. IsOrder order) }
    ensures asked { OnOk result
        (Asks (order_needs (option_map (λ n. n.now) name.entry)) (F.state files.old)
        (F.state files.new)) }
    ensures stopped { IfErr result (λ stop.
        IsStoppedBy stop (order_needs (option_map (λ n. n.now) name.entry)) (F.state files.old)
        (F.state files.new)) }
    ensures held { (F.state files.new).held ≡ (F.state files.old).held }
    ensures quiet { OnOk result ((F.state files.new).faults ≡ (F.state files.old).faults) }
    ensures faults { (F.state files.old).faults ≤ (F.state files.new).faults }
    ensures bytes_taken { (F.state files.old).taken ≤ (F.state files.new).taken }
{
    let Some(name) = name else {
        return Ok(Bytes::new(alloc));
    };
    let order = read_file(alloc, name, ORDER_LIMIT, files)?;
    check_order(order.as_slice())?;
    Ok(order)
}

// The scripts of their adversaries, each where one is named. Each has to fit its memory.
fn take_scripts<F: Files>(
    alloc: Global,
    asked: &PairRun<'_>,
    files: &mut F,
) -> Result<(Option<Script>, Option<Script>), Stop>
    ensures first { IfOk result (λ scripts.
        IsScript (F.state files.old) (one 4) (side_asked asked.now.first).script scripts.0) }
    ensures second { IfOk result (λ scripts.
        IsScript (F.state files.old) (one 4) (side_asked asked.now.second).script scripts.1) }
    ensures first_fits { IfOk result (λ scripts. IfSome scripts.0 (FitScript (one 4))) }
    ensures second_fits { IfOk result (λ scripts. IfSome scripts.1 (FitScript (one 4))) }
    ensures asked { OnOk result (Asks (script_needs (one 4) (side_asked asked.now.first).script
        ++ script_needs (one 4) (side_asked asked.now.second).script) (F.state files.old)
        (F.state files.new)) }
    ensures stopped { IfErr result (λ stop. IsStoppedBy stop
        (script_needs (one 4) (side_asked asked.now.first).script
        ++ script_needs (one 4) (side_asked asked.now.second).script) (F.state files.old)
        (F.state files.new)) }
    ensures held { (F.state files.new).held ≡ (F.state files.old).held }
    ensures quiet { OnOk result ((F.state files.new).faults ≡ (F.state files.old).faults) }
    ensures faults { (F.state files.old).faults ≤ (F.state files.new).faults }
{
    let geometry = side_run(&asked.first).execution.file.geometry;
    let first = take_script(alloc, asked.first.script, geometry, files)?;
    let second = take_script(alloc, asked.second.script, geometry, files)?;
    Ok((first, second))
}
