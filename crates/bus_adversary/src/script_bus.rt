// A memory outside the chip that follows a script.
ghost use Rattle.adversary_script.specs.Script.{FitScript};
ghost use Rattle.bus_adversary.specs.ChangedPlaces.{script_may_change};
ghost use Rattle.bus_adversary.specs.Adversary.{any_due};
ghost use Rattle.bus_adversary.specs.ScriptBus.{KeepsScript, StoredAsWritten, after_next_read, after_next_write, keeps_on, new_state, next_read, next_write, script_history, state_of, stored_at};
ghost use Rattle.bus_model.specs.Access.{CameBy, one_read, one_write};
ghost use Rattle.bus_model.specs.BusHistory.{new_history};
ghost use Rattle.sec_base.specs.Evidence.{sealed_bytes};
ghost use Rattle.sec_base.specs.Place.{IsPlace};
ghost use Rattle.sec_base.specs.Tag.{IsTag};
ghost use Rattle.sec_base.specs.declared.place.Place.TheVariants.{Line, Node};
ghost use Rattle.std.specs.Prelude.{IfOk, IfSome, IsFalse, IsOk, IsTrue, OnErr, OnOk, [], refl, ◌≡◌};

use crate::adversary::Adversary;
use crate::next_access::{Access, NextAccess};
use crate::place_counts::PlaceCounts;
use adversary_script::Script;
use bus_model::{Bus, HonestBus, Lies};
use sec_base::{Geometry, NoMemory, Place, Sealed};
use std::alloc::Global;
use std::marker::Model;

/// A memory outside the chip that follows a script: before each access the actions that are due are done, in the order
/// of the script. A read gives what is stored then, and a write replaces it. A refused access is not counted.
#[derive(Debug, Drop)]
pub struct ScriptBus {
    bus: HonestBus,
    lies: Lies,
    adversary: Adversary,
    writes: PlaceCounts,
    script: Script,
}

impl Model for ScriptBus {
    ghost use Rattle.bus_adversary.specs.ScriptBus.{IsScriptBus, ScriptBusView};

    ghost Value = { ScriptBusView };

    ghost view = { λ bus. record {
      kept = bus.bus;
      lies = bus.lies;
      adversary = bus.adversary;
      writes = bus.writes;
      script = bus.script;
    } };

    ghost invariant = { λ bus.
        IsScriptBus (record { kept = bus.bus; lies = bus.lies; adversary = bus.adversary; writes = bus.writes; script = bus.script }) };
}

impl ScriptBus {
    /// A memory of zeros for this tree, and a script that fits it. It is refused only out of memory.
    pub fn new(alloc: Global, script: Script, geometry: Geometry) -> Result<ScriptBus, NoMemory>
        requires fits { FitScript geometry script }

        ensures history { IfOk result (λ bus. script_history bus ≡ new_history geometry) }
        ensures script { IfOk result (λ bus. bus.script ≡ script) }
        ensures state { IfOk result (λ bus. state_of bus ≡ new_state geometry) }
    {
        Ok(ScriptBus {
            bus: HonestBus::new(alloc, geometry)?,
            lies: Lies::none(),
            adversary: Adversary::new(alloc, geometry)?,
            writes: PlaceCounts::new(alloc, geometry)?,
            script,
        })
    }

    /// How many answers were false. Without a line there is none, and else the first was given where the script may change
    /// what is stored.
    pub fn lies(&self) -> u64
        ensures lies { result ≡ (script_history self.now).lies }
        ensures without_lines { self.now.script ≡ [] → result ≡ 0 }
        ensures first { IfSome (script_history self.now).lie
            (λ lie. IsTrue (script_may_change self.now.script lie.place)) }
        ensures stored { StoredAsWritten self.now.script (script_history self.now)
            (stored_at (state_of self.now)) }
    {
        self.lies.count
    }
}

impl Bus for ScriptBus {
    ghost history = { script_history };

    ghost moved = { KeepsScript };

    ghost unmoved = { λ _. (refl, refl) };

    ghost moved_on = { keeps_on };

    ghost told = { λ _ _ _ moved. moved.1 };

    /// What is stored at the line's place, once the due actions are done.
    fn read_data(&mut self, line: u32) -> Result<Sealed, NoMemory>
        requires inside { IsPlace (script_history self.old).geometry (Line line) }

        ensures state { OnOk result
            (state_of self.new ≡ after_next_read self.old.script (Line line) (state_of self.old)) }
        ensures counts { OnErr result (self.new.writes ≡ self.old.writes) }
        ensures answer { IfOk result (λ sealed. sealed_bytes sealed
            ≡ stored_at (state_of self.new) (Line line)) }
        ensures is_ok { IsFalse (any_due (next_read (Line line) (state_of self.old))
            self.old.script)
            → IsOk result }

        ensures access { CameBy (script_history self.old) (one_read (Line line) sealed_bytes result)
            (script_history self.new) }
        ensures fits { IfOk result (λ sealed. IsTag (script_history self.old).geometry.layout
            sealed.tag) }
        ensures geometry { (script_history self.new).geometry ≡ (script_history self.old).geometry }
        ensures script { self.new.script ≡ self.old.script }
    {
        let next = NextAccess {
            access: Access::Read(Place::Line(line)),
            accesses_before: self.bus.accesses(),
            same_before: self.bus.line_reads(line),
        };
        self.adversary.act_due(&self.script, next)?;
        let written = self.bus.read_data(line)?;
        let answer = self.adversary.sealed(line);
        let access = self.bus.accesses();
        self.lies.judge_sealed(access, line, &written, &answer);
        Ok(answer)
    }

    fn write_data(&mut self, line: u32, sealed: &Sealed) -> Result<(), NoMemory>
        requires inside { IsPlace (script_history self.old).geometry (Line line) }
        requires fits { IsTag (script_history self.old).geometry.layout sealed.now.tag }

        ensures state { OnOk result (state_of self.new
            ≡ after_next_write self.old.script (Line line) (sealed_bytes sealed.now)
            (state_of self.old)) }
        ensures counts { OnErr result (self.new.writes ≡ self.old.writes) }

        ensures access { CameBy (script_history self.old)
            (one_write (Line line) (sealed_bytes sealed.now) result) (script_history self.new) }
        ensures geometry { (script_history self.new).geometry ≡ (script_history self.old).geometry }
        ensures script { self.new.script ≡ self.old.script }
    {
        let next = NextAccess {
            access: Access::Write(Place::Line(line)),
            accesses_before: self.bus.accesses(),
            same_before: self.writes.of_line(line),
        };
        self.adversary.act_due(&self.script, next)?;
        self.bus.make_room()?;
        self.adversary.put_sealed(line, sealed)?;
        self.bus.write_data(line, sealed)?;
        self.writes.add_line(line);
        Ok(())
    }

    /// What is stored at the node's place, once the due actions are done.
    fn read_node(&mut self, level: u8, index: u32) -> Result<[u8; 64], NoMemory>
        requires inside { IsPlace (script_history self.old).geometry (Node level index) }

        ensures state { OnOk result
            (state_of self.new ≡ after_next_read self.old.script (Node level index)
            (state_of self.old)) }
        ensures counts { OnErr result (self.new.writes ≡ self.old.writes) }
        ensures answer { IfOk result (λ block. block
            ≡ stored_at (state_of self.new) (Node level index)) }
        ensures is_ok { IsFalse (any_due (next_read (Node level index) (state_of self.old))
            self.old.script)
            → IsOk result }

        ensures access { CameBy (script_history self.old)
            (one_read (Node level index) (λ block. block) result) (script_history self.new) }
        ensures geometry { (script_history self.new).geometry ≡ (script_history self.old).geometry }
        ensures script { self.new.script ≡ self.old.script }
    {
        let next = NextAccess {
            access: Access::Read(Place::Node { level, index }),
            accesses_before: self.bus.accesses(),
            same_before: self.bus.node_reads(level, index),
        };
        self.adversary.act_due(&self.script, next)?;
        let written = self.bus.read_node(level, index)?;
        let answer = self.adversary.block(level, index);
        let access = self.bus.accesses();
        self.lies
            .judge_block(access, level, index, &written, &answer);
        Ok(answer)
    }

    fn write_node(&mut self, level: u8, index: u32, block: &[u8; 64]) -> Result<(), NoMemory>
        requires inside { IsPlace (script_history self.old).geometry (Node level index) }

        ensures state { OnOk result (state_of self.new
            ≡ after_next_write self.old.script (Node level index) block.now (state_of self.old)) }
        ensures counts { OnErr result (self.new.writes ≡ self.old.writes) }

        ensures access { CameBy (script_history self.old)
            (one_write (Node level index) block.now result) (script_history self.new) }
        ensures geometry { (script_history self.new).geometry ≡ (script_history self.old).geometry }
        ensures script { self.new.script ≡ self.old.script }
    {
        let next = NextAccess {
            access: Access::Write(Place::Node { level, index }),
            accesses_before: self.bus.accesses(),
            same_before: self.writes.of_node(level, index),
        };
        self.adversary.act_due(&self.script, next)?;
        self.bus.make_room()?;
        self.adversary.put_block(level, index, block)?;
        self.bus.write_node(level, index, block)?;
        self.writes.add_node(level, index);
        Ok(())
    }
}
