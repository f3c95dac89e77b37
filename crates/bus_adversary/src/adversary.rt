// The memory outside the chip, as an adversary has it: the stored places, and 16 registers.
ghost use Rattle.adversary_script.specs.Script.{FitScript, Fits};
ghost use Rattle.bus_adversary.specs.ChangedPlaces.{ChangesOnly, may_change, script_may_change};
ghost use Rattle.bus_adversary.specs.Adversary.{after_action, after_due, after_line, after_restore, after_restore_all, any_due, new_adversary, after_put, register_of, with_register};
ghost use Rattle.bus_adversary.specs.NextAccess.{is_due};
ghost use Rattle.bus_adversary.specs.PlaceBytes.{with_mask, with_bytes};
ghost use Rattle.bus_adversary.specs.StoredPlaces.{bytes_at};
ghost use Rattle.bus_adversary.specs.declared.adversary.Register.TheVariants.{AllPlaces, Empty};
ghost use Rattle.sec_base.specs.Evidence.{sealed_bytes};
ghost use Rattle.sec_base.specs.Place.{IsPlace, place_eq, place_size, stored_size, zeros_of};
ghost use Rattle.sec_base.specs.Tag.{IsTag};
ghost use Rattle.sec_base.specs.declared.place.Place.TheVariants.{Line, Node};
ghost use Rattle.std.specs.Prelude.{IfOk, IsFalse, IsOk, OnErr, OnOk, length, replicate, slice_index_or, ◌+◌, ◌<◌, ◌||◌, ◌≡◌, ◌≤◌};

use crate::next_access::NextAccess;
use crate::place_bytes::{bytes_of, flip_at, sealed_of, set_at};
use crate::stored_places::StoredPlaces;
use adversary_script::{Action, Script, ScriptLine};
use sec_base::{Geometry, NoMemory, Place, Sealed};
use std::alloc::Global;
use std::marker::Model;

/// What a register keeps.
#[derive(Debug, Drop)]
pub enum Register {
    Empty,
    Line([u8; 80]),
    Node([u8; 64]),
    AllPlaces(StoredPlaces),
}

// The stored places, and the registers.
#[derive(Debug, Drop)]
pub(crate) struct Adversary {
    places: StoredPlaces,
    registers: Vec<Register>,
}

impl Model for Adversary {
    ghost use Rattle.bus_adversary.specs.Adversary.{AdversaryView, FitsRegister};
    ghost use Rattle.std.specs.Prelude.{All, length, ◌≡◌};

    ghost Value = { AdversaryView };

    ghost view = { λ adversary. record { places = adversary.places; registers = adversary.registers.items } };

    ghost invariant = { λ adversary.
        (length adversary.registers.items ≡ 16) × All (FitsRegister adversary.places.geometry) adversary.registers.items };
}

impl Adversary {
    // Zeros at each place, and empty registers.
    pub(crate) fn new(alloc: Global, geometry: Geometry) -> Result<Adversary, NoMemory>
        ensures { IfOk result (λ adversary. adversary ≡ new_adversary geometry) }
    {
        Ok(Adversary {
            places: StoredPlaces::new(alloc, geometry),
            registers: empty_registers(alloc)?,
        })
    }

    // Does the actions that are due before an access, in the order of the script.
    pub(crate) fn act_due(&mut self, script: &Script, next: NextAccess) -> Result<(), NoMemory>
        requires { FitScript self.old.places.geometry script.now }
        ensures ok { OnOk result (self.new ≡ after_due next script.now self.old) }
        ensures sure { IsFalse (any_due next script.now) → IsOk result }
        ensures geometry { self.new.places.geometry ≡ self.old.places.geometry }
        ensures changes { ChangesOnly self.old.places self.new.places
            (script_may_change script.now) }
    {
        for line in script.as_slice() {
            self.act_line(line, next)?;
        }
        Ok(())
    }

    // Does a line's action, where it is due.
    fn act_line(&mut self, line: &ScriptLine, next: NextAccess) -> Result<(), NoMemory>
        requires { Fits self.old.places.geometry line.now.action }
        ensures ok { OnOk result (self.new ≡ after_line next self.old line.now) }
        ensures sure { IsFalse (is_due next line.now.trigger) → IsOk result }
        ensures geometry { self.new.places.geometry ≡ self.old.places.geometry }
        ensures changes { ChangesOnly self.old.places self.new.places (may_change line.now.action) }
    {
        if next.is_due(line.trigger) {
            self.act(&line.action)?;
        }
        Ok(())
    }

    fn act(&mut self, action: &Action) -> Result<(), NoMemory>
        requires { Fits self.old.places.geometry action.now }
        ensures ok { OnOk result (self.new ≡ after_action action.now self.old) }
        ensures geometry { self.new.places.geometry ≡ self.old.places.geometry }
        ensures changes { ChangesOnly self.old.places self.new.places (may_change action.now) }
    {
        match action {
            Action::Set {
                place,
                offset,
                bytes,
            } => self.set(*place, *offset, bytes.as_slice())?,
            Action::Flip {
                place,
                offset,
                mask,
            } => self.flip(*place, *offset, mask.as_slice())?,
            Action::Swap { first, second } => self.swap(*first, *second)?,
            Action::Put { place, bytes } => self.put(*place, bytes.as_slice())?,
            Action::Save { register, place } => self.save(*register, *place),
            Action::Restore { register, place } => self.restore(*register, *place)?,
            Action::SaveAll(register) => self.save_all(*register)?,
            Action::RestoreAll(register) => self.restore_all(*register)?,
        }
        Ok(())
    }

    fn set(&mut self, place: Place, offset: u8, bytes: &[u8]) -> Result<(), NoMemory>
        requires inside { IsPlace self.old.places.geometry place }
        requires fits { offset + length bytes.now ≤ stored_size self.old.places.geometry place }
        ensures ok { OnOk result
            (self.new ≡ after_put place
            (with_bytes offset bytes.now (bytes_at self.old.places place)) self.old) }
        ensures err { OnErr result (self.new ≡ self.old) }
    {
        match place {
            Place::Line(line) => {
                let mut stored = self.places.line(line);
                set_at(&mut stored, offset as usize, bytes);
                self.places.set_line(line, stored)
            }
            Place::Node { level, index } => {
                let mut stored = self.places.node(level, index);
                set_at(&mut stored, offset as usize, bytes);
                self.places.set_node(level, index, stored)
            }
        }
    }

    fn flip(&mut self, place: Place, offset: u8, mask: &[u8]) -> Result<(), NoMemory>
        requires inside { IsPlace self.old.places.geometry place }
        requires fits { offset + length mask.now ≤ stored_size self.old.places.geometry place }
        ensures ok { OnOk result
            (self.new ≡ after_put place (with_mask offset mask.now (bytes_at self.old.places place))
            self.old) }
        ensures err { OnErr result (self.new ≡ self.old) }
    {
        match place {
            Place::Line(line) => {
                let mut bytes = self.places.line(line);
                flip_at(&mut bytes, offset as usize, mask);
                self.places.set_line(line, bytes)
            }
            Place::Node { level, index } => {
                let mut bytes = self.places.node(level, index);
                flip_at(&mut bytes, offset as usize, mask);
                self.places.set_node(level, index, bytes)
            }
        }
    }

    fn swap(&mut self, first: Place, second: Place) -> Result<(), NoMemory>
        requires first { IsPlace self.old.places.geometry first }
        requires second { IsPlace self.old.places.geometry second }
        requires one_kind { place_size first ≡ place_size second }
        ensures ok { OnOk result (self.new
            ≡ after_put second (bytes_at self.old.places first)
            (after_put first (bytes_at self.old.places second) self.old)) }
        ensures geometry { self.new.places.geometry ≡ self.old.places.geometry }
        ensures changes { ChangesOnly self.old.places self.new.places
            (λ place. place_eq place first || place_eq place second) }
    {
        match (first, second) {
            (Place::Line(line), Place::Line(other)) => {
                let one = self.places.line(line);
                let two = self.places.line(other);
                self.places.set_line(line, two)?;
                self.places.set_line(other, one)?;
            }
            (
                Place::Node { level, index },
                Place::Node {
                    level: other,
                    index: at,
                },
            ) => {
                let one = self.places.node(level, index);
                let two = self.places.node(other, at);
                self.places.set_node(level, index, two)?;
                self.places.set_node(other, at, one)?;
            }
            _ => {}
        }
        Ok(())
    }

    // Puts bytes at the front of a place, and zeros behind them.
    fn put(&mut self, place: Place, bytes: &[u8]) -> Result<(), NoMemory>
        requires inside { IsPlace self.old.places.geometry place }
        requires fits { length bytes.now ≡ stored_size self.old.places.geometry place }
        ensures ok { OnOk result (self.new
            ≡ after_put place (with_bytes 0 bytes.now (zeros_of place)) self.old) }
        ensures err { OnErr result (self.new ≡ self.old) }
    {
        match place {
            Place::Line(line) => {
                let mut stored = [0; 80];
                set_at(&mut stored, 0, bytes);
                self.places.set_line(line, stored)
            }
            Place::Node { level, index } => {
                let mut stored = [0; 64];
                set_at(&mut stored, 0, bytes);
                self.places.set_node(level, index, stored)
            }
        }
    }

    fn save(&mut self, register: u8, place: Place)
        requires inside { IsPlace self.old.places.geometry place }
        requires fits { register < 16 }
        ensures { self.new ≡ with_register register
            (register_of place (bytes_at self.old.places place)) self.old }
    {
        let value = match place {
            Place::Line(line) => Register::Line(self.places.line(line)),
            Place::Node { level, index } => Register::Node(self.places.node(level, index)),
        };
        self.registers[register as usize] = value;
    }

    fn restore(&mut self, register: u8, place: Place) -> Result<(), NoMemory>
        requires inside { IsPlace self.old.places.geometry place }
        requires fits { register < 16 }
        ensures ok { OnOk result
            (self.new ≡ after_restore (slice_index_or self.old.registers register Empty) place
            self.old) }
        ensures err { OnErr result (self.new ≡ self.old) }
    {
        match (&self.registers[register as usize], place) {
            (Register::Line(bytes), Place::Line(line)) => self.places.set_line(line, *bytes),
            (Register::Node(bytes), Place::Node { level, index }) => self
                .places
                .set_node(level, index, *bytes),
            _ => Ok(()),
        }
    }

    fn save_all(&mut self, register: u8) -> Result<(), NoMemory>
        requires fits { register < 16 }
        ensures ok { OnOk result (self.new
            ≡ with_register register (AllPlaces self.old.places) self.old) }
        ensures err { OnErr result (self.new ≡ self.old) }
    {
        let places = self.places.copy()?;
        self.registers[register as usize] = Register::AllPlaces(places);
        Ok(())
    }

    fn restore_all(&mut self, register: u8) -> Result<(), NoMemory>
        requires fits { register < 16 }
        ensures ok { OnOk result
            (self.new ≡ after_restore_all (slice_index_or self.old.registers register Empty)
            self.old) }
        ensures err { OnErr result (self.new ≡ self.old) }
        ensures geometry { self.new.places.geometry ≡ self.old.places.geometry }
    {
        if let Register::AllPlaces(places) = &self.registers[register as usize] {
            let places = places.copy()?;
            self.places = places;
        }
        Ok(())
    }

    // The line and the tag that are stored.
    pub(crate) fn sealed(&self, line: u32) -> Sealed
        requires { IsPlace self.now.places.geometry (Line line) }
        ensures bytes { sealed_bytes result ≡ bytes_at self.now.places (Line line) }
        ensures fits { IsTag self.now.places.geometry.layout result.tag }
    {
        sealed_of(&self.places.line(line))
    }

    pub(crate) fn block(&self, level: u8, index: u32) -> [u8; 64]
        requires { IsPlace self.now.places.geometry (Node level index) }
        ensures { result ≡ bytes_at self.now.places (Node level index) }
    {
        self.places.node(level, index)
    }

    pub(crate) fn put_sealed(&mut self, line: u32, sealed: &Sealed) -> Result<(), NoMemory>
        requires inside { IsPlace self.old.places.geometry (Line line) }
        requires fits { IsTag self.old.places.geometry.layout sealed.now.tag }
        ensures ok { OnOk result (self.new
            ≡ after_put (Line line) (sealed_bytes sealed.now) self.old) }
        ensures here { OnOk result (bytes_at self.new.places (Line line)
            ≡ sealed_bytes sealed.now) }
        ensures err { OnErr result (self.new ≡ self.old) }
    {
        self.places.set_line(line, bytes_of(sealed))
    }

    pub(crate) fn put_block(
        &mut self,
        level: u8,
        index: u32,
        block: &[u8; 64],
    ) -> Result<(), NoMemory>
        requires { IsPlace self.old.places.geometry (Node level index) }
        ensures ok { OnOk result (self.new ≡ after_put (Node level index) block.now self.old) }
        ensures here { OnOk result (bytes_at self.new.places (Node level index) ≡ block.now) }
        ensures err { OnErr result (self.new ≡ self.old) }
    {
        self.places.set_node(level, index, *block)
    }
}

fn empty_registers(alloc: Global) -> Result<Vec<Register>, NoMemory>
    ensures { IfOk result (λ registers. registers.items ≡ replicate 16 Empty) }
{
    let mut registers = Vec::new(alloc);
    for _ in 0..16u8 {
        registers.push(Register::Empty)?;
    }
    Ok(registers)
}
