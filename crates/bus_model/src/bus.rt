// The bus that leads outside the chip.
ghost use Rattle.std.specs.Prelude.{◌≡◌, IfOk, List, [], ◌++◌};
ghost use Rattle.sec_base.specs.Evidence.{sealed_bytes};
ghost use Rattle.sec_base.specs.Place.{IsPlace};
ghost use Rattle.sec_base.specs.Tag.{IsTag};
ghost use Rattle.sec_base.specs.declared.place.Place.TheVariants.{Line, Node};
ghost use Rattle.bus_model.specs.Access.{Access, one_read, one_write, CameBy};
ghost use Rattle.bus_model.specs.BusHistory.{BusHistory};

use sec_base::{NoMemory, Sealed};

/// A bus to the memory outside the chip. A read may answer anything that fits its place. What was written, how many answers
/// were false and which was the first are meanings: no call tells them.
pub trait Bus {
    /// What it was asked and what it answered.
    ghost history: { Self → BusHistory };

    /// What calls make of the bus by their accesses, one after another.
    ghost moved: { Self → List Access → Self → Type 0 };

    /// What the place of a data line holds: a tag that the layout of the tree allows is part of it. It is refused only out
    /// of memory.
    fn read_data(&mut self, line: u32) -> Result<Sealed, NoMemory>
        requires inside { IsPlace (history self.old).geometry (Line line) }

        ensures access { moved self.old (one_read (Line line) sealed_bytes result) self.new }
        ensures fits { IfOk result (λ sealed. IsTag (history self.old).geometry.layout sealed.tag) }
        ensures geometry { (history self.new).geometry ≡ (history self.old).geometry };

    /// Puts a line and its tag at the line's place. It is refused only out of memory.
    fn write_data(&mut self, line: u32, sealed: &Sealed) -> Result<(), NoMemory>
        requires inside { IsPlace (history self.old).geometry (Line line) }
        requires fits { IsTag (history self.old).geometry.layout sealed.now.tag }

        ensures access { moved self.old (one_write (Line line) (sealed_bytes sealed.now) result)
            self.new }
        ensures geometry { (history self.new).geometry ≡ (history self.old).geometry };

    /// What the place of a node holds. It is refused only out of memory.
    fn read_node(&mut self, level: u8, index: u32) -> Result<[u8; 64], NoMemory>
        requires inside { IsPlace (history self.old).geometry (Node level index) }

        ensures access { moved self.old (one_read (Node level index) (λ block. block) result)
            self.new }
        ensures geometry { (history self.new).geometry ≡ (history self.old).geometry };

    /// Puts a block at a node's place. It is refused only out of memory.
    fn write_node(&mut self, level: u8, index: u32, block: &[u8; 64]) -> Result<(), NoMemory>
        requires inside { IsPlace (history self.old).geometry (Node level index) }

        ensures access { moved self.old (one_write (Node level index) block.now result) self.new }
        ensures geometry { (history self.new).geometry ≡ (history self.old).geometry };

    /// No access makes nothing of the bus.
    ghost unmoved: { (bus : Self) → moved bus [] bus };

    /// What accesses make after others, they make together.
    ghost moved_on: { (first second third : Self) (before after : List Access) →
        moved first before second → moved second after third → moved first (before ++ after) third };

    /// They are all that the history tells.
    ghost told: { (old new : Self) (accesses : List Access) →
        moved old accesses new → CameBy (history old) accesses (history new) };
}
