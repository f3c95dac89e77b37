// A bus that answers what stood there before.
ghost use Rattle.std.specs.Prelude.{◌≡◌, refl, IfOk, IfSome};
ghost use Rattle.sec_base.specs.Tag.{IsTag};
ghost use Rattle.sec_base.specs.declared.geometry.Layout.{Layout};
ghost use Rattle.bus_model.specs.Access.{CameBy, came_on};
ghost use Rattle.bus_model.specs.BusHistory.{NothingWritten};
ghost use Rattle.fakes.specs.ReplayBus.{KeepsTags, replay_history};

use bus_model::{Bus, HonestBus};
use sec_base::{Geometry, NoMemory, Place, Sealed, page_of};
use std::alloc::Global;
use std::marker::Model;

/// What is replayed, and from when on.
#[derive(Clone, Copy, Debug)]
pub struct Replay {
    /// The line whose path is replayed.
    pub line: u32,
    /// Whether the line is replayed too.
    pub with_line: bool,
    /// The nodes on its path below this level, which is 3 at most.
    pub below: u8,
    /// It begins as this place is written for so many times.
    pub start: Place,
    pub writes: u64,
}

/// A bus that answers what a line and nodes on its path held before they were written last. To contracts it has answered
/// falsely as often as can be counted from the start.
#[derive(Drop)]
pub struct ReplayBus {
    bus: HonestBus,
    stale: Stale,
    lies: u64,
}

impl Model for ReplayBus {
    ghost use Rattle.bus_model.specs.HonestBus.{HonestBusView};
    ghost use Rattle.fakes.specs.ReplayBus.{KeepsTags};

    ghost Value = { HonestBusView };

    ghost view = { λ bus. bus.bus };

    ghost invariant = { λ bus. KeepsTags bus.bus.geometry.layout bus.stale };
}

impl ReplayBus {
    /// Over an honest memory that nothing was written to yet. Fails only if out of memory.
    pub fn new(alloc: Global, geometry: Geometry, replay: Replay) -> Result<ReplayBus, NoMemory>
        ensures nothing_written { IfOk result (λ bus. NothingWritten (replay_history bus)) }
        ensures geometry { IfOk result (λ bus. (replay_history bus).geometry ≡ geometry) }
    {
        Ok(ReplayBus {
            bus: HonestBus::new(alloc, geometry)?,
            stale: Stale::new(geometry, replay),
            lies: 0,
        })
    }

    /// How many answers were false.
    pub fn lies(&self) -> u64 {
        self.lies
    }
}

impl Bus for ReplayBus {
    ghost history = { replay_history };

    ghost moved = { λ old accesses new. CameBy (replay_history old) accesses (replay_history new) };

    ghost unmoved = { λ _. refl };

    ghost moved_on = { λ first second third. came_on (replay_history first) (replay_history second) (replay_history third) };

    ghost told = { λ _ _ _ moved. moved };

    fn read_data(&mut self, line: u32) -> Result<Sealed, NoMemory> {
        let sealed = self.bus.read_data(line)?;
        let answer = self.stale.line(line).unwrap_or(sealed);
        self.lies = self.lies.saturating_add(u64::from(answer != sealed));
        Ok(answer)
    }

    fn write_data(&mut self, line: u32, sealed: &Sealed) -> Result<(), NoMemory> {
        self.bus.write_data(line, sealed)?;
        self.stale.keep_line(line, sealed);
        Ok(())
    }

    fn read_node(&mut self, level: u8, index: u32) -> Result<[u8; 64], NoMemory> {
        let block = self.bus.read_node(level, index)?;
        let answer = self.stale.node(level, index).unwrap_or(block);
        self.lies = self.lies.saturating_add(u64::from(answer != block));
        Ok(answer)
    }

    fn write_node(&mut self, level: u8, index: u32, block: &[u8; 64]) -> Result<(), NoMemory> {
        self.bus.write_node(level, index, block)?;
        self.stale.keep_node(level, index, block);
        Ok(())
    }
}

// A node on the path: what stands at its place, and what stood there before.
#[derive(Clone, Copy, Debug)]
struct PathNode {
    index: u32,
    last: [u8; 64],
    before: [u8; 64],
}

impl PathNode {
    fn new(index: u32) -> PathNode {
        PathNode {
            index,
            last: [0; 64],
            before: [0; 64],
        }
    }
}

// What stands at the places of the line and of the nodes on its path, from the counter block up, and what stood there before
// the last write; and how often the place was written that begins it.
#[derive(Clone, Copy, Debug)]
struct Stale {
    replay: Replay,
    writes: u64,
    last: Sealed,
    before: Sealed,
    path: [PathNode; 3],
}

impl Stale {
    fn new(geometry: Geometry, replay: Replay) -> Stale
        ensures { KeepsTags geometry.layout result }
    {
        let zeros = Sealed {
            cipher: [0; 64],
            tag: [0; 16],
        };
        let page = page_of(replay.line);
        let above = page / geometry.arity();
        Stale {
            replay,
            writes: 0,
            last: zeros,
            before: zeros,
            path: [
                PathNode::new(page),
                PathNode::new(above),
                PathNode::new(above / geometry.arity()),
            ],
        }
    }

    fn count(&mut self, place: Place)
        ensures last { self.new.last ≡ self.old.last }
        ensures before { self.new.before ≡ self.old.before }
    {
        if place == self.replay.start {
            self.writes = self.writes.saturating_add(1);
        }
    }

    fn keep_line(&mut self, line: u32, sealed: &Sealed)
        ensures { (layout : Layout) → IsTag layout sealed.now.tag → KeepsTags layout self.old →
            KeepsTags layout self.new }
    {
        self.count(Place::Line(line));
        if line == self.replay.line {
            self.before = self.last;
            self.last = *sealed;
        }
    }

    fn keep_node(&mut self, level: u8, index: u32, block: &[u8; 64])
        ensures last { self.new.last ≡ self.old.last }
        ensures before { self.new.before ≡ self.old.before }
    {
        self.count(Place::Node { level, index });
        if let Some(node) = self.path.get_mut(usize::from(level)) {
            if node.index == index {
                node.before = node.last;
                node.last = *block;
            }
        }
    }

    fn has_begun(&self) -> bool {
        self.writes >= self.replay.writes
    }

    // What is replayed of a line, if it is one that is.
    fn line(&self, line: u32) -> Option<Sealed>
        ensures { IfSome result (λ sealed. sealed ≡ self.now.before) }
    {
        if self.replay.with_line && self.has_begun() && line == self.replay.line {
            Some(self.before)
        } else {
            None
        }
    }

    // What is replayed of a node, if it is one that is.
    fn node(&self, level: u8, index: u32) -> Option<[u8; 64]> {
        let node = self.path.get(usize::from(level))?;
        if level < self.replay.below && self.has_begun() && node.index == index {
            Some(node.before)
        } else {
            None
        }
    }
}
