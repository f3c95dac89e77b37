// A bus that answers what stood there before.
ghost use Rattle.std.specs.Prelude.{◌≡◌, ◌==◌, ◌++◌, refl, IfOk, Some, if◌then◌else◌, not};
ghost use Rattle.std.specs.Str.{bytes_eq};
ghost use Rattle.sec_base.specs.Count.{more_by};
ghost use Rattle.sec_base.specs.Evidence.{sealed_bytes};
ghost use Rattle.sec_base.specs.Tag.{IsTag};
ghost use Rattle.sec_base.specs.declared.geometry.Layout.{Layout};
ghost use Rattle.bus_model.specs.Access.{CameBy, came_on};
ghost use Rattle.bus_model.specs.BusHistory.{new_history};
ghost use Rattle.test_protected_runs.specs.ReplayBus.{replay_history};

use bus_model::{Bus, HonestBus};
use sec_base::{Geometry, NoMemory, Place, Sealed};
use std::alloc::{AllocError, Global};
use std::marker::Model;

// A false answer: which access it was, its place and its bytes.
#[derive(Debug, Drop)]
struct FalseAnswer {
    access: u64,
    place: Place,
    bytes: Vec<u8>,
}

// How many answers were false, and the first of them.
#[derive(Debug, Drop)]
struct Lies {
    count: u64,
    first: Option<FalseAnswer>,
}

impl Lies {
    // Counts a false answer.
    fn tell(&mut self, access: u64, place: Place, bytes: Vec<u8>)
        ensures count { self.new.count ≡ more_by 1 self.old.count }
        ensures first { self.new.first ≡ (if self.old.count == 0
            then Some (record { access = access; place = place; bytes = bytes }) else
            self.old.first) }
    {
        if self.count == 0 {
            self.first = Some(FalseAnswer {
                access,
                place,
                bytes,
            });
        }
        self.count = self.count.saturating_add(1);
    }
}

// What stood at the places of line 2053, of its counter block (0, 32) and of the node (1, 8) above that as the node went out
// for the first time; from the second time on it is replayed.
#[derive(Clone, Copy, Debug)]
struct Stale {
    line: Sealed,
    counters: [u8; 64],
    node: [u8; 64],
    is_kept: bool,
    is_replayed: bool,
}

impl Stale {
    // Nothing is kept yet.
    fn nothing() -> Stale
        ensures { (layout : Layout) → IsTag layout result.line.tag }
    {
        let line = Sealed {
            cipher: [0; 64],
            tag: [0; 16],
        };
        Stale {
            line,
            counters: [0; 64],
            node: [0; 64],
            is_kept: false,
            is_replayed: false,
        }
    }

    fn keep_line(&mut self, line: u32, sealed: &Sealed)
        ensures { (layout : Layout) → IsTag layout sealed.now.tag → IsTag layout self.old.line.tag →
            IsTag layout self.new.line.tag }
    {
        if line == 2053 && !self.is_kept {
            self.line = *sealed;
        }
    }

    fn keep_node(&mut self, level: u8, index: u32, block: &[u8; 64])
        ensures { self.new.line ≡ self.old.line }
    {
        match (level, index, self.is_kept) {
            (0, 32, false) => self.counters = *block,
            (1, 8, false) => {
                self.node = *block;
                self.is_kept = true;
            }
            (1, 8, true) => self.is_replayed = true,
            _ => {}
        }
    }

    // The line is replayed.
    fn replays(&self, line: u32) -> bool {
        self.is_replayed && line == 2053
    }

    // What is replayed of a node, if it is one that is.
    fn node(&self, level: u8, index: u32) -> Option<[u8; 64]> {
        match (self.is_replayed, level, index) {
            (true, 0, 32) => Some(self.counters),
            (true, 1, 8) => Some(self.node),
            _ => None,
        }
    }
}

// It replays line 2053, and the nodes on its path below a level.
#[derive(Drop)]
pub(crate) struct ReplayBus {
    bus: HonestBus,
    alloc: Global,
    below: u8,
    stale: Stale,
    accesses: u64,
    lies: Lies,
}

impl Model for ReplayBus {
    ghost use Rattle.std.specs.Option.{option_map};
    ghost use Rattle.sec_base.specs.Tag.{IsTag};
    ghost use Rattle.test_protected_runs.specs.ReplayBus.{ReplayBusView};

    ghost Value = { ReplayBusView };

    ghost view = { λ bus. record {
      kept = bus.bus;
      accesses = bus.accesses;
      lies = bus.lies.count;
      lie = option_map (λ answer. record { access = answer.access; place = answer.place; bytes = answer.bytes.items }) bus.lies.first;
    } };

    ghost invariant = { λ bus. IsTag bus.bus.geometry.layout bus.stale.line.tag };
}

impl ReplayBus {
    pub(crate) fn new(alloc: Global, geometry: Geometry, below: u8) -> Result<ReplayBus, NoMemory>
        ensures { IfOk result (λ bus. replay_history bus ≡ new_history geometry) }
    {
        Ok(ReplayBus {
            bus: HonestBus::new(alloc, geometry)?,
            alloc,
            below,
            stale: Stale::nothing(),
            accesses: 0,
            lies: Lies {
                count: 0,
                first: None,
            },
        })
    }

    // How many answers were false.
    pub(crate) fn lies(&self) -> u64 {
        self.lies.count
    }
}

impl Bus for ReplayBus {
    ghost history = { replay_history };

    ghost moved = { λ old accesses new. CameBy (replay_history old) accesses (replay_history new) };

    ghost unmoved = { λ _. refl };

    ghost moved_on = { λ first second third. came_on (replay_history first) (replay_history second) (replay_history third) };

    ghost told = { λ _ _ _ moved. moved };

    fn read_data(&mut self, line: u32) -> Result<Sealed, NoMemory> {
        let answer = self.stale.line;
        let bytes = bytes_of(self.alloc, &answer)?;
        let sealed = self.bus.read_data(line)?;
        self.accesses = self.accesses.saturating_add(1);
        if !self.stale.replays(line) {
            return Ok(sealed);
        }
        if !differs(answer, sealed) {
            return Ok(sealed);
        }
        self.lies.tell(self.accesses, Place::Line(line), bytes);
        Ok(answer)
    }

    fn write_data(&mut self, line: u32, sealed: &Sealed) -> Result<(), NoMemory> {
        self.bus.write_data(line, sealed)?;
        self.accesses = self.accesses.saturating_add(1);
        self.stale.keep_line(line, sealed);
        Ok(())
    }

    fn read_node(&mut self, level: u8, index: u32) -> Result<[u8; 64], NoMemory> {
        let stale = if level < self.below {
            self.stale.node(level, index)
        } else {
            None
        };
        let answer = stale.unwrap_or([0; 64]);
        let bytes = Vec::from_slice(self.alloc, &answer)?;
        let block = self.bus.read_node(level, index)?;
        self.accesses = self.accesses.saturating_add(1);
        if stale.is_none() {
            return Ok(block);
        }
        if answer == block {
            return Ok(block);
        }
        self.lies
            .tell(self.accesses, Place::Node { level, index }, bytes);
        Ok(answer)
    }

    fn write_node(&mut self, level: u8, index: u32, block: &[u8; 64]) -> Result<(), NoMemory> {
        self.bus.write_node(level, index, block)?;
        self.accesses = self.accesses.saturating_add(1);
        self.stale.keep_node(level, index, block);
        Ok(())
    }
}

// What stands at the place of a line.
fn bytes_of(alloc: Global, sealed: &Sealed) -> Result<Vec<u8>, AllocError>
    ensures { IfOk result (λ bytes. bytes.items ≡ sealed_bytes sealed.now) }
{
    let mut bytes = Vec::from_slice(alloc, &sealed.cipher)?;
    bytes.extend_from_slice(&sealed.tag)?;
    Ok(bytes)
}

fn differs(first: Sealed, second: Sealed) -> bool
    ensures { result ≡ not (bytes_eq (sealed_bytes first) (sealed_bytes second)) }
{
    first != second
}
