// A tree with its bus and its tag engine, call by call.
ghost use Rattle.std.specs.Prelude.{◌≡◌, ◌<◌, [], ◌∷◌, refl, replicate, slice_index};
ghost use Rattle.bus_model.specs.BusHistory.{NothingWritten};
ghost use Rattle.bus_model.specs.FlipBus.{flip_history};

use bonsai_tree::Tree;
use bus_model::Bus;
use fakes::{Access, CountingBus};
use sec_base::{Evidence, Geometry, Layout, MemStop, Message, NoMemory, Place, Tagger};
use std::alloc::Global;
use std::process::Abort;
use std::test::Fail;
use tag_engine::TagEngine;

// Gives the first byte of each quarter of a node's block, and its level and index.
#[derive(Drop)]
pub(crate) struct Quarters;

impl Tagger for Quarters {
    ghost data_tag_of = { λ _ _. replicate 16 0 };

    ghost node_tag_of = { λ _ m. slice_index m 6 ∷ slice_index m 22 ∷ slice_index m 38 ∷ slice_index m 54 ∷ slice_index m 1
        ∷ slice_index m 2 ∷ 0 ∷ 0 ∷ 0 ∷ 0 ∷ 0 ∷ 0 ∷ 0 ∷ 0 ∷ 0 ∷ 0 ∷ [] };

    ghost data_tag_long = { λ _ _. refl };

    ghost node_tag_long = { λ _ _. refl };

    fn data_tag(&self, _: &[u8; 78]) -> [u8; 16] {
        [0; 16]
    }

    fn node_tag(&self, m: &[u8; 70]) -> [u8; 16] {
        [
            m[6], m[22], m[38], m[54], m[1], m[2], 0, 0, 0, 0, 0, 0, 0, 0, 0, 0,
        ]
    }
}

// A tree of so many levels.
pub(crate) fn shape(layout: Layout, levels: u8) -> Result<Geometry, Fail> {
    Ok(Geometry::with(layout, levels).ok_or("no geometry")?)
}

// A tree with its bus and its tag engine. The bus keeps what it is asked.
#[derive(Drop)]
pub(crate) struct Counted<T: Tagger> {
    geometry: Geometry,
    pub(crate) bus: CountingBus,
    tags: TagEngine<T>,
    tree: Tree,
    ghost bus_fits: { (flip_history bus).geometry ≡ geometry },
    ghost engine_fits: { tags.geometry ≡ geometry },
    ghost tree_fits: { tree.geometry ≡ geometry },
}

// Booted over a bus that nothing was written to.
fn over<T: Tagger>(
    alloc: Global,
    geometry: Geometry,
    bus: CountingBus,
    tagger: T,
) -> Result<Counted<T>, Fail>
    requires geometry { (flip_history bus).geometry ≡ geometry }
    requires nothing_written { NothingWritten (flip_history bus) }
{
    let mut bus = bus;
    let mut tags = TagEngine::new(alloc, tagger, geometry)?;
    let tree = Tree::boot(alloc, geometry, &mut bus, &mut tags)?;
    Ok(Counted {
        geometry,
        bus,
        tags,
        tree,
    })
}

// Over a bus that tells the truth.
pub(crate) fn booted(alloc: Global, geometry: Geometry) -> Result<Counted<Quarters>, Fail> {
    over(
        alloc,
        geometry,
        CountingBus::honest(alloc, geometry)?,
        Quarters,
    )
}

// Over a bus that refuses each access.
pub(crate) fn refusing(alloc: Global, geometry: Geometry) -> Result<Counted<Quarters>, Fail> {
    let mut bus = CountingBus::honest(alloc, geometry)?;
    bus.refuse_after(0);
    over(alloc, geometry, bus, Quarters)
}

// A bit of a byte of a node is flipped at the `k`-th read of it.
pub(crate) fn flipped<T: Tagger>(
    alloc: Global,
    geometry: Geometry,
    node: (u8, u32),
    k: u64,
    offset: u8,
    tagger: T,
) -> Result<Counted<T>, Fail>
    requires { offset < 64 }
{
    let place = Place::Node {
        level: node.0,
        index: node.1,
    };
    let bus = CountingBus::flipping(alloc, geometry, place, k, offset)?;
    over(alloc, geometry, bus, tagger)
}

impl<T: Tagger> Counted<T> {
    pub(crate) fn fetch(&mut self, rt: &impl Abort, page: u32) -> Result<[u8; 64], MemStop> {
        assert!(rt; page < self.geometry.pages());
        self.tree.fetch(&mut self.bus, &mut self.tags, page)
    }

    pub(crate) fn update(
        &mut self,
        rt: &impl Abort,
        page: u32,
        block: &[u8; 64],
    ) -> Result<(), MemStop> {
        assert!(rt; page < self.geometry.pages());
        self.tree.update(&mut self.bus, &mut self.tags, page, block)
    }

    // Why a call is refused: an update with blocks of this byte, or a fetch.
    pub(crate) fn stop(
        &mut self,
        rt: &impl Abort,
        page: u32,
        update: Option<u8>,
    ) -> Option<MemStop> {
        match update {
            Some(byte) => self.update(rt, page, &[byte; 64]).err(),
            None => self.fetch(rt, page).err(),
        }
    }

    // A fetch answers a block of this byte, and asks this.
    pub(crate) fn fetches(&mut self, rt: &impl Abort, page: u32, byte: u8, asked: &[Access]) {
        assert_eq!(rt; self.fetch(rt, page), Ok([byte; 64]));
        assert!(rt; self.asked(asked));
    }

    // A page has a block of this byte.
    pub(crate) fn has(&mut self, rt: &impl Abort, page: u32, byte: u8) {
        assert_eq!(rt; self.fetch(rt, page), Ok([byte; 64]), "{page}");
    }

    // A fetch of any page answers zeros, and asks nothing.
    pub(crate) fn fetches_zeros(&mut self, rt: &impl Abort) {
        for page in 0..self.geometry.pages() {
            self.fetches(rt, page, 0, &[]);
        }
    }

    // A page gets a block of this byte, which asks this.
    pub(crate) fn updates(&mut self, rt: &impl Abort, page: u32, byte: u8, asked: &[Access]) {
        assert_eq!(rt; self.update(rt, page, &[byte; 64]), Ok(()));
        assert!(rt; self.asked(asked));
    }

    // A page gets a block of this byte, where there is one, or is fetched and has that of the other. The byte that it has then.
    pub(crate) fn follow(
        &mut self,
        rt: &impl Abort,
        page: u32,
        known: u8,
        update: Option<u8>,
    ) -> u8 {
        match update {
            Some(byte) => {
                assert_eq!(rt; self.update(rt, page, &[byte; 64]), Ok(()));
                byte
            }
            None => {
                assert_eq!(rt; self.fetch(rt, page), Ok([known; 64]));
                known
            }
        }
    }

    // How many messages were made, and the evidence.
    pub(crate) fn finish(self) -> (u64, Option<Evidence>) {
        let Counted {
            geometry: _,
            bus: _bus,
            tags,
            tree: _tree,
        } = self;
        let (made, evidence) = tags.finish();
        (made.len(), evidence)
    }

    // The evidence, and a message that was made.
    pub(crate) fn shown(self, made_at: u64) -> (Option<Evidence>, Option<Message>) {
        let Counted {
            geometry: _,
            bus: _bus,
            tags,
            tree: _tree,
        } = self;
        let (made, evidence) = tags.finish();
        (evidence, made.get(made_at))
    }

    // Whether this was asked since the last call of it, in this order.
    pub(crate) fn asked(&mut self, asked: &[Access]) -> bool {
        let same = self.bus.log() == asked;
        self.bus.clear_log();
        same
    }

    // How often anything was asked since the last call of it.
    pub(crate) fn accesses(&mut self) -> usize {
        let count = self.bus.log().len();
        self.bus.clear_log();
        count
    }

    // What a node's place holds.
    pub(crate) fn stored(
        &mut self,
        rt: &impl Abort,
        level: u8,
        index: u32,
    ) -> Result<[u8; 64], NoMemory> {
        assert!(rt; self.geometry.contains(Place::Node { level, index }));
        self.bus.read_node(level, index)
    }

    pub(crate) fn store(
        &mut self,
        rt: &impl Abort,
        level: u8,
        index: u32,
        block: &[u8; 64],
    ) -> Result<(), NoMemory> {
        assert!(rt; self.geometry.contains(Place::Node { level, index }));
        self.bus.write_node(level, index, block)
    }

    // Each page gets a block in turn, and then each is fetched. The pass and the page at which a call meets the flipped bit as
    // tampering of the node, if one does; all others do what they should.
    pub(crate) fn caught_at(
        &mut self,
        rt: &impl Abort,
        level: u8,
        index: u32,
    ) -> Option<(u8, u32)> {
        let tampered = MemStop::Tampered(Place::Node { level, index });
        let mut caught = None;
        for page in 0..self.geometry.pages() {
            if let Err(stop) = self.update(rt, page, &[7; 64]) {
                assert_eq!(rt; stop, tampered, "page {page}");
                assert_eq!(rt; caught, None, "page {page}");
                caught = Some((0, page));
            }
        }
        for page in 0..self.geometry.pages() {
            let byte = if caught == Some((0, page)) { 0 } else { 7 };
            match self.fetch(rt, page) {
                Ok(block) => assert_eq!(rt; block, [byte; 64], "page {page}"),
                Err(stop) => {
                    assert_eq!(rt; stop, tampered, "page {page}");
                    assert_eq!(rt; caught, None, "page {page}");
                    caught = Some((1, page));
                }
            }
        }
        assert_eq!(rt; self.bus.lies() == 1, caught.is_some());
        caught
    }
}

// The layouts, each with so many levels that level 1 has 64 nodes in 8 sets, and how far apart the pages are whose nodes of level
// 1 share a set of two ways: those of nodes 0, 8 and 16.
pub(crate) const TALL: [(Layout, u8, u32); 2] = [(Layout::One, 4, 32), (Layout::Two, 3, 64)];
