// How large the memory is, and the nodes of the tree above it.
ghost use Rattle.std.specs.Prelude.{◌≡◌, ◌↔◌, ◌-◌, ◌/◌, ◌*◌, ◌<◌, ◌≤◌, ◌^◌, IsTrue, IsSome, IfSome};
ghost use Rattle.sec_base.specs.Geometry.{page_count, page_of, line_count, memory_size, IsMemorySize, IsGeometry, IsNode, most_levels, one, width, arity, slot_len, parent, slot, child, node_number, node_end};
ghost use Rattle.sec_base.specs.Place.{IsPlace};
ghost use Rattle.sec_base.specs.Lines.{IsLineCount};

use crate::place::Place;
use std::marker::Model;

/// The bytes of a line.
pub const LINE_LEN: u32 = 64;

/// The lines of a page.
pub const LINES_PER_PAGE: u32 = 64;

/// The bytes of a page.
pub const PAGE_LEN: u32 = 4096;

/// How the nodes above level 0 are laid out: as four slots of 16 bytes, or as eight of 8 bytes.
#[derive(Clone, Copy, Debug, PartialEq, Eq)]
pub enum Layout {
    /// Four children a node, each with 16 bytes of its tag.
    One,
    /// Eight children a node, each with the first 8 bytes of its tag.
    Two,
}

/// The shape of a memory: a tree of so many levels, whose nodes have this layout.
#[derive(Clone, Copy, Debug, PartialEq, Eq)]
pub struct Geometry {
    layout: Layout,
    levels: u8,
}

impl Model for Geometry {
    ghost use Rattle.sec_base.specs.Geometry.{GeometryView, IsGeometry};

    ghost Value = { GeometryView };

    ghost view = { λ geometry. record { layout = geometry.layout; levels = geometry.levels } };

    ghost invariant = { λ geometry. IsGeometry (record { layout = geometry.layout; levels = geometry.levels }) };

    ghost inverse = { λ geometry. record { layout = geometry.layout; levels = geometry.levels } };
}

impl Geometry {
    /// A tree of layout One with so many levels, where they are 1 to 8.
    pub fn new(levels: u8) -> Option<Geometry>
        ensures some { IsSome result ↔ ((1 ≤ levels) × (levels ≤ 8)) }
        ensures geometry { IfSome result (λ geometry. geometry ≡ one levels) }
    {
        Geometry::with(Layout::One, levels)
    }

    /// A tree of this layout with so many levels, where they are 1 to 8 for One and 1 to 5 for Two.
    pub fn with(layout: Layout, levels: u8) -> Option<Geometry>
        ensures some { IsSome result ↔ ((1 ≤ levels) × (levels ≤ most_levels layout)) }
        ensures geometry { IfSome result (λ geometry. geometry
            ≡ record { layout = layout; levels = levels }) }
    {
        let most = match layout {
            Layout::One => 8,
            Layout::Two => 5,
        };
        if (1..=most).contains(&levels) {
            Some(Geometry { layout, levels })
        } else {
            None
        }
    }

    /// The layout of the tree's nodes.
    pub fn layout(&self) -> Layout
        ensures layout { result ≡ self.now.layout }
        ensures some { IsGeometry self.now }
    {
        self.layout
    }

    /// The levels of the tree.
    pub fn levels(&self) -> u8
        ensures levels { result ≡ self.now.levels }
        ensures some { IsGeometry self.now }
    {
        self.levels
    }

    /// The number of children of a node above level 0.
    pub fn arity(&self) -> u32
        ensures arity { result ≡ arity self.now }
    {
        match self.layout {
            Layout::One => 4,
            Layout::Two => 8,
        }
    }

    /// The bytes of a child's tag that a node holds.
    pub fn slot_len(&self) -> usize
        ensures slot_len { result ≡ slot_len self.now }
    {
        match self.layout {
            Layout::One => 16,
            Layout::Two => 8,
        }
    }

    /// How many bits the number of a page has.
    fn page_bits(&self) -> u32
        ensures pages { 2 ^ result ≡ page_count self.now }
        ensures few { result ≤ 16 }
        ensures some { IsGeometry self.now }
    {
        match self.layout {
            Layout::One => 2 * u32::from(self.levels),
            Layout::Two => 3 * u32::from(self.levels),
        }
    }

    /// The number of pages: one for each node of level 0.
    #[tactic(auto, using(crate::proofs::Geometries::few_pages))]
    pub fn pages(&self) -> u32
        ensures pages { result ≡ page_count self.now }
        ensures most { result ≤ 65536 }
    {
        1 << self.page_bits()
    }

    /// The number of lines of 64 bytes, 64 a page.
    #[tactic(auto, using(crate::proofs::Geometries::few_pages))]
    pub fn lines(&self) -> u32
        ensures lines { result ≡ line_count self.now }
        ensures some_memory { IsLineCount result }
    {
        LINES_PER_PAGE << self.page_bits()
    }

    /// The memory's size in bytes.
    #[tactic(auto, using(crate::proofs::Geometries::few_pages))]
    pub fn size(&self) -> u32
        ensures size { result ≡ memory_size self.now }
        ensures some_size { IsMemorySize result }
    {
        PAGE_LEN << self.page_bits()
    }

    /// Whether the place is one of this memory.
    pub fn contains(&self, place: Place) -> bool
        ensures { IsTrue result ↔ IsPlace self.now place }
    {
        match place {
            Place::Line(line) => line < self.lines(),
            Place::Node { level, index } => level <= self.levels && index < self.width(level),
        }
    }

    /// The number of nodes of a level.
    pub fn width(&self, level: u8) -> u32
        requires { level ≤ self.now.levels }
        ensures width { result ≡ width self.now level }
        ensures most { result ≤ 65536 }
    {
        self.arity().pow(u32::from(self.levels - level))
    }

    /// The level and the index of a node's parent. The node of the highest level has none.
    pub fn parent(&self, level: u8, index: u32) -> (u8, u32)
        requires node { IsNode self.now level index }
        requires below { level < self.now.levels }

        ensures parent { result ≡ parent self.now level index }
        ensures inside { IsNode self.now result.0 result.1 }
    {
        let is_below = level < self.levels;
        prove!(is_below);
        (level + 1, index / self.arity())
    }

    /// Which of its parent's children a node is, from 0 on.
    pub fn slot(&self, index: u32) -> u32
        ensures slot { result ≡ slot self.now index }
        ensures inside { result < arity self.now }
    {
        index % self.arity()
    }

    /// The index of a child of a node, by its slot. The child is one level below.
    #[tactic(auto, using(crate::proofs::Numbers::few_nodes))]
    pub fn child(&self, level: u8, index: u32, slot: u32) -> u32
        requires node { IsNode self.now level index }
        requires above { 0 < level }
        requires slot { slot < arity self.now }

        ensures child { result ≡ child self.now index slot }
        ensures inside { IsNode self.now (level - 1) result }
    {
        let is_inside = level <= self.levels;
        prove!(is_inside);
        self.arity() * index + slot
    }

    /// The length of a list that has a place for each node of the tree.
    pub fn node_end(&self) -> u32
        ensures end { result ≡ node_end self.now }
        ensures most { result ≤ 131072 }
    {
        2 * self.pages()
    }

    /// Where a node stands in such a list: the nodes of a level stand from its number of nodes on.
    pub fn node_number(&self, level: u8, index: u32) -> u32
        requires { IsNode self.now level index }

        ensures number { result ≡ node_number self.now level index }
        ensures inside { result < node_end self.now }
    {
        self.width(level) + index
    }
}

/// The page of a line.
#[inline]
pub fn page_of(line: u32) -> u32
    ensures page { result ≡ page_of line }
    ensures number { result ≡ line / 64 }
{
    line / LINES_PER_PAGE
}
