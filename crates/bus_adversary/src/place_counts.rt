// A count for each place.
ghost use Rattle.bus_adversary.specs.PlaceCounts.{count_at, new_counts, with_one_more};
ghost use Rattle.sec_base.specs.Place.{IsPlace};
ghost use Rattle.sec_base.specs.declared.place.Place.TheVariants.{Line, Node};
ghost use Rattle.std.specs.Prelude.{IfOk, ◌≡◌};

use sec_base::{Geometry, NoMemory};
use std::alloc::Global;
use std::marker::Model;

// How often something happened at each place.
#[derive(Debug, Drop)]
pub(crate) struct PlaceCounts {
    geometry: Geometry,
    lines: Vec<u64>,
    nodes: Vec<u64>,
}

impl Model for PlaceCounts {
    ghost use Rattle.bus_adversary.specs.PlaceCounts.{PlaceCountsView};
    ghost use Rattle.sec_base.specs.Geometry.{line_count, node_end};
    ghost use Rattle.std.specs.Prelude.{length, ◌≡◌};

    ghost Value = { PlaceCountsView };

    ghost view = { λ counts. record {
      geometry = counts.geometry;
      lines = counts.lines.items;
      nodes = counts.nodes.items;
    } };

    ghost invariant = { λ counts.
        (length counts.lines.items ≡ line_count counts.geometry) × (length counts.nodes.items ≡ node_end counts.geometry) };
}

impl PlaceCounts {
    // Nothing happened yet.
    pub(crate) fn new(alloc: Global, geometry: Geometry) -> Result<PlaceCounts, NoMemory>
        ensures { IfOk result (λ counts. counts ≡ new_counts geometry) }
    {
        Ok(PlaceCounts {
            geometry,
            lines: vec![in alloc; 0; geometry.lines() as usize]?,
            nodes: vec![in alloc; 0; geometry.node_end() as usize]?,
        })
    }

    pub(crate) fn of_line(&self, line: u32) -> u64
        requires { IsPlace self.now.geometry (Line line) }
        ensures { result ≡ count_at self.now (Line line) }
    {
        self.lines[line as usize]
    }

    pub(crate) fn of_node(&self, level: u8, index: u32) -> u64
        requires { IsPlace self.now.geometry (Node level index) }
        ensures { result ≡ count_at self.now (Node level index) }
    {
        self.nodes[self.geometry.node_number(level, index) as usize]
    }

    pub(crate) fn add_line(&mut self, line: u32)
        requires { IsPlace self.old.geometry (Line line) }
        ensures { self.new ≡ with_one_more (Line line) self.old }
    {
        let at = line as usize;
        self.lines[at] = self.lines[at].saturating_add(1);
    }

    pub(crate) fn add_node(&mut self, level: u8, index: u32)
        requires { IsPlace self.old.geometry (Node level index) }
        ensures { self.new ≡ with_one_more (Node level index) self.old }
    {
        let at = self.geometry.node_number(level, index) as usize;
        self.nodes[at] = self.nodes[at].saturating_add(1);
    }
}
