//! A run of a program on the chip, over any bus to the memory outside it and any sink.
#![tactic(auto)]

ghost use Rattle.std.specs.Prelude.{◌≡◌, List};
ghost use Rattle.sec_base.specs.Geometry.{memory_size};
ghost use Rattle.bus_model.specs.Access.{Access};
ghost use Rattle.bus_model.specs.BusHistory.{NothingWritten};
ghost use Rattle.tag_engine.specs.Tag.{engine_tag};
ghost use Rattle.chip_run.specs.Run.{KeepsAccesses, RunsProtected, run_terms};

mod close;
mod pair;
mod record;
mod report;
mod session;

use bus_model::Bus;
use close::no_run;
pub use pair::{PairRecord, Side, SideStop, isolated, run_pair};
pub use record::{RunRecord, Setup};
use sec_base::{Image, NoMemoryWith, Sink, Tagger};
pub use session::Session;
use std::alloc::Global;

/// Runs a program on an input, in a memory that stands outside the chip, and writes what it prints to a sink. The bus
/// to that memory comes back as it stands at the end.
// As a part of its caller's body its loop would be slower.
#[inline(never)]
pub fn run<B: Bus, T: Tagger, S: Sink>(
    alloc: Global,
    image: &Image,
    input: &[u8],
    setup: &Setup,
    tagger: T,
    bus: B,
    out: &mut S,
) -> (RunRecord, B)
    requires size { image.now.size ≡ memory_size setup.now.geometry }
    requires geometry { (B.history bus).geometry ≡ setup.now.geometry }
    requires no_lie { (B.history bus).lies ≡ 0 }
    requires nothing_written { NothingWritten (B.history bus) }

    // The theorem of a run, of its program, input, budget, keys, limit and nonce.
    ensures run { RunsProtected (run_terms image.now input.now setup.now
        (engine_tag (T.data_tag_of tagger) (T.node_tag_of tagger) setup.now.geometry))
        (S.state out.old) (S.state out.new) (B.history bus) (B.history result.1) result.0 }

    // Some accesses led from the bus that was given to the one handed back; their writes are the run's messages,
    // but for the last one where memory ran out.
    ensures accesses { (accesses : List Access) × B.moved bus accesses result.1
        × KeepsAccesses (run_terms image.now input.now setup.now
        (engine_tag (T.data_tag_of tagger) (T.node_tag_of tagger) setup.now.geometry))
        (B.history result.1) accesses result.0 }
{
    let mut session = match Session::boot(alloc, image, input, setup, tagger, bus) {
        Ok(session) => session,
        Err(NoMemoryWith(bus)) => return (no_run(alloc), bus),
    };
    session.go_on(out);
    session.finish()
}
