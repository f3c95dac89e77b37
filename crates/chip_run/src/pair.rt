// Two programs that share the core.
ghost use Rattle.std.specs.Prelude.{◌≡◌, ◌<◌, ◌↔◌, false, List};
ghost use Rattle.sec_base.specs.Geometry.{memory_size};
ghost use Rattle.sec_base.specs.Sink.{SinkState};
ghost use Rattle.bus_model.specs.Access.{Access};
ghost use Rattle.bus_model.specs.BusHistory.{NothingWritten};
ghost use Rattle.tag_engine.specs.Tag.{engine_tag};
ghost use Rattle.turn_order.specs.TurnOrder.{IsOrder};
ghost use Rattle.chip_run.specs.Pair.{HasCome, IsIsolated, RunsAsSide, turns_left};
ghost use Rattle.chip_run.specs.Run.{KeepsAccesses, Terms, run_terms};

use crate::close::no_run;
use crate::record::{RunRecord, Setup};
use crate::session::Session;
use bus_model::Bus;
use sec_base::{Ending, Image, MemStop, NoMemoryWith, Sink, Tagger};
use std::alloc::Global;
use turn_order::TurnOrder;

/// One of two programs that share the core, and all that is its own.
pub struct Side<'a, B: Bus, T: Tagger> {
    /// The program.
    pub image: &'a Image,
    /// What it reads.
    pub input: &'a [u8],
    /// How large its memory is, its keys, budget, limit and nonce.
    pub setup: &'a Setup,
    /// Its tags.
    pub tagger: T,
    /// The bus to its memory.
    pub bus: B,
}

/// The stop that a side's own memory gave it, or its sink for want of memory.
#[derive(Clone, Copy, Debug, PartialEq, Eq)]
pub struct SideStop {
    /// How many instructions the side had retired.
    pub turn: u64,
    /// How many bytes it had printed. It stands still at 2^64 - 1.
    pub printed: u64,
    /// Why it stopped.
    pub stop: MemStop,
}

/// What two programs came to that shared the core.
#[derive(Debug, Drop)]
pub struct PairRecord {
    /// What the first one came to.
    pub first: RunRecord,
    /// What the second one came to.
    pub second: RunRecord,
    /// The stop that ended the first one, if its memory or want of memory did.
    pub first_stop: Option<SideStop>,
    /// The stop that ended the second one.
    pub second_stop: Option<SideStop>,
}

/// Runs two programs turn by turn, each in its own memory outside the chip and to its own sink. Whose turn it is the bytes
/// say, 0 for the first and 1 for the second, which begin anew at their end; of none the two take turns, the first one first. An
/// entry of a program that has ended is passed over. Where there is no memory for the memory of one, the other one runs. Each bus
/// comes back as it stands at the end.
pub fn run_pair<B1: Bus, T1: Tagger, S1: Sink, B2: Bus, T2: Tagger, S2: Sink>(
    alloc: Global,
    first: Side<'_, B1, T1>,
    second: Side<'_, B2, T2>,
    order: &[u8],
    out1: &mut S1,
    out2: &mut S2,
) -> (PairRecord, B1, B2)
    requires size1 { first.image.now.size ≡ memory_size first.setup.now.geometry }
    requires geometry1 { (B1.history first.bus).geometry ≡ first.setup.now.geometry }
    requires no_lie1 { (B1.history first.bus).lies ≡ 0 }
    requires nothing_written1 { NothingWritten (B1.history first.bus) }
    requires size2 { second.image.now.size ≡ memory_size second.setup.now.geometry }
    requires geometry2 { (B2.history second.bus).geometry ≡ second.setup.now.geometry }
    requires no_lie2 { (B2.history second.bus).lies ≡ 0 }
    requires nothing_written2 { NothingWritten (B2.history second.bus) }
    requires order { IsOrder order.now }

    // Each side has the theorem of a run over its own bus, and comes to what it comes to alone, for every order and every
    // other side.
    ensures first { RunsAsSide (run_terms first.entry.image.now first.entry.input.now first.entry.setup.now
        (engine_tag (T1.data_tag_of first.entry.tagger) (T1.node_tag_of first.entry.tagger)
        first.entry.setup.now.geometry))
        (S1.state out1.old) (S1.state out1.new) (B1.history first.entry.bus) (B1.history result.1)
        result.0.first_stop result.0.first }
    ensures second { RunsAsSide (run_terms second.entry.image.now second.entry.input.now second.entry.setup.now
        (engine_tag (T2.data_tag_of second.entry.tagger) (T2.node_tag_of second.entry.tagger)
        second.entry.setup.now.geometry))
        (S2.state out2.old) (S2.state out2.new) (B2.history second.entry.bus) (B2.history result.2)
        result.0.second_stop result.0.second }

    // Some accesses led from each bus that was given to the one handed back; their writes are that side's messages, but for
    // the last one where memory ran out.
    ensures first_accesses { (accesses : List Access) × B1.moved first.entry.bus accesses result.1
        × KeepsAccesses (run_terms first.entry.image.now first.entry.input.now first.entry.setup.now
        (engine_tag (T1.data_tag_of first.entry.tagger) (T1.node_tag_of first.entry.tagger)
        first.entry.setup.now.geometry))
        (B1.history result.1) accesses result.0.first }
    ensures second_accesses { (accesses : List Access) × B2.moved second.entry.bus accesses result.2
        × KeepsAccesses (run_terms second.entry.image.now second.entry.input.now second.entry.setup.now
        (engine_tag (T2.data_tag_of second.entry.tagger) (T2.node_tag_of second.entry.tagger)
        second.entry.setup.now.geometry))
        (B2.history result.2) accesses result.0.second }
{
    let mut first = UnderWay::begin(alloc, first);
    let mut second = UnderWay::begin(alloc, second);
    take_turns(&mut first, &mut second, order, out1, out2);
    first.go_on(out1);
    second.go_on(out2);
    let (first, first_stop, bus1) = first.close(alloc);
    let (second, second_stop, bus2) = second.close(alloc);
    let record = PairRecord {
        first,
        second,
        first_stop,
        second_stop,
    };
    (record, bus1, bus2)
}

/// What a program comes to, up to a stop that its own memory or want of memory gave it, is the same whatever runs beside it.
pub fn isolated()
    ensures { IsIsolated }
{}

// A side of a pair.
pub(crate) enum UnderWay<'a, B: Bus, T: Tagger> {
    // There was no memory for its memory, whose bus this is.
    Refused(B),
    // It is under way, or has ended.
    Begun(Session<'a, B, T>),
}

impl<'a, B: Bus, T: Tagger> UnderWay<'a, B, T> {
    // A side before its first turn.
    fn begin(alloc: Global, side: Side<'a, B, T>) -> UnderWay<'a, B, T>
        requires size { side.image.now.size ≡ memory_size side.setup.now.geometry }
        requires geometry { (B.history side.bus).geometry ≡ side.setup.now.geometry }
        requires no_lie { (B.history side.bus).lies ≡ 0 }
        requires nothing_written { NothingWritten (B.history side.bus) }
        ensures { (out : SinkState) → HasCome T.data_tag_of T.node_tag_of B.history B.moved
            side.entry.bus side.entry.tagger
            (run_terms side.entry.image.now side.entry.input.now side.entry.setup.now
            (engine_tag (T.data_tag_of side.entry.tagger) (T.node_tag_of side.entry.tagger)
            side.entry.setup.now.geometry))
            out out result }
    {
        let Side {
            image,
            input,
            setup,
            tagger,
            bus,
        } = side;
        match Session::boot(alloc, image, input, setup, tagger, bus) {
            Ok(session) => UnderWay::Begun(session),
            Err(NoMemoryWith(bus)) => UnderWay::Refused(bus),
        }
    }

    // Whether it takes no more turns.
    fn has_ended(&self) -> bool
        ensures { (result ≡ false) ↔ (0 < turns_left self.now) }
    {
        match self {
            UnderWay::Refused(_) => true,
            UnderWay::Begun(session) => session.ended().is_some(),
        }
    }

    // One turn.
    fn turn<S: Sink>(&mut self, out: &mut S)
        requires { 0 < turns_left self.old }
        ensures came { (bus : B) (tagger : T) (terms : Terms) (start : SinkState) →
            HasCome T.data_tag_of T.node_tag_of B.history B.moved bus tagger terms start
            (S.state out.old) self.old →
            HasCome T.data_tag_of T.node_tag_of B.history B.moved bus tagger terms start
            (S.state out.new) self.new }
        ensures fewer { turns_left self.new < turns_left self.old }
    {
        if let UnderWay::Begun(session) = self {
            session.turn(out);
        }
    }

    // All turns that are left.
    fn go_on<S: Sink>(&mut self, out: &mut S)
        ensures came { (bus : B) (tagger : T) (terms : Terms) (start : SinkState) →
            HasCome T.data_tag_of T.node_tag_of B.history B.moved bus tagger terms start
            (S.state out.old) self.old →
            HasCome T.data_tag_of T.node_tag_of B.history B.moved bus tagger terms start
            (S.state out.new) self.new }
        ensures ended { turns_left self.new ≡ 0 }
    {
        if let UnderWay::Begun(session) = self {
            if session.ended().is_none() {
                session.go_on(out);
            }
        }
    }

    // What it came to, with its stop and its bus.
    fn close(self, alloc: Global) -> (RunRecord, Option<SideStop>, B)
        requires { turns_left self ≡ 0 }
        ensures side { (bus : B) (tagger : T) (terms : Terms) (out out2 : SinkState) →
            HasCome T.data_tag_of T.node_tag_of B.history B.moved bus tagger terms out out2
            self.entry →
            RunsAsSide terms out out2 (B.history bus) (B.history result.2) result.1 result.0 }
        ensures accesses { (bus : B) (tagger : T) (terms : Terms) (out out2 : SinkState) →
            HasCome T.data_tag_of T.node_tag_of B.history B.moved bus tagger terms out out2
            self.entry →
            (accesses : List Access) × B.moved bus accesses result.2
            × KeepsAccesses terms (B.history result.2) accesses result.0 }
    {
        match self {
            UnderWay::Refused(bus) => {
                let stop = SideStop {
                    turn: 0,
                    printed: 0,
                    stop: MemStop::NoMemory,
                };
                (no_run(alloc), Some(stop), bus)
            }
            UnderWay::Begun(session) => {
                let stop = session.stop();
                let (record, bus) = session.finish();
                (record, stop, bus)
            }
        }
    }
}

// Turns of two sides in this order, until one has ended: then the other one has all turns that are left.
fn take_turns<B1: Bus, T1: Tagger, S1: Sink, B2: Bus, T2: Tagger, S2: Sink>(
    first: &mut UnderWay<'_, B1, T1>,
    second: &mut UnderWay<'_, B2, T2>,
    order: &[u8],
    out1: &mut S1,
    out2: &mut S2,
)
    requires { IsOrder order.now }
    ensures first { (bus : B1) (tagger : T1) (terms : Terms) (start : SinkState) →
        HasCome T1.data_tag_of T1.node_tag_of B1.history B1.moved bus tagger terms start
        (S1.state out1.old) first.old →
        HasCome T1.data_tag_of T1.node_tag_of B1.history B1.moved bus tagger terms start
        (S1.state out1.new) first.new }
    ensures second { (bus : B2) (tagger : T2) (terms : Terms) (start : SinkState) →
        HasCome T2.data_tag_of T2.node_tag_of B2.history B2.moved bus tagger terms start
        (S2.state out2.old) second.old →
        HasCome T2.data_tag_of T2.node_tag_of B2.history B2.moved bus tagger terms start
        (S2.state out2.new) second.new }
{
    let mut turns = TurnOrder::new(order);
    while !first.has_ended() && !second.has_ended() {
        match turns.next(false, false) {
            Some(0) => first.turn(out1),
            _ => second.turn(out2),
        }
    }
}
