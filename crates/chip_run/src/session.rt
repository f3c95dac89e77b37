// A run turn by turn.
ghost use Rattle.std.specs.Prelude.{◌≡◌, ◌≢◌, ◌+◌, ◌≤◌, ◌↔◌, [], List, None, Some, ℕ, IfErr, IfOk, length};
ghost use Rattle.sec_base.specs.Count.{more_by};
ghost use Rattle.sec_base.specs.Geometry.{memory_size};
ghost use Rattle.sec_base.specs.declared.ending.Ending.{Ending};
ghost use Rattle.sec_base.specs.declared.ending.Ending.TheVariants.{Halted, OutOfSteps};
ghost use Rattle.sec_base.specs.declared.stop.MemStop.{MemStop};
ghost use Rattle.bus_model.specs.Access.{Access};
ghost use Rattle.bus_model.specs.BusHistory.{NothingWritten};
ghost use Rattle.tag_engine.specs.Tag.{engine_tag};
ghost use Rattle.rv32_core.specs.Printing.{HoldsTaken};
ghost use Rattle.rv32_run.specs.Execution.{retired_after, stop_ending};
ghost use Rattle.secure_memory.specs.SecureRam.{stopped};
ghost use Rattle.chip_run.specs.Pair.{stop_at};
ghost use Rattle.chip_run.specs.Run.{KeepsAccesses, Terms, run_terms};
ghost use Rattle.chip_run.specs.Session.{ComesTo, HasPrinted, PrintsOn};

use crate::close::close;
use crate::pair::SideStop;
use crate::record::{RunRecord, Setup};
use crate::report::signed_report;
use bus_model::Bus;
use elf_load::measure;
use rv32_core::Core;
use rv32_run::{Execution, ending_of, store_image};
use sec_base::{Ending, Image, MemStop, NoMemoryWith, Sink, Tagger};
use secure_memory::SecureRam;
use std::alloc::Global;
use std::marker::Model;

/// A run of a program on an input, in a memory that stands outside the chip, turn by turn: each turn does one instruction.
/// It can't be given up before a turn has answered how it ended, since its bus has to come back.
pub struct Session<'a, B: Bus, T: Tagger> {
    execution: Execution<'a, Core, SecureRam<B, T>>,
    measured: [u8; 32],
    input: &'a [u8],
    setup: Setup,
    // The stop of its memory while the program was stored, where there was one.
    kept: Option<MemStop>,
    // The ending that a turn answered.
    ended: Option<Ending>,
}

impl<'a, B: Bus, T: Tagger> Model for Session<'a, B, T> {
    ghost use Rattle.std.specs.Prelude.{◌≡◌, ◌≤◌, None};
    ghost use Rattle.secure_memory.specs.SecureRam.{stopped};
    ghost use Rattle.chip_run.specs.Session.{SessionView};

    ghost Value = { SessionView B T };

    ghost view = { λ session. record {
      execution = session.execution;
      report = record {
        measurement = session.measured;
        input = session.input.now;
        nonce = session.setup.nonce;
        layout = session.setup.geometry.layout;
        report_key = session.setup.keys.report_key;
      };
      kept = session.kept;
      ended = session.ended;
    } };

    // It can take a turn where no ending was answered and no stop is kept.
    ghost invariant = { λ session. (session.execution.retired ≤ session.execution.budget)
        × (session.ended ≡ None → session.kept ≡ None → stopped session.execution.memory ≡ None) };
}

impl<'a, B: Bus, T: Tagger> Session<'a, B, T> {
    /// A program in a new memory, before its first instruction. Where that memory stopped while the program was stored, the
    /// stop is kept for the first turn. Out of memory, the bus comes back.
    pub fn boot(
        alloc: Global,
        image: &Image,
        input: &'a [u8],
        setup: &Setup,
        tagger: T,
        bus: B,
    ) -> Result<Session<'a, B, T>, NoMemoryWith<B>>
        requires size { image.now.size ≡ memory_size setup.now.geometry }
        requires geometry { (B.history bus).geometry ≡ setup.now.geometry }
        requires no_lie { (B.history bus).lies ≡ 0 }
        requires nothing_written { NothingWritten (B.history bus) }

        // It is the session of a run of these terms, which printed nothing yet.
        ensures begun { IfOk result (λ session. HasPrinted T.data_tag_of T.node_tag_of B.history
            B.moved bus tagger
            (run_terms image.now input.now setup.now
            (engine_tag (T.data_tag_of tagger) (T.node_tag_of tagger) setup.now.geometry))
            [] session) }

        ensures kept { IfOk result (λ session. session.kept ≡ stopped session.execution.memory) }
        ensures going { IfOk result (λ session. session.ended ≡ None) }
        ensures refused { IfErr result (λ refusal. refusal.0 ≡ bus) }
    {
        let mut memory = SecureRam::boot(
            alloc,
            bus,
            tagger,
            &setup.keys,
            setup.geometry,
            setup.page_limit,
        )?;
        let kept = store_image(&mut memory, image).err();
        Ok(Session {
            execution: Execution::new(image, input, memory, setup.budget),
            measured: measure(image),
            input,
            setup: *setup,
            kept,
            ended: None,
        })
    }

    /// Does one instruction, and returns how the run ended, if it did. A kept stop is answered first, then that the budget
    /// is used up. From then on the same ending is answered, and nothing is done.
    pub fn turn<S: Sink>(&mut self, out: &mut S) -> Option<Ending>
        ensures turns { PrintsOn T.data_tag_of T.node_tag_of B.history B.moved result
            (S.state out.old) (S.state out.new) self.old self.new }

        ensures again { (ending : Ending) → self.old.ended ≡ Some ending →
            (result ≡ Some ending) × (self.new ≡ self.old) × (out.new ≡ out.old) }

        ensures kept { (stop : MemStop) → self.old.ended ≡ None → self.old.kept ≡ Some stop →
            (result ≡ Some (stop_ending stop)) × (self.new.execution ≡ self.old.execution)
            × (out.new ≡ out.old) }

        ensures out_of_steps { self.old.ended ≡ None → self.old.kept ≡ None →
            ((result ≡ Some OutOfSteps)
            ↔ (self.old.execution.retired ≡ self.old.execution.budget)) }

        // There is no ending exactly where an instruction was retired that doesn't halt.
        ensures goes_on { (result ≡ None)
            ↔ ((self.new.execution.retired ≡ self.old.execution.retired + 1)
            × ((code : ℕ) → result ≢ Some (Halted code))) }

        ensures retired { self.old.ended ≡ None → self.old.kept ≡ None →
            self.new.execution.retired ≡ retired_after result self.old.execution.retired }

        // A caller that takes turns comes to an end.
        ensures budget { (self.new.execution.budget ≡ self.old.execution.budget)
            × (self.new.execution.retired ≤ self.new.execution.budget) }

        ensures ended { self.new.ended ≡ result }
    {
        if let Some(ending) = self.ended {
            return Some(ending);
        }
        if let Some(stop) = self.kept {
            let ending = ending_of(stop);
            self.ended = Some(ending);
            return Some(ending);
        }
        self.ended = self.execution.turn(out);
        self.ended
    }

    // How it ended, if a turn answered that.
    pub(crate) fn ended(&self) -> Option<Ending>
        ensures { result ≡ self.now.ended }
    {
        self.ended
    }

    // The stop that ended it, if its memory or want of memory did.
    pub(crate) fn stop(&self) -> Option<SideStop>
        ensures { (printed : List ℕ) → HoldsTaken self.now.execution.calls.taken printed →
            result ≡ stop_at self.now.ended self.now.execution.retired
            (more_by (length printed) 0) }
    {
        let stop = match self.ended? {
            Ending::Tampered(place) => MemStop::Tampered(place),
            Ending::Spent(page) => MemStop::Spent(page),
            Ending::NoMemory => MemStop::NoMemory,
            _ => return None,
        };
        Some(SideStop {
            turn: self.execution.retired(),
            printed: self.execution.printed(),
            stop,
        })
    }

    // Goes on to the end, by turns that no caller sees.
    pub(crate) fn go_on<S: Sink>(&mut self, out: &mut S)
        requires { self.old.ended ≡ None }
        ensures turns { PrintsOn T.data_tag_of T.node_tag_of B.history B.moved self.new.ended
            (S.state out.old) (S.state out.new) self.old self.new }
        ensures ended { self.new.ended ≢ None }
    {
        if let Some(stop) = self.kept {
            self.ended = Some(ending_of(stop));
            return;
        }
        self.ended = Some(self.execution.finish(out));
    }

    /// The record of the run, and the bus as it stands at the end.
    pub fn finish(self) -> (RunRecord, B)
        requires ended { self.ended ≢ None }
        ensures retired { result.0.retired ≡ self.entry.execution.retired }
        ensures ending { self.entry.ended ≡ Some result.0.ending }

        // The theorem of a run, for the bytes that its turns printed.
        ensures ran { (bus : B) (tagger : T) (terms : Terms) (printed : List ℕ) →
            HasPrinted T.data_tag_of T.node_tag_of B.history B.moved bus tagger terms printed
            self.entry →
            ComesTo terms printed (B.history bus) (B.history result.1) result.0 }

        // Some accesses led from the bus that was given to the one handed back; their writes are the run's messages, but for the last
        // one where memory ran out.
        ensures accesses { (bus : B) (tagger : T) (terms : Terms) (printed : List ℕ) →
            HasPrinted T.data_tag_of T.node_tag_of B.history B.moved bus tagger terms printed
            self.entry →
            (accesses : List Access) × B.moved bus accesses result.1
            × KeepsAccesses terms (B.history result.1) accesses result.0 }
    {
        let Session {
            execution,
            measured,
            input,
            setup,
            kept: _,
            ended,
        } = self;
        let ending = ended.unwrap();
        let retired = execution.retired();
        let (memory, calls) = execution.into_parts();
        let report = signed_report(measured, input, &setup, calls.finish(), retired, ending);
        close(memory, retired, ending, report)
    }
}
