// Why nothing was done.
ghost use Rattle.std.specs.Prelude.{◌≡◌};
ghost use Rattle.chip_files.specs.Stop.{assembly_stop_of, elf_stop_of, order_stop_of, read_stop_of, script_stop_of, trace_stop_of, words_stop_of};
ghost use Rattle.chip_files.specs.declared.stop.Stop.TheVariants.{NoMemory as no_memory};

use crate::refusal::Refusal;
use adversary_script::ScriptError;
use bus_trace::TraceError;
use chip_words::WordsError;
use elf_load::ElfError;
use rv32_asm::AsmError;
use sec_base::{NoMemory, ReadStop};
use turn_order::OrderError;

/// Why nothing was done.
#[derive(Debug, Drop)]
pub enum Stop {
    /// The words or a file are refused.
    Refused(Refusal),
    /// Out of memory.
    NoMemory,
}

impl From<NoMemory> for Stop {
    ghost from_gives = { λ _ stop. stop ≡ no_memory };

    fn from(_: NoMemory) -> Self {
        Stop::NoMemory
    }
}

impl From<WordsError> for Stop {
    ghost from_gives = { λ error stop. stop ≡ words_stop_of error };

    fn from(error: WordsError) -> Self {
        match error {
            WordsError::Usage(text) => Stop::Refused(Refusal::Usage(text)),
            WordsError::WrongValue(fault) => Stop::Refused(Refusal::WrongValue(fault)),
            WordsError::NoMemory => Stop::NoMemory,
        }
    }
}

impl From<ReadStop> for Stop {
    ghost from_gives = { λ why stop. stop ≡ read_stop_of why };

    fn from(why: ReadStop) -> Self {
        match why {
            ReadStop::Failed => Stop::Refused(Refusal::Unread),
            ReadStop::Long => Stop::Refused(Refusal::TooLong),
            ReadStop::NoMemory => Stop::NoMemory,
        }
    }
}

impl From<ElfError> for Stop {
    ghost from_gives = { λ error stop. stop ≡ elf_stop_of error };

    fn from(error: ElfError) -> Self {
        match error {
            ElfError::Fault(fault) => Stop::Refused(Refusal::Elf(fault)),
            ElfError::NoMemory => Stop::NoMemory,
        }
    }
}

impl From<AsmError> for Stop {
    ghost from_gives = { λ error stop. stop ≡ assembly_stop_of error };

    fn from(error: AsmError) -> Self {
        match error {
            AsmError::Fault { line, code } => Stop::Refused(Refusal::Asm { line, fault: code }),
            AsmError::NoMemory => Stop::NoMemory,
        }
    }
}

impl From<ScriptError> for Stop {
    ghost from_gives = { λ error stop. stop ≡ script_stop_of error };

    fn from(error: ScriptError) -> Self {
        match error {
            ScriptError::Fault { line, code } => Stop::Refused(Refusal::Script {
                line,
                fault: code,
            }),
            ScriptError::NoMemory => Stop::NoMemory,
        }
    }
}

impl From<TraceError> for Stop {
    ghost from_gives = { λ error stop. stop ≡ trace_stop_of error };

    fn from(error: TraceError) -> Self {
        match error {
            TraceError::Fault(fault) => Stop::Refused(Refusal::Trace(fault)),
            TraceError::NoMemory => Stop::NoMemory,
        }
    }
}

impl From<OrderError> for Stop {
    ghost from_gives = { λ error stop. stop ≡ order_stop_of error };

    fn from(error: OrderError) -> Self {
        Stop::Refused(Refusal::Order(error))
    }
}
