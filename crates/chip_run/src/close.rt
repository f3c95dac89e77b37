// How a run is closed: its memory is given up, and its record made.
ghost use Rattle.std.specs.Prelude.{◌≡◌, [], None};
ghost use Rattle.sec_base.specs.declared.ending.Ending.TheVariants.{NoMemory as memory_ended};
ghost use Rattle.chip_run.specs.Running.{HandsOut};

use crate::record::RunRecord;
use bus_model::Bus;
use page_reencrypt::Account;
use sec_base::{Ending, Messages, Pads, Tagger};
use secure_memory::SecureRam;
use std::alloc::Global;

// The record of a run that retired so many instructions, ended so and has this report, with its bus.
pub(crate) fn close<B: Bus, T: Tagger>(
    memory: SecureRam<B, T>,
    retired: u64,
    ending: Ending,
    report: Option<[u8; 159]>,
) -> (RunRecord, B)
    ensures retired { result.0.retired ≡ retired }
    ensures ending { result.0.ending ≡ ending }
    ensures report { result.0.report ≡ report }
    ensures hands_out { HandsOut T.data_tag_of T.node_tag_of B.history memory result.1 result.0 }
{
    let (account, bus) = memory.finish();
    let Account {
        made,
        used,
        evidence,
    } = account;
    let record = RunRecord {
        retired,
        ending,
        evidence,
        made,
        used,
        report,
    };
    (record, bus)
}

// The record of a run that found no memory to begin with.
pub(crate) fn no_run(alloc: Global) -> RunRecord
    ensures retired { result.retired ≡ 0 }
    ensures ending { result.ending ≡ memory_ended }
    ensures made { result.made ≡ [] }
    ensures evidence { result.evidence ≡ None }
    ensures used { result.used ≡ [] }
    ensures report { result.report ≡ None }
{
    RunRecord {
        retired: 0,
        ending: Ending::NoMemory,
        evidence: None,
        made: Messages::from_vec(Vec::new(alloc)),
        used: Pads::from_vec(Vec::new(alloc)),
        report: None,
    }
}
