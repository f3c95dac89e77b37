// Which entries are false.
ghost use Rattle.std.specs.Prelude.{◌≡◌, IfOk};
ghost use Rattle.bus_trace.specs.FirstFalse as spec;

use crate::entry::Entry;
use crate::last_writes::LastWrites;
use sec_base::NoMemory;
use std::alloc::Global;

/// The number of the first false entry, counted from 1. Fails only if out of memory.
pub(crate) fn first_false(alloc: Global, entries: &[Entry]) -> Result<Option<u64>, NoMemory>
    ensures { IfOk result (λ number. number ≡ spec.first_false entries.now) }
{
    let mut writes = LastWrites::new(alloc);
    let mut count = 0;
    for entry in entries {
        count += 1;
        if !writes.is_true(entry) {
            return Ok(Some(count));
        }
        writes.put(entry)?;
    }
    Ok(None)
}
