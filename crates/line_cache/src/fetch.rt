// How a line comes from the store into a cache, and another goes out for it.
ghost use Rattle.std.specs.Prelude.{true, ◌≡◌, ◌≢◌, ◌<◌, ◌⊎◌, ℕ, List, None, Some, IfErr, OnOk, OnErr};
ghost use Rattle.std.specs.Result.{result_err};
ghost use Rattle.sec_base.specs.Lines.{line_at, with_line};
ghost use Rattle.cache_set.specs.CacheSet.{HasRoom};
ghost use Rattle.cache_set.specs.Cache.{IsLatest, copy_at, set_at, victim_for, way_at};
ghost use Rattle.cache_set.specs.Bringing.{if_changed, leaving, with_new, with_room};
ghost use Rattle.line_cache.specs.LineCache.{AreClean, AreCopies, IsMissed, IsStoppedMiss, contents_over};
ghost use Rattle.line_cache.specs.WriteBack.{IsGone, IsWritten, written};

use cache_set::{Cache, Way};
use sec_base::{LineStore, MemStop};

// Brings in a line that is not held.
pub(crate) fn fetch<S: LineStore>(
    store: &mut S,
    lines: &mut Cache<64>,
    line: u32,
) -> Result<(), MemStop>
    requires inside { line < S.extent store.old }
    requires copies { AreCopies (S.extent store.old) lines.old }
    requires absent { way_at lines.old line ≡ None }

    ensures copies { AreCopies (S.extent store.new) lines.new }
    ensures clean { OnOk result (S.stopped store.old ≡ None → S.sound store.new →
        AreClean (S.contents store.old) lines.old → AreClean (S.contents store.new) lines.new) }
    ensures contents { S.stopped store.old ≡ None → S.sound store.new →
        AreClean (S.contents store.old) lines.old →
        contents_over (S.contents store.new) (S.extent store.new) lines.new
        ≡ contents_over (S.contents store.old) (S.extent store.old) lines.old }
    ensures latest { OnOk result (IsLatest lines.new line) }
    ensures others { (other : ℕ) → other ≢ line →
        (way_at lines.new other ≡ way_at lines.old other) ⊎ (way_at lines.new other ≡ None) }

    ensures goes_on { OnOk result (S.stopped store.new ≡ S.stopped store.old) }
    ensures stops { S.stopped store.old ≡ None →
        IfErr result (λ stop. S.stopped store.new ≡ Some stop) }

    ensures extent { S.extent store.new ≡ S.extent store.old }
    ensures lost { S.sound store.new → S.sound store.old }
    ensures missed { IsMissed S.read_moved S.write_moved lines.old store.old line (λ bytes. bytes)
        (result_err result)
        lines.new store.new }

    ensures ways { OnOk result ((copy : List ℕ) → copy_at lines.new line ≡ Some copy →
        lines.new ≡ with_new (with_room lines.old line) line copy) }
    ensures ways_left { IfErr result (λ stop. IsStoppedMiss S.read_moved S.write_moved
        (leaving lines.old line)
        lines.old store.old line stop lines.new store.new) }
{
    make_room(store, lines, line)?;
    let copy = store.read_line(line)?;
    lines.put(line, copy);
    Ok(())
}

// Evicts the way that goes out for a line, and writes it first where it was changed.
fn make_room<S: LineStore>(store: &mut S, lines: &mut Cache<64>, line: u32) -> Result<(), MemStop>
    requires copies { AreCopies (S.extent store.old) lines.old }
    requires absent { way_at lines.old line ≡ None }

    ensures copies { AreCopies (S.extent store.new) lines.new }
    ensures clean { OnOk result (S.stopped store.old ≡ None → S.sound store.new →
        AreClean (S.contents store.old) lines.old → AreClean (S.contents store.new) lines.new) }
    ensures contents { S.stopped store.old ≡ None → S.sound store.new →
        AreClean (S.contents store.old) lines.old →
        contents_over (S.contents store.new) (S.extent store.new) lines.new
        ≡ contents_over (S.contents store.old) (S.extent store.old) lines.old }
    ensures absent { way_at lines.new line ≡ None }
    ensures room { OnOk result (HasRoom (set_at lines.new line)) }
    ensures others { (other : ℕ) →
        (way_at lines.new other ≡ way_at lines.old other) ⊎ (way_at lines.new other ≡ None) }

    ensures goes_on { OnOk result (S.stopped store.new ≡ S.stopped store.old) }
    ensures stops { S.stopped store.old ≡ None →
        IfErr result (λ stop. S.stopped store.new ≡ Some stop) }

    ensures extent { S.extent store.new ≡ S.extent store.old }
    ensures lost { S.sound store.new → S.sound store.old }
    ensures moved { OnOk result (IsGone S.write_moved (leaving lines.old line) store.old
        store.new) }
    ensures moved_in_part { IfErr result (λ stop. IsWritten S.write_moved (leaving lines.old line)
        stop store.old store.new) }

    ensures ways { OnOk result (lines.new ≡ with_room lines.old line) }
    ensures ways_left { OnErr result (lines.new ≡ lines.old) }
{
    let Some(victim) = lines.victim(line) else {
        return Ok(());
    };
    write_back(store, &victim)?;
    lines.remove(victim.place);
    Ok(())
}

// Writes a way to the store, if it was changed.
fn write_back<S: LineStore>(store: &mut S, way: &Way) -> Result<(), MemStop>
    requires inside { way.now.place < S.extent store.old }

    ensures stored { S.stopped store.old ≡ None → S.sound store.new →
        OnOk result (S.contents store.new ≡ written way.now (S.contents store.old)) }
    ensures refused { S.stopped store.old ≡ None → S.sound store.new → OnErr result (
        (S.contents store.new ≡ S.contents store.old)
        ⊎ (S.contents store.new ≡ written way.now (S.contents store.old))) }

    ensures goes_on { OnOk result (S.stopped store.new ≡ S.stopped store.old) }
    ensures stops { S.stopped store.old ≡ None →
        IfErr result (λ stop. S.stopped store.new ≡ Some stop) }

    ensures extent { S.extent store.new ≡ S.extent store.old }
    ensures lost { S.sound store.new → S.sound store.old }
    ensures moved { OnOk result (IsGone S.write_moved (if_changed (Some way.now)) store.old
        store.new) }
    ensures moved_in_part { IfErr result
        (λ stop. IsWritten S.write_moved (if_changed (Some way.now)) stop store.old store.new) }
{
    if !way.changed {
        return Ok(());
    }
    store.write_line(way.place, &way.copy)
}
