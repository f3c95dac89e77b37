// What a write of a line comes to.
ghost use Rattle.std.specs.Prelude.{◌≡◌, ◌↔◌, ℕ, ◌+◌, ◌<◌, ◌≤◌};
ghost use Rattle.sec_base.specs.declared.counter.Counter.{Counter};
ghost use Rattle.split_counter.specs.declared.bumped.Bumped.TheVariants.{Line, Page, Spent};
ghost use Rattle.split_counter.specs.CounterBlock.{bumped, next_counter};

use sec_base::Counter;

/// The greatest value of a line counter, which has 7 bits.
pub const LAST_LINE_COUNTER: u8 = 127;

/// What a write of a line makes of the counters of its page.
#[derive(Clone, Copy, Debug, PartialEq, Eq)]
pub enum Bumped {
    /// The line counter goes up by one: the line's new counter.
    Line(Counter),
    /// The line counter is at its end, so the page counter goes up by one, to this number, and all line counters are
    /// 0: each line of the page is to be encrypted anew.
    Page(u64),
    /// The line counter is at its end and the page counter at its limit. Nothing changes.
    Spent,
}

impl Bumped {
    /// What a write of a line with this counter comes to, under a limit of the page counter.
    #[tactic(auto, unfolding(crate::specs::CounterBlock::bumped))]
    pub fn of(counter: Counter, limit: u64) -> Bumped
        requires { counter.line ≤ 127 }
        ensures outcome { result ≡ bumped limit counter }
        ensures line { (next : Counter) → result ≡ Line next →
            (counter.line < 127) × (next ≡ next_counter counter) }
        ensures overflow { (page : ℕ) → result ≡ Page page →
            (counter.line ≡ 127) × (counter.page < limit) × (page ≡ counter.page + 1) }
        ensures spent { (result ≡ Spent) ↔ ((counter.line ≡ 127) × (limit ≤ counter.page)) }
    {
        if counter.line < LAST_LINE_COUNTER {
            return Bumped::Line(Counter {
                page: counter.page,
                line: counter.line + 1,
            });
        }
        if counter.page >= limit {
            return Bumped::Spent;
        }
        Bumped::Page(counter.page + 1)
    }
}
