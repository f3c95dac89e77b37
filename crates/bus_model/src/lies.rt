// The false answers of a bus.
ghost use Rattle.std.specs.Prelude.{◌≡◌, ◌==◌, Some, not, if◌then◌else◌};
ghost use Rattle.std.specs.Str.{bytes_eq};
ghost use Rattle.sec_base.specs.Count.{more_by};
ghost use Rattle.sec_base.specs.Evidence.{sealed_bytes};
ghost use Rattle.sec_base.specs.declared.place.Place.TheVariants.{Line, Node};
ghost use Rattle.bus_model.specs.Lies.{IsJudged, no_lies};

use sec_base::Sealed;

/// A false answer: which access it was, its place and its bytes.
#[derive(Clone, Copy, Debug)]
pub enum FalseAnswer {
    Sealed {
        access: u64,
        line: u32,
        sealed: Sealed,
    },
    Block {
        access: u64,
        level: u8,
        index: u32,
        block: [u8; 64],
    },
}

/// How many answers were false, and the first of them.
#[derive(Clone, Copy, Debug)]
pub struct Lies {
    pub count: u64,
    pub first: Option<FalseAnswer>,
}

impl Lies {
    /// No answer was false.
    pub fn none() -> Lies
        ensures { result ≡ no_lies }
    {
        Lies {
            count: 0,
            first: None,
        }
    }

    // Counts a false answer.
    fn tell(&mut self, answer: FalseAnswer)
        ensures count { self.new.count ≡ more_by 1 self.old.count }
        ensures first { self.new.first
            ≡ (if self.old.count == 0 then Some answer else self.old.first) }
    {
        if self.count == 0 {
            self.first = Some(answer);
        }
        self.count = self.count.saturating_add(1);
    }

    /// Counts the answer to a read of a line, the access of this number, where it differs from what was written.
    pub fn judge_sealed(&mut self, access: u64, line: u32, written: &Sealed, answer: &Sealed)
        ensures { IsJudged (record {
          access = access;
          place = Line line;
          bytes = sealed_bytes
              answer.now;
        }) (sealed_bytes written.now) self.old self.new }
    {
        if differs(*answer, *written) {
            self.tell(FalseAnswer::Sealed {
                access,
                line,
                sealed: *answer,
            });
        }
    }

    /// Counts the answer to a read of a node, the access of this number, where it differs from what was written.
    pub fn judge_block(
        &mut self,
        access: u64,
        level: u8,
        index: u32,
        written: &[u8; 64],
        answer: &[u8; 64],
    )
        ensures { IsJudged (record {
          access = access;
          place = Node level index;
          bytes = answer.now;
        }) written.now self.old self.new }
    {
        if answer != written {
            self.tell(FalseAnswer::Block {
                access,
                level,
                index,
                block: *answer,
            });
        }
    }
}

fn differs(first: Sealed, second: Sealed) -> bool
    ensures { result ≡ not (bytes_eq (sealed_bytes first) (sealed_bytes second)) }
{
    first != second
}
