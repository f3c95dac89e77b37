// The calls of a fake that are to fail.
ghost use Rattle.std.specs.Prelude.{◌≡◌};
ghost use Rattle.sec_base.specs.FailingCalls.{is_one_of};

// Whether the number is one of those.
#[tactic(auto, unfolding(crate::specs::FailingCalls::is_one_of))]
pub(crate) fn contains_number(numbers: &[u64], number: u64) -> bool
    ensures { result ≡ is_one_of numbers.now number }
{
    numbers.contains(&number)
}
