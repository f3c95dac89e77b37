// The names of registers.

ghost use Rattle.rv32_asm_syntax.specs.Registers as spec;
ghost use Rattle.rv32_asm_syntax.specs.Registers.{names_of};
ghost use Rattle.std.specs.List.{list_any};
ghost use Rattle.std.specs.Prelude.{IfSome, codes, decimal, ◌++◌, ◌<◌, ◌≡◌};
ghost use Rattle.std.specs.Str.{bytes_eq};

use rv32_text::register_name;

/// The number of the register of this name.
#[tactic(auto, using(crate::proofs::Numbered::found, crate::proofs::Numbered::goes_on, crate::proofs::Numbered::none_left), unfolding(crate::specs::Registers::register_of))]
pub fn register_of(name: &[u8]) -> Option<u8>
    ensures value { result ≡ spec.register_of name.now }
    ensures register { IfSome result (λ number. number < 32) }
{
    for number in 0..32 {
        if is_named(number, name) {
            return Some(number);
        }
    }
    None
}

// Whether a register has this name.
fn is_named(number: u8, name: &[u8]) -> bool
    requires { number < 32 }
    ensures { result ≡ list_any (bytes_eq name.now) (names_of number) }
{
    name == register_name(number).as_bytes()
        || is_numbered(number, name)
        || number == 8 && name == b"fp".as_slice()
}

// Whether a name is an `x` and the number.
#[tactic(auto, using(crate::proofs::Numbered::one_digit, crate::proofs::Numbered::two_digits))]
fn is_numbered(number: u8, name: &[u8]) -> bool
    requires { number < 32 }
    ensures { result ≡ bytes_eq name.now (codes "x" ++ decimal number) }
{
    if number < 10 {
        name == [b'x', b'0' + number].as_slice()
    } else {
        name == [b'x', b'0' + number / 10, b'0' + number % 10].as_slice()
    }
}
