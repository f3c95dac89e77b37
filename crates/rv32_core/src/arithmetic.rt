// What the instructions compute from words (RISC-V unprivileged manual, section 2.4 and M).
ghost use Rattle.std.specs.Prelude.{◌≡◌, ◌*ℤ◌, nat_lt};
ghost use Rattle.rv32_core.specs.Arithmetic as spec;

/// 1 where a is below b, else 0.
#[inline]
pub fn less(a: u32, b: u32) -> u32
    ensures { result ≡ spec.truth (nat_lt a b) }
{
    u32::from(a < b)
}

/// 1 where a is below b, both read in two's complement, else 0.
#[inline]
pub fn less_signed(a: u32, b: u32) -> u32
    ensures { result ≡ spec.truth (spec.is_less_signed a b) }
{
    u32::from(is_less_signed(a, b))
}

/// Whether a is below b, both read in two's complement.
#[inline]
pub fn is_less_signed(a: u32, b: u32) -> bool
    ensures { result ≡ spec.is_less_signed a b }
{
    a.cast_signed() < b.cast_signed()
}

/// Shifted right by the low five bits of the amount; copies of the top bit come in.
#[inline]
pub fn shift_right_signed(a: u32, amount: u32) -> u32
    ensures { result ≡ spec.shift_right_signed a amount }
{
    a.cast_signed().wrapping_shr(amount).cast_unsigned()
}

/// The high 32 bits of the product of two signed words.
#[inline]
pub fn high_product(a: u32, b: u32) -> u32
    ensures { result ≡ spec.high_product a b }
{
    high_word(product(a.cast_signed(), b.cast_signed()))
}

#[inline]
fn product(a: i32, b: i32) -> i64
    ensures { result ≡ a *ℤ b }
{
    i64::from(a) * i64::from(b)
}

/// The high 32 bits of the product of a signed word and an unsigned one.
#[inline]
pub fn high_product_mixed(a: u32, b: u32) -> u32
    ensures { result ≡ spec.high_product_mixed a b }
{
    high_word(i64::from(a.cast_signed()) * i64::from(b))
}

/// The high 32 bits of the product of two unsigned words.
#[inline]
pub fn high_product_unsigned(a: u32, b: u32) -> u32
    ensures { result ≡ spec.high_product_unsigned a b }
{
    ((u64::from(a) * u64::from(b)) >> 32) as u32
}

#[inline]
fn high_word(product: i64) -> u32
    ensures { result ≡ spec.high_word product }
{
    ((product >> 32) as i32).cast_unsigned()
}

/// The quotient of two signed words, rounded towards zero; all bits set where b is 0.
#[inline]
pub fn quotient(a: u32, b: u32) -> u32
    ensures { result ≡ spec.quotient a b }
{
    if b == 0 {
        u32::MAX
    } else {
        a.cast_signed()
            .wrapping_div(b.cast_signed())
            .cast_unsigned()
    }
}

/// The quotient of two unsigned words; all bits set where b is 0.
#[inline]
pub fn quotient_unsigned(a: u32, b: u32) -> u32
    ensures { result ≡ spec.quotient_unsigned a b }
{
    if b == 0 { u32::MAX } else { a / b }
}

/// The remainder of two signed words, with the sign of a; a where b is 0.
#[inline]
pub fn remainder(a: u32, b: u32) -> u32
    ensures { result ≡ spec.remainder a b }
{
    if b == 0 {
        a
    } else {
        a.cast_signed()
            .wrapping_rem(b.cast_signed())
            .cast_unsigned()
    }
}

/// The remainder of two unsigned words; a where b is 0.
#[inline]
pub fn remainder_unsigned(a: u32, b: u32) -> u32
    ensures { result ≡ spec.remainder_unsigned a b }
{
    if b == 0 { a } else { a % b }
}
