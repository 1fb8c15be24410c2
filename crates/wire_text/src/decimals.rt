// Decimal numbers as a request writes them.
ghost use Rattle.std.specs.Prelude.{◌≡◌, ℕ, MatchOption};
ghost use Rattle.wire_text.specs.Numbers.{IsDecimalText, begins_with_zero};

use dict_value::letters::DIGIT_0;
use dict_value::read_digits;

/// Whether digits stand behind a zero.
fn begins_with_zero(text: &[u8]) -> bool
    ensures { result ≡ begins_with_zero text.now }
{
    match text {
        [first, _, ..] => *first == DIGIT_0,
        _ => false,
    }
}

/// The number of 64 bits that a text writes: `0`, or digits that don't begin with `0`.
pub fn read_decimal(text: &[u8]) -> Option<u64>
    ensures { MatchOption result ((n : ℕ) → ¬ IsDecimalText text.now n) (λ n. IsDecimalText text.now n) }
{
    if begins_with_zero(text) {
        None
    } else {
        read_digits(text)
    }
}
