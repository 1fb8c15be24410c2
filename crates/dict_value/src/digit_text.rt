// Numbers as a request, a row and a command line write them: decimal digits alone.
ghost use Rattle.std.specs.Prelude.{◌≡◌, MatchOption};
ghost use Rattle.std.specs.Str.Parse.{digits_value};
ghost use Rattle.dict_value.specs.Digits.{IsDigits};

/// The greatest number of digits that are read: those of 18446744073709551615.
const U64_DIGITS: usize = 20;

/// The number that one to twenty decimal digits write, where it is at most 18446744073709551615.
pub fn read_digits(text: &[u8]) -> Option<u64>
    ensures { MatchOption result (¬ (IsDigits text.now))
        (λ n. IsDigits text.now × (n ≡ digits_value 10 text.now)) }
{
    if text.is_empty() || text.len() > U64_DIGITS {
        return None;
    }
    let mut number: u64 = 0;
    for byte in text {
        if !byte.is_ascii_digit() {
            return None;
        }
        let digit = u64::from(*byte - b'0');
        let Some(tens) = number.checked_mul(10) else {
            return None;
        };
        let Some(next) = tens.checked_add(digit) else {
            return None;
        };
        number = next;
    }
    Some(number)
}
