// What stands behind a backslash in a text.
ghost use Rattle.std.specs.Prelude.{◌≡◌, ◌<◌, IfSome};
ghost use Rattle.dict_value.specs.Escapes.{hex_digit as hex_digit_of, unescaped as unescaped_of};

use crate::letters::{
    BACKSPACE, BELL, CAPITAL_A, CAPITAL_F, CARRIAGE_RETURN, DIGIT_0, DIGIT_9, FORM_FEED, LETTER_A,
    LETTER_B, LETTER_F, LETTER_N, LETTER_R, LETTER_T, LETTER_V, LINE_FEED, NUL, TAB, VERTICAL_TAB,
};

/// The value of a hexadecimal digit: 0 to 9, A to F, a to f.
#[tactic(auto, unfolding(crate::specs::Escapes::hex_digit))]
pub fn hex_digit(b: u8) -> Option<u8>
    ensures value { result ≡ hex_digit_of b }
    ensures small { IfSome result (λ v. v < 16) }
{
    match b {
        DIGIT_0..=DIGIT_9 => Some(b - DIGIT_0),
        CAPITAL_A..=CAPITAL_F => Some(b - CAPITAL_A + 10),
        LETTER_A..=LETTER_F => Some(b - LETTER_A + 10),
        _ => None,
    }
}

/// The byte that a backslash and this byte stand for: the usual one of `b f r n t 0 a v`, and else
/// the byte itself.
#[tactic(auto, unfolding(crate::specs::Escapes::unescaped))]
pub fn unescaped(b: u8) -> u8
    ensures { result ≡ unescaped_of b }
{
    match b {
        LETTER_B => BACKSPACE,
        LETTER_F => FORM_FEED,
        LETTER_R => CARRIAGE_RETURN,
        LETTER_N => LINE_FEED,
        LETTER_T => TAB,
        DIGIT_0 => NUL,
        LETTER_A => BELL,
        LETTER_V => VERTICAL_TAB,
        _ => b,
    }
}
