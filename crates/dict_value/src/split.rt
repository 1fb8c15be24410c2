// A text cut at the first of some byte.
ghost use Rattle.std.specs.Prelude.{◌≡◌, ◌∷◌, ◌++◌, MatchOption};
ghost use Rattle.dict_value.specs.Split.{Lacks};

/// What stands before the first such byte and after it, or nothing where the text lacks it.
pub fn split_at_byte(text: &[u8], byte: u8) -> Option<(&[u8], &[u8])>
    ensures { MatchOption result (Lacks byte text.now)
        (λ parts. (text.now ≡ parts.0.now ++ byte ∷ parts.1.now) × Lacks byte parts.0.now) }
{
    for (place, b) in text.iter().enumerate() {
        if *b == byte {
            return Some((&text[..place], &text[place + 1..]));
        }
    }
    None
}
