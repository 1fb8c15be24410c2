// The words of the command line.
ghost use Rattle.std.specs.Prelude.{◌≡◌, ℕ, List, map, string_bytes, MatchOption};
ghost use Rattle.dictd.specs.CommandLine.{IsDemo, IsOnce};

use dict_value::read_digits;

/// The most rows that `demo` makes.
pub const MOST_DEMO_ROWS: u64 = 1_000_000;

/// The name of the definitions file and the seed, where the words are `once DEFS SEED`.
pub fn once_words(words: &[String]) -> Option<(&String, u64)>
    ensures { MatchOption result ((name : List ℕ) (seed : ℕ) → IsOnce (map string_bytes words.now) name seed → ⊥)
        (λ called. IsOnce (map string_bytes words.now) (string_bytes called.0.now) called.1) }
{
    let [verb, name, seed] = words else {
        return None;
    };
    if verb.as_str() != "once" {
        return None;
    }
    match read_digits(seed.as_bytes()) {
        Some(number) => Some((name, number)),
        None => None,
    }
}

/// The number of rows and the seed, where the words are `demo N SEED`.
pub fn demo_words(words: &[String]) -> Option<(u64, u64)>
    ensures { MatchOption result ((rows seed : ℕ) → IsDemo (map string_bytes words.now) rows seed → ⊥)
        (λ called. IsDemo (map string_bytes words.now) called.0 called.1) }
{
    let [verb, rows, seed] = words else {
        return None;
    };
    if verb.as_str() != "demo" {
        return None;
    }
    let rows = read_digits(rows.as_bytes())?;
    let seed = read_digits(seed.as_bytes())?;
    if rows == 0 || rows > MOST_DEMO_ROWS {
        return None;
    }
    Some((rows, seed))
}
