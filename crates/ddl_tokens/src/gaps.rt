// What stands between tokens.
ghost use Rattle.std.specs.Prelude.{◌≡◌, ◌≤◌, ℕ, length, Ok, Err, IfSome, MatchOption, MatchResult};
ghost use Rattle.ddl_tokens.specs.steps.Lexer.{after_gap, between, line, block};

use crate::letters::is_space;

/// What stands behind the line.
#[tactic(auto, unfolding(crate::specs::steps::Lexer::after_gap))]
fn after_line(text: &[u8]) -> &[u8]
    ensures value { after_gap line 0 text.now ≡ after_gap between 0 result.now }
    ensures shorter { length result.now ≤ length text.now }
{
    let mut rest = text;
    while let [b, behind @ ..] = rest {
        rest = behind;
        if *b == b'\n' {
            return rest;
        }
    }
    rest
}

/// What stands behind the end of the comment.
#[tactic(auto, unfolding(crate::specs::steps::Lexer::after_gap))]
fn after_block(text: &[u8]) -> Option<&[u8]>
    ensures value { MatchOption result ((from : ℕ) → after_gap block from text.now ≡ Err from)
        (λ r. (from : ℕ) → after_gap block from text.now ≡ after_gap between 0 r.now) }
    ensures shorter { IfSome result (λ r. length r.now ≤ length text.now) }
{
    let mut rest = text;
    while let [b, behind @ ..] = rest {
        if *b == b'*'
            && let [b'/', tail @ ..] = behind
        {
            return Some(tail);
        }
        rest = behind;
    }
    None
}

/// What stands behind blanks and comments, or how many bytes there are from the comment on that has
/// no end.
#[tactic(auto, unfolding(crate::specs::steps::Lexer::after_gap))]
pub(crate) fn after_gap(text: &[u8]) -> Result<&[u8], usize>
    ensures value { MatchResult result (λ r. after_gap between 0 text.now ≡ Ok r.now)
        (λ n. after_gap between 0 text.now ≡ Err n) }
    ensures within { MatchResult result (λ r. length r.now ≤ length text.now) (λ n. n ≤ length text.now) }
{
    let mut rest = text;
    loop {
        match rest {
            [b'-', b'-', behind @ ..] => rest = after_line(behind),
            [b'/', b'*', behind @ ..] => match after_block(behind) {
                Some(r) => rest = r,
                None => return Err(rest.len()),
            },
            [b, behind @ ..] if is_space(*b) => rest = behind,
            _ => return Ok(rest),
        }
    }
}
