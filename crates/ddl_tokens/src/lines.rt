// Lines of a text.
ghost use Rattle.std.specs.Prelude.{◌≡◌, ◌≤◌, ◌<◌, length};
ghost use Rattle.ddl_tokens.specs.Lines.{line_of};

/// The line of a place, from 1.
pub fn line_of(text: &[u8], place: u32) -> u32
    requires size { length text.now < 4294967295 }
    requires inside { place ≤ length text.now }
    ensures { result ≡ line_of text.now place }
{
    let mut line = 1;
    for b in &text[..place as usize] {
        if *b == b'\n' {
            line += 1;
        }
    }
    line
}
