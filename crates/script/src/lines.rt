// The lines of a text, and a text split at its first mark. Relies on nothing.
ghost use Rattle.std.specs.Prelude.{◌≡◌, length, MatchOption};
ghost use Rattle.std.specs.Iterator.{YieldsFirstRef, item_count};
ghost use Rattle.std.specs.Option.{option_map};
ghost use Rattle.script.specs.Lines.{parts, split_at_mark, lines, FirstLine};
ghost use Rattle.script.specs.LinesOf.{lines_left};

// The parts before and after the first `mark`, where there is one.
pub fn split_once(text: &[u8], mark: u8) -> Option<(&[u8], &[u8])>
    ensures value { option_map parts result ≡ split_at_mark mark text.now }
{
    let i = text.iter().position(|byte| *byte == mark)?;
    Some((&text[..i], &text[i + 1..]))
}

// The first line, without its newline, and the rest of the text.
pub fn next_line(text: &[u8]) -> Option<(&[u8], &[u8])>
    ensures cases { MatchOption result (length text.now ≡ 0) (λ p. FirstLine text.now p.0.now p.1.now) }
{
    if text.is_empty() {
        return None;
    }
    Some(split_once(text, b'\n').unwrap_or((text, &[])))
}

// The lines of a text, each without its newline.
#[derive(Drop)]
pub struct Lines<'a> {
    rest: &'a [u8],
}

impl<'a> Lines<'a> {
    pub fn new(text: &'a [u8]) -> Lines<'a>
        ensures made { lines_left result ≡ lines text.now }
    {
        Lines { rest: text }
    }
}

impl<'a> Iterator for Lines<'a> {
    type Item = &'a [u8];

    ghost next_gives = { YieldsFirstRef lines_left };

    ghost remaining = { item_count lines_left };

    fn next(&mut self) -> Option<&'a [u8]> {
        let (line, rest) = next_line(self.rest)?;
        self.rest = rest;
        Some(line)
    }
}
