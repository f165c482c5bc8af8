// The lines of a text, one by one.
ghost use Rattle.std.specs.Prelude.{length};
ghost use Rattle.std.specs.Iterator.{at_most};
ghost use Rattle.image.specs.Lines.{Takes};

// A line's characters, and whether an LF ends it.
#[derive(Clone, Copy)]
pub struct Line<'a> {
    pub chars: &'a [u8],
    pub ended: bool,
}

// The lines of what is left of a text.
#[derive(Drop)]
pub struct Lines<'a>(pub &'a [u8]);

impl<'a> Iterator for Lines<'a> {
    type Item = Line<'a>;

    ghost next_gives = { λ s r t. Takes s.0.now r t.0.now };

    ghost remaining = { λ s. at_most (length s.0.now) };

    fn next(&mut self) -> Option<Line<'a>> {
        if self.0.is_empty() {
            return None;
        }
        let chars = frame::next_line(self.0);
        let after = self.0.get(chars.len() + 1..);
        self.0 = after.unwrap_or(&[]);
        Some(Line {
            chars,
            ended: after.is_some(),
        })
    }
}
