// The lines of a text, one by one, and their count, or the first of them that is not well formed: the first walk of the reader of
// comma lines.
#![tactic(auto)]

ghost use Rattle.std.specs.Prelude.{◌≡◌};
ghost use Rattle.comma.specs.Text.{cards_in};
ghost use Rattle.count_lines.specs.Count.{count_from};

// The lines that are left of a text.
#[derive(Drop)]
pub struct Lines<'a> {
    rest: &'a [u8],
}

impl<'a> Iterator for Lines<'a> {
    ghost use Rattle.std.specs.Iterator.{YieldsFirstBy, item_count};
    ghost use Rattle.count_lines.specs.Left.{lines_left};

    type Item = &'a [u8];

    ghost next_gives = { YieldsFirstBy (λ line. line.now) lines_left };

    ghost remaining = { item_count lines_left };

    // The next line, without its line feed; the last may have none.
    #[tactic(auto, using(crate::specs::Laws::first_line, crate::specs::Laws::no_line))]
    fn next(&mut self) -> Option<&'a [u8]> {
        if self.rest.is_empty() {
            return None;
        }
        let end = pieces::end_of(self.rest, b'\n');
        let line = &self.rest[..end];
        self.rest = self.rest.get(end + 1..).unwrap_or(&[]);
        Some(line)
    }
}

impl<'a> Lines<'a> {
    ghost use Rattle.comma.specs.Text.{lines_of};
    ghost use Rattle.count_lines.specs.Left.{lines_left};

    // The lines of a text.
    pub fn of(text: &'a [u8]) -> Self
        ensures { lines_left result ≡ lines_of text.now }
    {
        Lines { rest: text }
    }
}

// The first walk: how many lines a text has, or the number of the first that is not well formed, counted from 1. Every line is looked
// at, whatever the buffer is, so that a bad line is found before anything else.
pub fn count_lines(text: &[u8]) -> Result<usize, usize>
    ensures { result ≡ count_from 0 (cards_in text.now) }
{
    let mut count = 0usize;
    for line in Lines::of(text) {
        if read_line::line_of(line).is_none() {
            return Err(count + 1);
        }
        count += 1;
    }
    Ok(count)
}
