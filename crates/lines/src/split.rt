// A text line by line.
ghost use Rattle.std.specs.Prelude.{length};
ghost use Rattle.std.specs.Iterator.{at_most, YieldsFirstRef};
ghost use Rattle.lines.specs.Split.{lines_of};

// The lines that are left: no numbers and no limit, which the lines of files have in their invariant.
#[derive(Drop)]
pub struct Lines<'a> {
    pub rest: &'a [u8],
}

impl<'a> Iterator for Lines<'a> {
    type Item = &'a [u8];

    ghost next_gives = { YieldsFirstRef (λ lines. lines_of lines.rest.now) };

    ghost remaining = { λ lines. at_most (length lines.rest.now) };

    fn next(&mut self) -> Option<&'a [u8]> {
        let rest = self.rest;
        if rest.is_empty() {
            return None;
        }
        match rest.iter().position(|b| *b == b'\n') {
            None => {
                self.rest = &[];
                Some(rest)
            }
            Some(n) => {
                self.rest = &rest[n + 1..];
                Some(&rest[..n])
            }
        }
    }
}
