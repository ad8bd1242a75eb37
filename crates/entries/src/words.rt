// A text cut into lines, and a line into words.
ghost use Rattle.std.specs.Prelude.{◌≡◌, ℕ, Bool, ◌+◌, ◌<◌, ◌≤◌, length};
ghost use Rattle.std.specs.List.{position_or_len};
ghost use Rattle.std.specs.Iterator.{YieldsFirstBy, item_count};
ghost use Rattle.entries.specs.Words.{blank, line_of, rest_of, lines, first_word, past_word};

// How many bytes stand before the first at which `ends` answers true, or all of them where there is none.
fn length_until<F: Fn(u8) -> bool>(text: &[u8], ends: F) -> usize
    requires { F.IsAlwaysCallable ends }
    ensures place { (p : ℕ → Bool) → ((b : ℕ) (r : Bool) → F.post ends b r → r ≡ p b) → result ≡ position_or_len p text.now }
    ensures within { result ≤ length text.now }
{
    text.iter()
        .position(|byte| ends(*byte))
        .unwrap_or(text.len())
}

// The first line of a text, and what follows it.
pub fn first_line<'a>(text: &'a [u8]) -> (&'a [u8], &'a [u8])
    ensures line { result.0.now ≡ line_of text.now }
    ensures rest { result.1.now ≡ rest_of text.now }
    ensures shorter { 0 < length text.now → length result.1.now < length text.now }
{
    let (line, rest) = text.split_at(length_until(text, |byte| byte == b'\n'));
    match rest {
        [] => (line, rest),
        [_, after @ ..] => (line, after),
    }
}

// The lines of a text that are still to come.
#[derive(Clone, Copy, Debug, PartialEq, Eq, Hash)]
pub struct Lines<'a>(pub &'a [u8]);

impl<'a> Iterator for Lines<'a> {
    type Item = &'a [u8];

    ghost next_gives = { YieldsFirstBy (λ line. line.now) (λ s. lines s.0.now) };

    ghost remaining = { item_count (λ s. lines s.0.now) };

    #[tactic(auto, using(crate::proofs::Runs::lines_cut))]
    fn next(&mut self) -> Option<&'a [u8]> {
        if self.0.is_empty() {
            return None;
        }
        let (line, rest) = first_line(self.0);
        self.0 = rest;
        Some(line)
    }
}

fn is_blank(byte: u8) -> bool
    ensures { result ≡ blank byte }
{
    byte == b' ' || byte == b'\t' || byte == b'\r'
}

// A word of a line, empty where there is none, and its place in the line.
#[derive(Clone, Copy, Debug, PartialEq, Eq, Hash)]
pub struct Word<'a> {
    pub text: &'a [u8],
    pub place: u8,
}

// What is left of a line, and the place of the next word. What reads a word asks that the place is below 255, and no
// type has that bound: each word read raises the place.
#[derive(Clone, Copy, Debug, PartialEq, Eq, Hash)]
pub struct Words<'a> {
    pub rest: &'a [u8],
    pub place: u8,
}

impl<'a> Words<'a> {
    pub fn at(place: u8, rest: &'a [u8]) -> Words<'a>
        ensures rest { result.rest.now ≡ rest.now }
        ensures place { result.place ≡ place }
    {
        Words { rest, place }
    }

    pub fn next(&mut self) -> Word<'a>
        requires { self.old.place < 255 }
        ensures word { result.text.now ≡ first_word self.old.rest.now }
        ensures place { result.place ≡ self.old.place }
        ensures rest { self.new.rest.now ≡ past_word self.old.rest.now }
        ensures further { self.new.place ≡ self.old.place + 1 }
    {
        let (_, from) = self
            .rest
            .split_at(length_until(self.rest, |byte| !is_blank(byte)));
        let (text, rest) = from.split_at(length_until(from, is_blank));
        let place = self.place;
        self.rest = rest;
        self.place += 1;
        Word { text, place }
    }
}
