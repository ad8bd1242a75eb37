// A line cut into words, and what a word stands for.
ghost use Rattle.std.specs.Prelude.{◌≡◌, ◌+◌, ◌<◌, ◌≤◌, length, Ok};
ghost use Rattle.entries.specs.Words.{first_word, past_word};
ghost use Rattle.script.specs.Words.{misread, and_then, left, place_after, field, game_word, class_named, class, class_word, hall_word, long_word, at_end};

use crate::{Expected, Misread};
use entries::{Game, Value, game_of, number_to};
use records::{Below, Class};

// A word of a line, empty where there is none, and its place in the line.
#[derive(Clone, Copy, Debug, PartialEq, Eq, Hash)]
pub struct Word<'a> {
    pub text: &'a [u8],
    pub place: u64,
}

impl Word<'_> {
    pub fn misread(self, expected: Expected) -> Misread
        ensures { result ≡ misread self.entry.place expected }
    {
        Misread {
            word: self.place,
            expected,
        }
    }
}

// What is left of a line, and the place of the next word. A line may have any number of words, which are no more than its
// bytes.
#[derive(Clone, Copy, Debug, PartialEq, Eq, Hash)]
pub struct Words<'a> {
    pub rest: &'a [u8],
    pub place: u64,
    ghost few: { place + length rest.now ≤ 9223372036854775808 },
}

// An Option and no TryFrom: any number may stand in place of a name.
fn class_named(word: &[u8]) -> Option<Class>
    ensures { result ≡ class_named word.now }
{
    if word == b"single".as_slice() {
        Some(Class::Single)
    } else if word == b"independent".as_slice() {
        Some(Class::Independent)
    } else if word == b"coordinated".as_slice() {
        Some(Class::Coordinated)
    } else {
        None
    }
}

// A class by its name, or any number.
fn class_of(word: &[u8]) -> Option<u8>
    ensures { result ≡ class word.now }
{
    match class_named(word) {
        Some(class) => Some(class as u8),
        None => Some(number_to(u64::from(u8::MAX), word)? as u8),
    }
}

impl<'a> Words<'a> {
    pub fn of(line: &'a [u8]) -> Words<'a>
        ensures rest { result.rest.now ≡ line.now }
        ensures place { result.place ≡ 1 }
    {
        Words {
            rest: line,
            place: 1,
        }
    }

    // The next word. Where none is left, the place stays.
    #[tactic(auto, using(crate::proofs::Places::past_shorter))]
    pub fn next(&mut self) -> Word<'a>
        ensures word { result.text.now ≡ first_word self.old.rest.now }
        ensures place { result.place ≡ self.old.place }
        ensures rest { self.new.rest.now ≡ past_word self.old.rest.now }
        ensures further { self.new.place ≡ place_after self.old.place (first_word self.old.rest.now) }
        ensures shorter { 0 < length (first_word self.old.rest.now) → length self.new.rest.now < length self.old.rest.now }
    {
        let mut words = entries::Words::at(1, self.rest);
        let text = words.next().text;
        let place = self.place;
        let after = if text.is_empty() { place } else { place + 1 };
        *self = Words {
            rest: words.rest,
            place: after,
        };
        Word { text, place }
    }

    // The next word as a field.
    #[tactic(auto, using(crate::proofs::Places::no_value))]
    pub fn field<T: Value>(&mut self) -> Result<T, Misread>
        ensures { and_then result (λ v. Ok (T.number v, self.new.place, self.new.rest.now)) ≡ field T.FIELD self.old.place self.old.rest.now }
    {
        let word = self.next();
        match T::of(word.text) {
            Some(value) => Ok(value),
            None => Err(word.misread(Expected::Value(T::FIELD))),
        }
    }

    pub fn game(&mut self) -> Result<Game, Misread>
        ensures { left result self.new.place self.new.rest.now ≡ game_word self.old.place self.old.rest.now }
    {
        let word = self.next();
        match game_of(word.text) {
            Some(game) => Ok(game),
            None => Err(word.misread(Expected::Game)),
        }
    }

    pub fn class(&mut self) -> Result<u8, Misread>
        ensures { left result self.new.place self.new.rest.now ≡ class_word self.old.place self.old.rest.now }
    {
        let word = self.next();
        match class_of(word.text) {
            Some(class) => Ok(class),
            None => Err(word.misread(Expected::Class)),
        }
    }

    // The next word as one of the eight halls.
    pub fn hall(&mut self) -> Result<Below<8>, Misread>
        ensures { left result self.new.place self.new.rest.now ≡ hall_word self.old.place self.old.rest.now }
    {
        let word = self.next();
        match number_to(7, word.text) {
            Some(hall) => match Below::new(hall as usize) {
                Some(hall) => Ok(hall),
                None => Err(word.misread(Expected::Hall)),
            },
            None => Err(word.misread(Expected::Hall)),
        }
    }

    // The next word as a place in the post or a time.
    pub fn long(&mut self) -> Result<u64, Misread>
        ensures { left result self.new.place self.new.rest.now ≡ long_word self.old.place self.old.rest.now }
    {
        let word = self.next();
        match number_to(u64::MAX, word.text) {
            Some(number) => Ok(number),
            None => Err(word.misread(Expected::Long)),
        }
    }

    // No word is left.
    pub fn end(mut self) -> Result<(), Misread>
        ensures { result ≡ at_end self.entry.place self.entry.rest.now }
    {
        let word = self.next();
        if word.text.is_empty() {
            Ok(())
        } else {
            Err(word.misread(Expected::End))
        }
    }
}
