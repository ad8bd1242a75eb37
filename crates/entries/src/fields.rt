// What a word of a line stands for.
ghost use Rattle.std.specs.Prelude.{◌≡◌, ◌+◌, ◌<◌, ◌≤◌, ℤ, List, ℕ, [], pos, option_map, IfSome, Ok};
ghost use Rattle.chess.specs.Asking.{outcome_number};
ghost use Rattle.entries.specs.Fields.{number, whole, result_of, game, value};
ghost use Rattle.entries.specs.Reading.{misread, and_then, field, ended};
ghost use Rattle.entries.specs.Words.{first_word, past_word};
ghost use Rattle.entries.specs.declared.Field.{Field};
ghost use Rattle.entries.specs.declared.Field.TheVariants as Field;

use crate::words::{Word, Words};
use crate::{Expected, Field, Game, Misread};
use chess::Outcome;

// How far below zero a whole number goes.
const WHOLE_BELOW_ZERO: u64 = 2147483648;

// The number that the digits of a word stand for, where it is at most `limit`. Past the limit no digit brings a value
// back, so the loop stops there, long before an overflow.
pub fn number_to(limit: u64, word: &[u8]) -> Option<u64>
    ensures value { result ≡ number limit word.now }
    ensures within { IfSome result (λ n. n ≤ limit) }
{
    if word.is_empty() {
        return None;
    }
    let mut value: u128 = 0;
    for byte in word {
        if !byte.is_ascii_digit() {
            return None;
        }
        value = value * 10 + u128::from(*byte - b'0');
        if value > u128::from(limit) {
            return None;
        }
    }
    Some(value as u64)
}

// The number that the digits of a word stand for, with a minus sign in front where it is written.
fn whole_number(word: &[u8]) -> Option<i32>
    ensures { result ≡ whole word.now }
{
    match word {
        [b'-', digits @ ..] => {
            let n = number_to(WHOLE_BELOW_ZERO, digits)?;
            Some(-(n as i64) as i32)
        }
        _ => Some(number_to(i32::MAX as u64, word)? as i32),
    }
}

// A type of the values that a word can stand for.
pub trait Value: Sized {
    // Which field the word is, and the number that a value stands for.
    const FIELD: Field;

    ghost FIELD: { Field };

    ghost number: { Self → ℤ };

    fn of(word: &[u8]) -> Option<Self>
        ensures { option_map number result ≡ value FIELD word.now };
}

impl Value for u8 {
    const FIELD: Field = Field::Byte;

    ghost FIELD = { Field.Byte };

    ghost number = { pos };

    fn of(word: &[u8]) -> Option<u8> {
        Some(number_to(u64::from(u8::MAX), word)? as u8)
    }
}

impl Value for u16 {
    const FIELD: Field = Field::Number;

    ghost FIELD = { Field.Number };

    ghost number = { pos };

    fn of(word: &[u8]) -> Option<u16> {
        Some(number_to(u64::from(u16::MAX), word)? as u16)
    }
}

impl Value for u32 {
    const FIELD: Field = Field::Token;

    ghost FIELD = { Field.Token };

    ghost number = { pos };

    fn of(word: &[u8]) -> Option<u32> {
        Some(number_to(u64::from(u32::MAX), word)? as u32)
    }
}

impl Value for i32 {
    const FIELD: Field = Field::Whole;

    ghost FIELD = { Field.Whole };

    ghost number = { λ z. z };

    fn of(word: &[u8]) -> Option<i32> {
        whole_number(word)
    }
}

// A number from 0 on, as a type of its own: an i32 is any whole number.
#[derive(Clone, Copy, Debug, PartialEq, Eq, Hash)]
pub struct Count(pub i32);

impl Value for Count {
    const FIELD: Field = Field::Count;

    ghost FIELD = { Field.Count };

    ghost number = { λ count. count.0 };

    fn of(word: &[u8]) -> Option<Count> {
        Some(Count(number_to(i32::MAX as u64, word)? as i32))
    }
}

impl Value for Outcome {
    const FIELD: Field = Field::Score;

    ghost FIELD = { Field.Score };

    ghost number = { λ outcome. pos (outcome_number outcome) };

    fn of(word: &[u8]) -> Option<Outcome> {
        match word {
            b"1-0" => Some(Outcome::White),
            b"1/2" => Some(Outcome::Draw),
            b"0-1" => Some(Outcome::Black),
            _ => None,
        }
    }
}

pub fn game_of(word: &[u8]) -> Option<Game>
    ensures { result ≡ game word.now }
{
    match word {
        b"chess" => Some(Game::Chess),
        b"bridge" => Some(Game::Bridge),
        _ => None,
    }
}

// A word as a field of its line, or what is wrong with it.
impl Word<'_> {
    pub fn misread(self, expected: Expected) -> Misread
        ensures { result ≡ misread self.entry.place expected }
    {
        Misread {
            word: self.place,
            expected,
        }
    }
}

impl Words<'_> {
    // The next word as a field.
    pub fn field<T: Value>(&mut self) -> Result<T, Misread>
        requires { self.old.place < 255 }
        ensures value { and_then result (λ v. Ok (T.number v)) ≡ field T.FIELD self.old.place (first_word self.old.rest.now) }
        ensures rest { self.new.rest.now ≡ past_word self.old.rest.now }
        ensures further { self.new.place ≡ self.old.place + 1 }
    {
        let word = self.next();
        match T::of(word.text) {
            Some(value) => Ok(value),
            None => Err(word.misread(Expected::Value(T::FIELD))),
        }
    }

    // No word is left.
    pub fn end(mut self) -> Result<(), Misread>
        requires { self.place < 255 }
        ensures { and_then result (λ _. Ok []) ≡ ended self.entry.place (first_word self.entry.rest.now) }
    {
        let word = self.next();
        if word.text.is_empty() {
            Ok(())
        } else {
            Err(word.misread(Expected::End))
        }
    }
}
