// What was expected where a word is at fault.
use entries::Field;
use std::fmt;
use thiserror::Error;

#[derive(Clone, Copy, Debug, PartialEq, Eq, Hash)]
pub enum Expected {
    // the first word of a line
    Opening,
    // the first word of a line after the first call
    Call,
    Game,
    Class,
    Part,
    // the hall of a part
    Hall,
    // the first word of an operation
    Operation,
    // a place in the post, or a time
    Long,
    Value(Field),
    End,
}

impl fmt::Display for Expected {
    fn fmt<W: fmt::Write>(&self, f: &mut fmt::Formatter<W>) -> fmt::Result {
        match self {
            Expected::Opening => f.write_str("a heading or a call"),
            Expected::Call => f.write_str("a call or as, since headings come first"),
            Expected::Game => f.write_str("chess or bridge"),
            Expected::Class => f.write_str(
                "single, independent, coordinated or a number from 0 to 255",
            ),
            Expected::Part => f.write_str("at, all or the end of the line"),
            Expected::Hall => f.write_str("a number from 0 to 7"),
            Expected::Operation => f.write_str("an operation"),
            Expected::Long => f.write_str("a number from 0 to 18446744073709551615"),
            Expected::Value(field) => write!(f, "{field}"),
            Expected::End => f.write_str("the end of the line"),
        }
    }
}

// The leftmost word at fault, by its place in the line, counted from 1.
#[derive(Clone, Copy, Debug, PartialEq, Eq, Hash, Error)]
#[error("word {word}: expected {expected}")]
pub struct Misread {
    pub word: u64,
    pub expected: Expected,
}
