// Classes of transactions, and statuses of votes and replies.
ghost use Rattle.std.specs.Prelude.{◌≡◌};
ghost use Rattle.records.specs.Classes.{class_number, class_of, status_number, status_of};
ghost use Rattle.records.specs.Numbers.{Reads};

use super::numbers::UnknownNumber;

// How a transaction's halls work together.
#[derive(Clone, Copy, Debug, Default, PartialEq, Eq, Hash)]
pub enum Class {
    // one hall
    #[default]
    Single = 1,
    // two halls or more, each by itself
    Independent = 2,
    // two halls or more, all or none by what each would answer
    Coordinated = 3,
}

#[derive(Clone, Copy, Debug, PartialEq, Eq, Hash)]
pub enum Status {
    Commit = 1,
    Conflict = 2,
    Abort = 3,
}

impl From<Class> for u8 {
    ghost from_gives = { λ class number. number ≡ class_number class };

    fn from(class: Class) -> u8 {
        class as u8
    }
}

impl From<Status> for u8 {
    ghost from_gives = { λ status number. number ≡ status_number status };

    fn from(status: Status) -> u8 {
        status as u8
    }
}

impl TryFrom<u8> for Class {
    type Error = UnknownNumber;

    ghost try_from_gives = { Reads class_of };

    fn try_from(number: u8) -> Result<Class, UnknownNumber> {
        match number {
            1 => Ok(Class::Single),
            2 => Ok(Class::Independent),
            3 => Ok(Class::Coordinated),
            _ => Err(UnknownNumber(number)),
        }
    }
}

impl TryFrom<u8> for Status {
    type Error = UnknownNumber;

    ghost try_from_gives = { Reads status_of };

    fn try_from(number: u8) -> Result<Status, UnknownNumber> {
        match number {
            1 => Ok(Status::Commit),
            2 => Ok(Status::Conflict),
            3 => Ok(Status::Abort),
            _ => Err(UnknownNumber(number)),
        }
    }
}
