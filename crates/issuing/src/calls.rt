// The morning's calls, and what a congress says to each.
use congress::{Congress, Refusal};
use records::{Class, Message, Operation};

// Numbers of consoles and halls are plain, since some of the calls are to be refused for them.
#[derive(Clone, Copy, Debug, PartialEq, Eq, Hash)]
pub enum Call {
    // how many halls
    Open(u8),
    Issue {
        console: u8,
        class: Class,
        halls: u8,
    },
    Clock {
        hall: u8,
        time: u64,
    },
    // a place in the post
    Drop(usize),
    // a transaction number
    Find(u32),
}

// What was said to a call that was not refused.
#[derive(Clone, Copy, Debug, PartialEq, Eq, Hash)]
pub enum Said {
    Done,
    Transaction(u32),
    Place(Option<usize>),
}

pub fn morning() -> [Call; 18] {
    let two_halls_of_console_3 = Call::Issue {
        console: 3,
        class: Class::Independent,
        halls: 0b0101,
    };
    let one_hall_of_console_0 = Call::Issue {
        console: 0,
        class: Class::Single,
        halls: 0b0010,
    };
    [
        two_halls_of_console_3,
        Call::Open(9),
        Call::Open(4),
        Call::Clock { hall: 2, time: 9 },
        Call::Clock { hall: 4, time: 9 },
        Call::Clock {
            hall: 2,
            time: 0x1_0000_0000_0001,
        },
        two_halls_of_console_3,
        two_halls_of_console_3,
        Call::Issue {
            console: 16,
            class: Class::Single,
            halls: 0b0001,
        },
        Call::Issue {
            console: 5,
            class: Class::Coordinated,
            halls: 0b1111,
        },
        one_hall_of_console_0,
        Call::Find(21),
        Call::Drop(0),
        Call::Find(19),
        Call::Find(21),
        Call::Drop(5),
        one_hall_of_console_0,
        Call::Find(37),
    ]
}

// In hall h, players 1 and 2 are seated at board h.
fn seat(h: u16) -> Operation {
    Operation {
        kind: chess::Kind::Seat as u8,
        a: h,
        b: 1,
        c: 2,
        ..Operation::default()
    }
}

pub fn make(congress: &mut Congress, post: &mut [Message], call: Call) -> Result<Said, Refusal> {
    match call {
        Call::Open(number) => {
            congress.open(number)?;
            Ok(Said::Done)
        }
        Call::Clock { hall, time } => {
            congress.set_clock(hall, time)?;
            Ok(Said::Done)
        }
        Call::Drop(place) => {
            congress.drop_message(post, place)?;
            Ok(Said::Done)
        }
        Call::Issue {
            console,
            class,
            halls,
        } => {
            let seats = [0, 1, 2, 3, 4, 5, 6, 7].map(seat);
            let number = congress.issue(post, console, u8::from(class), halls, seats)?;
            Ok(Said::Transaction(number))
        }
        Call::Find(number) => Ok(Said::Place(congress.find(post, number)?)),
    }
}
