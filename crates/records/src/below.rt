// Numbers that are known to be in range: places in a table, halls, consoles.
ghost use Rattle.std.specs.Prelude.{◌≡◌, ℕ, ◌<◌};
ghost use Rattle.records.specs.Below.{below};

use std::marker::Model;

// A number below N, kept in 16 bits, since tables of them are copied. A contract sees the number itself.
#[derive(Clone, Copy, Debug, PartialEq, Eq, Hash)]
pub struct Below<const N: usize> {
    number: u16,
}

// So many numbers there are of 16 bits.
const MOST: usize = 65536;

impl<const N: usize> Model for Below<N> {
    ghost Value = { ℕ };

    ghost view = { λ b. b.number };

    ghost invariant = { λ b. b.number < N };

    ghost inverse = { λ n. record { number = n } };
}

impl<const N: usize> Below<N> {
    // The number, where it is below N; no number above 65,535 is.
    pub fn new(number: usize) -> Option<Below<N>>
        ensures { result ≡ below N number }
    {
        if number < N.min(MOST) {
            Some(Below {
                number: number as u16,
            })
        } else {
            None
        }
    }

    pub fn get(self) -> usize
        ensures value { result ≡ self.entry }
        ensures in_range { result < N }
    {
        self.number as usize
    }
}
