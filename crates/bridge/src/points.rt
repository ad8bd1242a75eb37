// The lines of a deal, and its match points.
ghost use Rattle.std.specs.Prelude.{◌≡◌, ◌<◌, ◌≤◌};
ghost use Rattle.bridge.specs.Points.{line, count, has_pair, elsewhere, won, against, points, east_west, deal_points};

use super::sheet::{Deal, Entry, PAIRS, Side};
use std::cmp::Ordering;

impl Side {
    // What this side gets for its score beside another's.
    fn won(self, mine: i32, theirs: i32) -> u32
        ensures value { result ≡ won self mine theirs }
        ensures few { result ≤ 2 }
    {
        let order = match self {
            Side::NorthSouth => mine.cmp(&theirs),
            Side::EastWest => theirs.cmp(&mine),
        };
        match order {
            Ordering::Greater => 2,
            Ordering::Equal => 1,
            Ordering::Less => 0,
        }
    }

    // What this side gets on its line from another.
    fn against(self, mine: Option<Entry>, theirs: Option<Entry>) -> u32
        ensures value { result ≡ against self mine theirs }
        ensures few { result ≤ 2 }
    {
        match (mine, theirs) {
            (Some(mine), Some(theirs)) => self.won(mine.score, theirs.score),
            _ => 0,
        }
    }
}

// Whether an East-West pair plays on this line.
fn has_pair(line: Option<Entry>, pair: usize) -> bool
    ensures { result ≡ has_pair pair line }
{
    line.is_some_and(|entry| usize::from(entry.pair) == pair)
}

impl Deal {
    // The line of a North-South pair; none past the last.
    pub(crate) fn line(&self, b: usize) -> Option<Entry>
        ensures { result ≡ line self.now b }
    {
        self.lines.get(b).copied().flatten()
    }

    // What a side gets on line b from the other lines.
    #[tactic(auto, using(book::proofs::Below::sum_none, book::proofs::Below::sum_more))]
    fn points(&self, side: Side, b: usize) -> u32
        ensures value { result ≡ points side self.now b }
        ensures few { result ≤ 16 }
    {
        // no `sum` here or below: the check does not see that its total fits
        let mut sum = 0;
        for (i, theirs) in self.lines.iter().enumerate() {
            if i != b {
                sum += side.against(self.line(b), *theirs);
            }
        }
        sum
    }

    // What an East-West pair gets.
    #[tactic(auto, using(book::proofs::Below::sum_none, book::proofs::Below::sum_more))]
    fn east_west(&self, pair: usize) -> u32
        ensures value { result ≡ east_west self.now pair }
        ensures few { result ≤ 128 }
    {
        let mut sum = 0;
        for (b, line) in self.lines.iter().enumerate() {
            if has_pair(*line, pair) {
                sum += self.points(Side::EastWest, b);
            }
        }
        sum
    }

    // What total i gets.
    pub(crate) fn points_for(&self, i: usize) -> u32
        ensures value { result ≡ deal_points self.now i }
        ensures few { result ≤ 128 }
    {
        if i < PAIRS {
            self.points(Side::NorthSouth, i)
        } else {
            self.east_west(i - PAIRS)
        }
    }

    // How many lines there are.
    #[tactic(auto, using(crate::proofs::Lines::count_lines))]
    pub(crate) fn count(&self) -> usize
        ensures { result ≡ count self.now }
    {
        self.lines.iter().filter(|line| line.is_some()).count()
    }

    // Whether an East-West pair plays on another line than b.
    pub(crate) fn has_elsewhere(&self, b: usize, pair: usize) -> bool
        ensures { result ≡ elsewhere self.now b pair }
    {
        self.lines
            .iter()
            .enumerate()
            .any(|(i, line)| i != b && has_pair(*line, pair))
    }
}
