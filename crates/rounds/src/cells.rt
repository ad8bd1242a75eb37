// The cells of a sheet: the boards of chess or the deals of bridge.
ghost use Rattle.std.specs.Prelude.{◌≡◌, ℕ, ◌≤◌};
ghost use Rattle.std.specs.List.{slice_get};
ghost use Rattle.rounds.specs.Games.{Game};
ghost use Rattle.rounds.specs.Fits.{Fits};
ghost use Rattle.rounds.specs.Rooms.{AskFitsInMemory};

use super::Fault;
use super::asks::Ask;
use records::Operation;

// A board or a deal, and what its game says of it; `Kept` makes the sheet of a hall of that.
pub trait Cell<const CELLS: usize, const TOTALS: usize>: Copy {
    // what can be asked of it
    type Ask: Copy;

    ghost game: { Game Self Self.Ask CELLS TOTALS };

    // the book's number in its answers
    const LAYER: u8;

    ghost LAYER: { ℕ };

    // how many numbers it has on a page
    const WIDTH: usize;

    ghost WIDTH: { ℕ };

    // Nothing is played here.
    fn empty() -> Self
        ensures { result ≡ game.empty };

    fn asked(op: Operation) -> Result<Ask<Self::Ask, CELLS, TOTALS>, Fault>
        ensures { result ≡ game.asked op };

    // The keys that an operation needs, bit k for key k.
    fn keys(op: Operation) -> u64
        ensures { result ≡ game.keys op };

    // The value of what would be well done here in the current round, or why it is not done.
    fn say(&self, current: u16, ask: Self::Ask) -> Result<i32, Fault>
        ensures { result ≡ game.says self.now current ask };

    // Makes the change of what is well done.
    fn change(&mut self, ask: Self::Ask)
        ensures { self.new ≡ game.changed self.old ask };

    fn is_used(&self) -> bool
        ensures { result ≡ game.used self.now };

    // Whether nothing is left to be played here.
    fn is_settled(&self) -> bool
        ensures { result ≡ game.settled self.now };

    // What a total gains here.
    fn gain(&self, total: usize) -> u32
        ensures value { result ≡ game.gain total self.now }
        ensures few { result ≤ game.most };

    // Number j of its numbers on a page; none past the last.
    fn number(&self, j: usize) -> Option<i64>
        ensures { result ≡ slice_get (game.numbers self.now) j };

    ghost wide: { WIDTH ≡ game.width };

    // it has at least one
    ghost has_numbers: { 1 ≤ WIDTH };

    ghost fits: { Fits LAYER game };

    // what is asked can be passed by value
    ghost roomy: { AskFitsInMemory Self.Ask.row CELLS.row TOTALS.row };
}
