// What each operation answers and makes of a board.
ghost use Rattle.std.proofs.Common.{arith};
ghost use Rattle.std.specs.Prelude.{◌≡◌, ◌≤◌, refl};
ghost use Rattle.chess.specs.Laws.{chess_fits};
ghost use Rattle.chess.specs.Page.{game_numbers, chess};
ghost use Rattle.chess.specs.Rules.{result_number, seat_says, enter_says, read_says, white_points, black_points};

use super::asking::{BoardAsk, asked, keys};
use super::sheet::{BOARDS, Board, Game, Outcome, PLAYERS};
use book::Halls;
use records::Operation;
use rounds::{Ask, Cell, Fault, Kept};

// The layer of this book's answers.
pub const LAYER: u8 = 1;

// How many numbers a board has on a page.
const WIDTH: usize = 4;

// The book of chess: a sheet of boards for each of eight halls.
pub type Chess = Halls<Kept<Board, BOARDS, PLAYERS>>;

fn number_of(ended: Option<Outcome>) -> u8
    ensures value { result ≡ result_number ended }
    ensures small { result ≤ 3 }
{
    ended.map_or(0, u8::from)
}

// The half points of white and of black.
fn points_of(ended: Option<Outcome>) -> (u32, u32)
    ensures white { result.0 ≡ white_points ended }
    ensures black { result.1 ≡ black_points ended }
    ensures few { (result.0 ≤ 2) × (result.1 ≤ 2) }
{
    match ended {
        Some(Outcome::White) => (2, 0),
        Some(Outcome::Draw) => (1, 1),
        Some(Outcome::Black) => (0, 2),
        None => (0, 0),
    }
}

impl Board {
    // Its numbers on a page.
    fn numbers(self) -> [i64; WIDTH]
        ensures { result ≡ game_numbers self.game }
    {
        match self.game {
            Some(game) => [
                1,
                i64::from(game.white),
                i64::from(game.black),
                i64::from(number_of(game.result)),
            ],
            None => [0; WIDTH],
        }
    }

    fn say_to_seat(self) -> Result<i32, Fault>
        ensures { result ≡ seat_says self.game }
    {
        match self.game {
            Some(game) if game.result.is_some() => Err(Fault::HasResult),
            _ => Ok(0),
        }
    }

    fn say_to_enter(self, current: u16, round: u16, ended: Option<Outcome>) -> Result<i32, Fault>
        ensures { result ≡ enter_says self.game current round ended }
    {
        let game = self.game.ok_or(Fault::Nothing)?;
        if round != current {
            return Err(Fault::OtherRound);
        }
        ended.ok_or(Fault::BadResult)?;
        Ok(i32::from(number_of(game.result)))
    }

    fn say_to_read(self) -> Result<i32, Fault>
        ensures { result ≡ read_says self.game }
    {
        let game = self.game.ok_or(Fault::Nothing)?;
        Ok(i32::from(number_of(game.result)))
    }
}

impl Cell<BOARDS, PLAYERS> for Board {
    type Ask = BoardAsk;

    ghost game = { chess };

    const LAYER: u8 = LAYER;

    ghost LAYER = { 1 };

    const WIDTH: usize = WIDTH;

    ghost WIDTH = { 4 };

    ghost wide = { refl };

    ghost has_numbers = { Prim.omega arith };

    ghost fits = { chess_fits };

    ghost roomy = { Prim.omega arith };

    fn empty() -> Board {
        Board { game: None }
    }

    fn asked(op: Operation) -> Result<Ask<BoardAsk, BOARDS, PLAYERS>, Fault> {
        asked(op)
    }

    fn keys(op: Operation) -> u64 {
        keys(op)
    }

    fn say(&self, current: u16, ask: BoardAsk) -> Result<i32, Fault> {
        match ask {
            BoardAsk::Seat(_, _) => self.say_to_seat(),
            BoardAsk::Enter(round, ended) => self.say_to_enter(current, round, ended),
            BoardAsk::Read => self.say_to_read(),
        }
    }

    fn change(&mut self, ask: BoardAsk) {
        match ask {
            BoardAsk::Seat(white, black) => {
                self.game = Some(Game {
                    white,
                    black,
                    result: None,
                });
            }
            BoardAsk::Enter(_, ended) => self.game = self.game.map(|game| Game {
                result: ended,
                ..game
            }),
            BoardAsk::Read => {}
        }
    }

    fn is_used(&self) -> bool {
        self.game.is_some()
    }

    fn is_settled(&self) -> bool {
        self.game.is_none_or(|game| game.result.is_some())
    }

    // The half points that player `total` + 1 gains here.
    fn gain(&self, total: usize) -> u32 {
        let Some(game) = self.game else {
            return 0;
        };
        let (white, black) = points_of(game.result);
        let mut points = 0;
        if usize::from(game.white).checked_sub(1) == Some(total) {
            points += white;
        }
        if usize::from(game.black).checked_sub(1) == Some(total) {
            points += black;
        }
        points
    }

    fn number(&self, j: usize) -> Option<i64> {
        self.numbers().get(j).copied()
    }
}
