// Worked examples of the rules, proved of their definitions, and a roll over a roll.
#![tactic(auto)]

ghost use Rattle.std.specs.Prelude.{◌≡◌};
ghost use Rattle.chess.specs.Page.{write, blank, chess_model};
ghost use Rattle.roll.specs.Roll.{roll_model, first_page};
ghost use Rattle.worked.specs.Examples.{WorkedExamples};

use book::Book;
use chess::Chess;
use records::{Answer, Operation};
use roll::Roll;

// All the examples hold.
#[tactic(auto, using(crate::proofs::Computed::all_examples))]
pub fn worked_examples() -> u8
    ensures { WorkedExamples }
{
    0
}

// What a new book of chess says in hall 0 under two rolls: a roll over a roll is a book by the same proof.
pub fn verdict_under_two_rolls(upper: u32, lower: u32, op: Operation) -> Answer
    ensures { result ≡ (roll_model (roll_model chess_model)).answer (first_page upper (first_page lower (write blank))) op }
{
    let chess = Chess::new();
    let inner = Roll::new(lower, chess);
    let outer = Roll::new(upper, inner);
    outer.verdict(0, op)
}
