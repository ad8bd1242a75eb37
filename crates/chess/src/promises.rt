// What chess promises of points: theorems, with no code of their own.
ghost use Rattle.chess.specs.Promises.{GamesGiveAPoint, PointsStayElse};

// A closed round gives out one point for each game, and nothing else gives any.
pub fn games_give_a_point() -> u8
    ensures closing { GamesGiveAPoint }
    ensures other { PointsStayElse }
{
    0
}
