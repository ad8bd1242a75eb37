// What bridge promises of match points: theorems, with no code of their own.
ghost use Rattle.bridge.specs.Promises.{SidesSharePoints, PointsStayElse};

// The two sides of a line share 2 points for each other line, and only a closed round gives any.
#[tactic(auto, using(crate::proofs::Sharing::sides_share_points_lem, crate::proofs::Sharing::points_stay_else))]
pub fn sides_share_points() -> u8
    ensures sharing { SidesSharePoints }
    ensures other { PointsStayElse }
{
    0
}
