// The laws of fixed points. The function does nothing: it states them.
ghost use Rattle.fixed_points.specs.Laws.{TellsFixedPoints, FixedPointsStay};

/// The test of states passes exactly at fixed points, and no step leaves a fixed point.
pub fn fixed_point_laws()
    ensures tells { TellsFixedPoints }
    ensures stay { FixedPointsStay }
{}
