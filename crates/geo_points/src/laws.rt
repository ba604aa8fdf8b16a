//! What is proved of points and the quantities on them. The functions do nothing: what
//! each says is its contract.

ghost use Rattle.geo_points.specs.Laws.{AlongMakesOnePoint, CrossingMakesOnePoint};
ghost use Rattle.geo_points.specs.Laws.{FootMakesOnePoint, PythagorasDifferenceIsOfSquares};
ghost use Rattle.geo_points.specs.Laws.{QuantitiesAreOfPoints, RatioScales, SignedAreaTurns};
ghost use Rattle.geo_points.specs.Laws.{TurnedMakesOnePoint, WeightsMakeOnePoint};

/// A signed area is half the cross product of two sides. A swap of two corners changes its sign, a
/// turn of the three keeps it, and it is 0 exactly where the corners lie on a line.
pub fn signed_area_turns()
    ensures { SignedAreaTurns }
{}

/// A Pythagoras difference is `AB² + CB² - AC²`.
pub fn pythagoras_difference_is_of_squares()
    ensures { PythagorasDifferenceIsOfSquares }
{}

/// Where the ratio of AB to CD is defined, it is the k with `B - A = k (D - C)`.
pub fn ratio_scales()
    ensures { RatioScales }
{}

/// Areas, Pythagoras differences and ratios are the same fractions for all triples that stand for
/// the same points.
pub fn quantities_are_of_points()
    ensures { QuantitiesAreOfPoints }
{}

/// The step `Y - W = r (V - U)` makes a point for any W, U, V and r, and only that one.
pub fn along_makes_one_point()
    ensures { AlongMakesOnePoint }
{}

/// Two lines that are not parallel have one common point.
pub fn crossing_makes_one_point()
    ensures { CrossingMakesOnePoint }
{}

/// A point has one foot on the line of two points that differ.
pub fn foot_makes_one_point()
    ensures { FootMakesOnePoint }
{}

/// The step `Y - U = r J (V - U)`, where J turns a vector a quarter counter-clockwise, makes a
/// point for any U, V and r, and only that one.
pub fn turned_makes_one_point()
    ensures { TurnedMakesOnePoint }
{}

/// The step `Y - O = r (U - O) + s (V - O)` makes a point for any O, U, V, r and s, and only that
/// one.
pub fn weights_make_one_point()
    ensures { WeightsMakeOnePoint }
{}
