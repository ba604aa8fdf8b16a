//! What is proved of drawings. The functions do nothing: what each says is its contract.

ghost use Rattle.geo_figure.specs.Laws.{PointsHaveADrawing, PointsHaveOneDrawing};

/// Placed points have one drawing at most.
pub fn points_have_one_drawing()
    ensures { PointsHaveOneDrawing }
{}

/// Placed points have a drawing, or a line at which a number is too large.
pub fn points_have_a_drawing()
    ensures { PointsHaveADrawing }
{}
