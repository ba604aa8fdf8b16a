//! Worked logs that more than one module tests.

/// The middle of two points lies on their line.
pub const MIDDLE: &[&str] = &[
    "geolog 1",
    "| point A",
    "| point B",
    "| midpoint M A B",
    "| prove { collinear A M B }",
    "goal 1 collinear A M B",
    "start : -1*S0.1.2",
    "cut -1 : +1*S0.1.2",
    "point 2 : 0",
    "end",
    "sample x0=0 y0=0 x1=0 y1=0",
    "verdict proved",
];

/// Three free points need not lie on a line.
pub const FREE: &[&str] = &[
    "geolog 1",
    "| point A",
    "| point B",
    "| point C",
    "| prove { collinear A B C }",
    "goal 1 collinear A B C",
    "start : +1*S0.1.2",
    "coords : +1*x0*y1 -1*x0*y2 -1*y0*x1 +1*y0*x2 +1*x1*y2 -1*y1*x2",
    "end",
    "sample x0=0 y0=0 x1=0 y1=1 x2=1 y2=0",
    "verdict false 1",
];

/// A crossing of a line with itself.
pub const ITSELF: &[&str] = &[
    "geolog 1",
    "| point A",
    "| point B",
    "| inter X A B A B",
    "| prove { collinear A B X }",
    "condition 1 not_parallel A B A B",
    "start : 0",
    "end",
    "verdict impossible 1",
];

/// A log with two conditions on one number.
pub const NUMBERS: &[&str] = &[
    "geolog 1",
    "| param r",
    "| prove { equal { div { 1 } { r } } { div { 1 } { sub { r } { 1 } } } }",
    "condition 1 nonzero { r }",
    "start : +1*t0",
    "end",
    "condition 2 nonzero { sub { r } { 1 } }",
    "start : +1*t0 -1",
    "end",
    "goal 1 equal { div { 1 } { r } } { div { 1 } { sub { r } { 1 } } }",
    "start : -1",
    "cut -1 : +1",
    "end",
    "sample t0=2",
    "verdict false 1",
];

/// The centroid by weights, over a hidden point, in version 1.
pub const HIDDEN: &[&str] = &[
    "geolog 1",
    "| point A",
    "| point B",
    "| point C",
    "| weights X A B C div { 1 } { 3 } div { 1 } { 3 }",
    "| prove { equal { signed_area3 X B C } { signed_area3 X C A } }",
    "goal 1 equal { signed_area3 X B C } { signed_area3 X C A }",
    "start : +1*S0.2.4 +1*S1.2.4",
    "point 4 : -1*S0.1.2 +3*S0.2.3 +3*S1.2.3",
    "cut -1 : +1*S0.1.2 -3*S0.2.3 -3*S1.2.3",
    "point 3 : 0",
    "end",
    "sample x0=0 y0=0 x1=0 y1=0 x2=0 y2=0",
    "verdict proved",
];

/// The centroid by weights, by a step of its own, in version 2.
pub const WEIGHTED: &[&str] = &[
    "geolog 2",
    "| point A",
    "| point B",
    "| point C",
    "| weights X A B C div { 1 } { 3 } div { 1 } { 3 }",
    "| prove { equal { signed_area3 X B C } { signed_area3 X C A } }",
    "goal 1 equal { signed_area3 X B C } { signed_area3 X C A }",
    "start : +1*S0.2.3 +1*S1.2.3",
    "point 3 : 0",
    "end",
    "sample x0=0 y0=0 x1=0 y1=0 x2=0 y2=0",
    "verdict proved",
];
