//! Moves of points and of coordinates, for each step and each reading of a variable.
//! What is expected was written by a plain reference, which is no part of this repository.

use crate::chains::{Figure, Item, Named};

// A point on two lines.
pub const INTERSECTIONS: &[Figure] = &[
    // The point of the lines AB and CD.
    (
        "point A point B point C point D inter Y A B C D point E point F \
         lratio N1 A B div { 1 } { signed_area3 A C Y } \
         lratio N2 A B div { 1 } { signed_area3 A Y E } \
         lratio N3 A B div { 1 } { signed_area3 Y E F } \
         lratio N4 A B div { 1 } { pythagoras_difference3 A C Y } \
         lratio N5 A B div { 1 } { pythagoras_difference3 Y C E } \
         lratio N6 A B div { 1 } { pythagoras_difference3 A Y E } \
         lratio N7 A B div { 1 } { pythagoras_difference3 A Y A } \
         lratio N8 A B div { 1 } { pythagoras_difference3 Y E Y } \
         lratio N9 A B div { 1 } { signed_area3 A B Y } \
         lratio N10 A B div { 1 } { pythagoras_difference3 A B Y } \
         lratio N11 A B div { 1 } { pythagoras_difference3 A Y B } \
         lratio N12 A B div { 1 } { sum { mult { pythagoras_difference3 A Y E } { signed_area3 A \
         C Y } } { 5 } } \
         lratio N13 A B div { 1 } { sub { mult { pythagoras_difference3 A Y A } { \
         pythagoras_difference3 A Y A } } { pythagoras_difference3 A C E } } \
         lratio N14 A B div { 1 } { sum { signed_area3 A C Y } { pythagoras_difference3 A C B } \
         } \
         prove { identical A B }",
        &[
            (
                Item::Condition(2),
                &[Named::Point(4)],
                "start 0: +1*S0.2.4; \
                 S0.2.4 power 1 num 2 2 2 den 2 2 1 charge 0; \
                 gives 20: -1*S0.1.2*S0.2.3",
            ),
            (
                Item::Condition(3),
                &[Named::Point(4)],
                "start 0: +1*S0.4.5; \
                 S0.4.5 power 1 num 2 2 2 den 2 2 1 charge 0; \
                 gives 20: +1*S0.1.5*S0.2.3",
            ),
            (
                Item::Condition(4),
                &[Named::Point(4)],
                "start 0: +1*S4.5.6; \
                 S4.5.6 power 1 num 2 2 2 den 2 2 1 charge 0; \
                 gives 20: +1*S0.2.3*S1.5.6 -1*S0.5.6*S1.2.3",
            ),
            (
                Item::Condition(5),
                &[Named::Point(4)],
                "start 0: +1*P0.2.4; \
                 P0.2.4 power 1 num 2 2 2 den 2 2 1 charge 0; \
                 gives 20: +1*S0.2.3*P0.2.1 -1*S1.2.3*P0.2.0",
            ),
            (
                Item::Condition(6),
                &[Named::Point(4)],
                "start 0: +1*P4.2.5; \
                 P4.2.5 power 1 num 2 2 2 den 2 2 1 charge 0; \
                 gives 20: +1*S0.2.3*P1.2.5 -1*S1.2.3*P0.2.5",
            ),
            (
                Item::Condition(7),
                &[Named::Point(4)],
                "start 0: +1*P0.4.5; \
                 P0.4.5 power 2 num 5 5 3 den 2 2 1 charge 0; \
                 gives 38: +1*S0.2.3^2*P0.1.5 +1*S0.2.3*S1.2.3*P0.1.0 -1*S0.2.3*S1.2.3*P0.1.5",
            ),
            (
                Item::Condition(8),
                &[Named::Point(4)],
                "start 0: +1*P0.4.0; \
                 P0.4.0 power 2 num 5 5 3 den 2 2 1 charge 0; \
                 gives 38: +1*S0.2.3^2*P0.1.0",
            ),
            (
                Item::Condition(9),
                &[Named::Point(4)],
                "start 0: +1*P4.5.4; \
                 P4.5.4 power 2 num 5 5 3 den 2 2 1 charge 0; \
                 gives 38: +1*S0.2.3^2*P1.5.1 +1*S0.2.3*S1.2.3*P0.1.0 -1*S0.2.3*S1.2.3*P0.5.0 \
                 -1*S0.2.3*S1.2.3*P1.5.1 +1*S1.2.3^2*P0.5.0",
            ),
            // Points of the area are those of the step.
            (
                Item::Condition(10),
                &[Named::Point(4)],
                "start 0: +1*S0.1.4; \
                 S0.1.4 power 1 num 2 2 2 den 2 2 1 charge 0; \
                 gives 20: 0",
            ),
            (
                Item::Condition(11),
                &[Named::Point(4)],
                "start 0: +1*P0.1.4; \
                 P0.1.4 power 1 num 2 2 2 den 2 2 1 charge 0; \
                 gives 20: -1*S1.2.3*P0.1.0",
            ),
            (
                Item::Condition(12),
                &[Named::Point(4)],
                "start 0: +1*P0.4.1; \
                 P0.4.1 power 2 num 5 5 3 den 2 2 1 charge 0; \
                 gives 38: +1*S0.2.3*S1.2.3*P0.1.0",
            ),
            // Powers 1 and 2 of the denominator in one monomial, and none in the other.
            (
                Item::Condition(13),
                &[Named::Point(4)],
                "start 5: +1*S0.2.4*P0.4.5 +5; \
                 S0.2.4 power 1 num 2 2 2 den 2 2 1 charge 0; \
                 P0.4.5 power 2 num 5 5 3 den 2 2 1 charge 0; \
                 gives 98: -1*S0.1.2*S0.2.3^3*P0.1.5 -1*S0.1.2*S0.2.3^2*S1.2.3*P0.1.0 \
                 +1*S0.1.2*S0.2.3^2*S1.2.3*P0.1.5 +5*S0.2.3^3 -15*S0.2.3^2*S1.2.3 \
                 +15*S0.2.3*S1.2.3^2 -5*S1.2.3^3",
            ),
            (
                Item::Condition(14),
                &[Named::Point(4)],
                "start 5: -1*P0.2.5 +1*P0.4.0^2; \
                 P0.4.0 power 2 num 5 5 3 den 2 2 1 charge 0; \
                 gives 183: +1*S0.2.3^4*P0.1.0^2 -1*S0.2.3^4*P0.2.5 +4*S0.2.3^3*S1.2.3*P0.2.5 \
                 -6*S0.2.3^2*S1.2.3^2*P0.2.5 +4*S0.2.3*S1.2.3^3*P0.2.5 -1*S1.2.3^4*P0.2.5",
            ),
            // Coordinates of the free points alone, and then the point.
            (
                Item::Condition(15),
                &[Named::Coords, Named::Point(4), Named::Coords],
                "start 3: +1*S0.2.4 +1*P0.2.1; \
                 P0.2.1 power 0 num 16 8 2 den 2 1 0 charge 0; \
                 gives 53: +1*S0.2.4 +2*x0*x1 -2*x0*x2 +2*y0*y1 -2*y0*y2 -2*x1*x2 -2*y1*y2 \
                 +2*x2^2 +2*y2^2; \
                 S0.2.4 power 1 num 2 2 2 den 2 2 1 charge 0; \
                 gives 52: -1*S0.1.2*S0.2.3 +2*S0.2.3*x0*x1 -2*S0.2.3*x0*x2 +2*S0.2.3*y0*y1 \
                 -2*S0.2.3*y0*y2 -2*S0.2.3*x1*x2 -2*S0.2.3*y1*y2 +2*S0.2.3*x2^2 +2*S0.2.3*y2^2 \
                 -2*S1.2.3*x0*x1 +2*S1.2.3*x0*x2 -2*S1.2.3*y0*y1 +2*S1.2.3*y0*y2 +2*S1.2.3*x1*x2 \
                 +2*S1.2.3*y1*y2 -2*S1.2.3*x2^2 -2*S1.2.3*y2^2; \
                 S0.1.2 power 1 num 6 6 2 den 2 1 0 charge 0; \
                 S0.2.3 power 1 num 6 6 2 den 2 1 0 charge 0; \
                 S1.2.3 power 1 num 6 6 2 den 2 1 0 charge 0; \
                 gives 472: +4*x0^2*x1*y2 -4*x0^2*x1*y3 -1*x0^2*y1*y2 +1*x0^2*y1*y3 \
                 -4*x0^2*x2*y2 +4*x0^2*x2*y3 +1*x0^2*y2^2 -1*x0^2*y2*y3 -4*x0*y0*x1*x2 \
                 +1*x0*y0*x1*y2 +4*x0*y0*x1*x3 -1*x0*y0*x1*y3 +1*x0*y0*y1*x2 +4*x0*y0*y1*y2 \
                 -1*x0*y0*y1*x3 -4*x0*y0*y1*y3 +4*x0*y0*x2^2 -2*x0*y0*x2*y2 -4*x0*y0*x2*x3 \
                 +1*x0*y0*x2*y3 -4*x0*y0*y2^2 +1*x0*y0*y2*x3 +4*x0*y0*y2*y3 -4*x0*x1^2*y2 \
                 +4*x0*x1^2*y3 +4*x0*x1*y1*x2 -4*x0*x1*y1*x3 -1*x0*x1*y2^2 +1*x0*x1*y2*y3 \
                 -4*x0*y1*x2^2 +1*x0*y1*x2*y2 +4*x0*y1*x2*x3 -2*x0*y1*x2*y3 -4*x0*y1*y2^2 \
                 +1*x0*y1*y2*x3 +4*x0*y1*y2*y3 +4*x0*x2^2*y2 -4*x0*x2^2*y3 +1*x0*x2*y2*y3 \
                 +4*x0*y2^3 -1*x0*y2^2*x3 -4*x0*y2^2*y3 -1*y0^2*x1*x2 +1*y0^2*x1*x3 \
                 -4*y0^2*y1*x2 +4*y0^2*y1*x3 +1*y0^2*x2^2 +4*y0^2*x2*y2 -1*y0^2*x2*x3 \
                 -4*y0^2*y2*x3 -4*y0*x1*y1*y2 +4*y0*x1*y1*y3 +4*y0*x1*x2^2 +1*y0*x1*x2*y2 \
                 -4*y0*x1*x2*x3 +1*y0*x1*x2*y3 +4*y0*x1*y2^2 -2*y0*x1*y2*x3 -4*y0*x1*y2*y3 \
                 +4*y0*y1^2*x2 -4*y0*y1^2*x3 -1*y0*y1*x2^2 +1*y0*y1*x2*x3 -4*y0*x2^3 \
                 +4*y0*x2^2*x3 -1*y0*x2^2*y3 -4*y0*x2*y2^2 +1*y0*x2*y2*x3 +4*y0*y2^2*x3 \
                 +4*x1^2*x2*y2 -4*x1^2*x2*y3 -4*x1*y1*x2^2 +4*x1*y1*x2*x3 +4*x1*y1*y2^2 \
                 -4*x1*y1*y2*y3 -4*x1*x2^2*y2 +4*x1*x2^2*y3 -1*x1*x2*y2*y3 -4*x1*y2^3 \
                 +1*x1*y2^2*x3 +4*x1*y2^2*y3 -4*y1^2*x2*y2 +4*y1^2*y2*x3 +4*y1*x2^3 \
                 -4*y1*x2^2*x3 +1*y1*x2^2*y3 +4*y1*x2*y2^2 -1*y1*x2*y2*x3 -4*y1*y2^2*x3",
            ),
        ],
    ),
];

// The foot of a perpendicular.
pub const FEET: &[Figure] = &[
    // The foot of the perpendicular from A to BC.
    (
        "point A point B point C point D foot Y A B C point E point F \
         lratio N1 A B div { 1 } { signed_area3 A C Y } \
         lratio N2 A B div { 1 } { signed_area3 A Y E } \
         lratio N3 A B div { 1 } { signed_area3 Y E F } \
         lratio N4 A B div { 1 } { pythagoras_difference3 A C Y } \
         lratio N5 A B div { 1 } { pythagoras_difference3 Y C E } \
         lratio N6 A B div { 1 } { pythagoras_difference3 A Y E } \
         lratio N7 A B div { 1 } { pythagoras_difference3 A Y A } \
         lratio N8 A B div { 1 } { pythagoras_difference3 Y E Y } \
         lratio N9 A B div { 1 } { pythagoras_difference3 B Y C } \
         lratio N10 A B div { 1 } { signed_area3 B C Y } \
         lratio N11 A B div { 1 } { sum { mult { pythagoras_difference3 B Y E } { signed_area3 B \
         D Y } } { 5 } } \
         prove { identical A B }",
        &[
            (
                Item::Condition(2),
                &[Named::Point(4)],
                "start 0: +1*S0.2.4; \
                 S0.2.4 power 1 num 2 2 2 den 1 1 1 charge 0; \
                 gives 16: -1*S0.1.2*P0.2.1",
            ),
            (
                Item::Condition(3),
                &[Named::Point(4)],
                "start 0: +1*S0.4.5; \
                 S0.4.5 power 1 num 2 2 2 den 1 1 1 charge 0; \
                 gives 16: +1*S0.1.5*P0.2.1 +1*S0.2.5*P0.1.2",
            ),
            (
                Item::Condition(4),
                &[Named::Point(4)],
                "start 0: +1*S4.5.6; \
                 S4.5.6 power 1 num 2 2 2 den 1 1 1 charge 0; \
                 gives 16: +1*S1.5.6*P0.2.1 +1*S2.5.6*P0.1.2",
            ),
            (
                Item::Condition(5),
                &[Named::Point(4)],
                "start 0: +1*P0.2.4; \
                 P0.2.4 power 1 num 2 2 2 den 1 1 1 charge 0; \
                 gives 16: +1*P0.2.1^2",
            ),
            (
                Item::Condition(6),
                &[Named::Point(4)],
                "start 0: +1*P4.2.5; \
                 P4.2.5 power 1 num 2 2 2 den 1 1 1 charge 0; \
                 gives 16: +1*P0.2.1*P1.2.5",
            ),
            (
                Item::Condition(7),
                &[Named::Point(4)],
                "start 0: +1*P0.4.5; \
                 P0.4.5 power 1 num 3 3 2 den 1 1 1 charge 0; \
                 gives 22: -1*P0.1.2*P0.2.1 +1*P0.1.2*P0.2.5 +1*P0.1.5*P0.2.1",
            ),
            (
                Item::Condition(8),
                &[Named::Point(4)],
                "start 0: +1*P0.4.0; \
                 P0.4.0 power 1 num 3 3 2 den 1 1 1 charge 0; \
                 gives 22: +1*P0.1.0*P0.2.1 +1*P0.1.2*P0.2.0 -1*P0.1.2*P0.2.1",
            ),
            (
                Item::Condition(9),
                &[Named::Point(4)],
                "start 0: +1*P4.5.4; \
                 P4.5.4 power 1 num 3 3 2 den 1 1 1 charge 0; \
                 gives 22: -1*P0.1.2*P0.2.1 +1*P0.1.2*P2.5.2 +1*P0.2.1*P1.5.1",
            ),
            // Points of the difference are those of the step.
            (
                Item::Condition(10),
                &[Named::Point(4)],
                "start 0: +1*P1.4.2; \
                 P1.4.2 power 1 num 3 3 2 den 1 1 1 charge 0; \
                 gives 22: -1*P0.1.2*P0.2.1",
            ),
            (
                Item::Condition(11),
                &[Named::Point(4)],
                "start 0: +1*S1.2.4; \
                 S1.2.4 power 1 num 2 2 2 den 1 1 1 charge 0; \
                 gives 16: 0",
            ),
            // Linear and quadratic, both of power 1.
            (
                Item::Condition(12),
                &[Named::Point(4)],
                "start 5: +1*S1.3.4*P1.4.5 +5; \
                 S1.3.4 power 1 num 2 2 2 den 1 1 1 charge 0; \
                 P1.4.5 power 1 num 3 3 2 den 1 1 1 charge 0; \
                 gives 45: +1*S1.2.3*P0.1.2^2*P0.2.1 -1*S1.2.3*P0.1.2^2*P1.2.5 +5*P1.2.1^2",
            ),
        ],
    ),
];

// A point along a vector.
pub const ALONG: &[Figure] = &[
    // The point with Y - A = 2/3 (C - B).
    (
        "point A point B point C point D pratio Y A B C div { 2 } { 3 } point E point F \
         lratio N1 A B div { 1 } { signed_area3 A C Y } \
         lratio N2 A B div { 1 } { signed_area3 A Y E } \
         lratio N3 A B div { 1 } { signed_area3 Y E F } \
         lratio N4 A B div { 1 } { pythagoras_difference3 A C Y } \
         lratio N5 A B div { 1 } { pythagoras_difference3 Y C E } \
         lratio N6 A B div { 1 } { pythagoras_difference3 A Y E } \
         lratio N7 A B div { 1 } { pythagoras_difference3 A Y A } \
         lratio N8 A B div { 1 } { pythagoras_difference3 Y E Y } \
         lratio N9 A B div { 1 } { signed_area3 A B Y } \
         lratio N10 A B div { 1 } { pythagoras_difference3 A Y C } \
         lratio N11 A B div { 1 } { sum { mult { pythagoras_difference3 A Y E } { signed_area3 A \
         C Y } } { sum { mult { 3 } { signed_area3 Y E F } } { 5 } } } \
         lratio N12 A B div { 1 } { sub { mult { pythagoras_difference3 A Y A } { \
         pythagoras_difference3 A Y A } } { pythagoras_difference3 A C E } } \
         prove { identical A B }",
        &[
            (
                Item::Condition(1),
                &[Named::Point(4)],
                "start 0: +1*S0.2.4; \
                 S0.2.4 power 1 num 7 3 1 den 3 1 0 charge 2; \
                 gives 24: +2*S0.1.2",
            ),
            (
                Item::Condition(2),
                &[Named::Point(4)],
                "start 0: +1*S0.4.5; \
                 S0.4.5 power 1 num 7 3 1 den 3 1 0 charge 2; \
                 gives 24: -2*S0.1.5 +2*S0.2.5",
            ),
            (
                Item::Condition(3),
                &[Named::Point(4)],
                "start 0: +1*S4.5.6; \
                 S4.5.6 power 1 num 7 3 1 den 3 1 0 charge 2; \
                 gives 24: +3*S0.5.6 -2*S1.5.6 +2*S2.5.6",
            ),
            (
                Item::Condition(4),
                &[Named::Point(4)],
                "start 0: +1*P0.2.4; \
                 P0.2.4 power 1 num 7 3 1 den 3 1 0 charge 2; \
                 gives 24: +3*P0.2.0 -2*P0.2.1",
            ),
            (
                Item::Condition(5),
                &[Named::Point(4)],
                "start 0: +1*P4.2.5; \
                 P4.2.5 power 1 num 7 3 1 den 3 1 0 charge 2; \
                 gives 24: +3*P0.2.5 -2*P1.2.5",
            ),
            (
                Item::Condition(6),
                &[Named::Point(4)],
                "start 0: +1*P0.4.5; \
                 P0.4.5 power 2 num 43 6 1 den 3 1 0 charge 2; \
                 gives 42: +12*P0.1.2 -6*P0.1.5 +6*P0.2.5 -2*P1.2.1",
            ),
            (
                Item::Condition(7),
                &[Named::Point(4)],
                "start 0: +1*P0.4.0; \
                 P0.4.0 power 2 num 43 6 1 den 3 1 0 charge 2; \
                 gives 42: -6*P0.1.0 +12*P0.1.2 +6*P0.2.0 -2*P1.2.1",
            ),
            (
                Item::Condition(8),
                &[Named::Point(4)],
                "start 0: +1*P4.5.4; \
                 P4.5.4 power 2 num 43 6 1 den 3 1 0 charge 2; \
                 gives 42: +12*P0.1.2 +9*P0.5.0 -2*P1.2.1 -6*P1.5.1 +6*P2.5.2",
            ),
            // Points of the area are those of the step.
            (
                Item::Condition(9),
                &[Named::Point(4)],
                "start 0: +1*S0.1.4; \
                 S0.1.4 power 1 num 7 3 1 den 3 1 0 charge 2; \
                 gives 24: +2*S0.1.2",
            ),
            (
                Item::Condition(10),
                &[Named::Point(4)],
                "start 0: +1*P0.4.2; \
                 P0.4.2 power 2 num 43 6 1 den 3 1 0 charge 2; \
                 gives 42: +6*P0.1.2 -2*P1.2.1",
            ),
            // Powers 3, 1 and 0 of the denominator.
            (
                Item::Condition(11),
                &[Named::Point(4)],
                "start 11: +1*S0.2.4*P0.4.5 +3*S4.5.6 +5; \
                 S0.2.4 power 1 num 7 3 1 den 3 1 0 charge 2; \
                 S4.5.6 power 1 num 7 3 1 den 3 1 0 charge 2; \
                 P0.4.5 power 2 num 43 6 1 den 3 1 0 charge 2; \
                 gives 124: +24*S0.1.2*P0.1.2 -12*S0.1.2*P0.1.5 +12*S0.1.2*P0.2.5 \
                 -4*S0.1.2*P1.2.1 +81*S0.5.6 -54*S1.5.6 +54*S2.5.6 +135",
            ),
            (
                Item::Condition(12),
                &[Named::Point(4)],
                "start 5: -1*P0.2.5 +1*P0.4.0^2; \
                 P0.4.0 power 2 num 43 6 1 den 3 1 0 charge 2; \
                 gives 143: +36*P0.1.0^2 -144*P0.1.0*P0.1.2 -72*P0.1.0*P0.2.0 +24*P0.1.0*P1.2.1 \
                 +144*P0.1.2^2 +144*P0.1.2*P0.2.0 -48*P0.1.2*P1.2.1 +36*P0.2.0^2 \
                 -24*P0.2.0*P1.2.1 -81*P0.2.5 +4*P1.2.1^2",
            ),
        ],
    ),
];

// A point along a turned vector.
pub const TURNED: &[Figure] = &[
    // The point with Y - A = 2/3 J (B - A), where J turns by a right angle.
    (
        "point A point B point C point D tratio Y A B div { 2 } { 3 } point E point F \
         lratio N1 A B div { 1 } { signed_area3 A C Y } \
         lratio N2 A B div { 1 } { signed_area3 A Y E } \
         lratio N3 A B div { 1 } { signed_area3 Y E F } \
         lratio N4 A B div { 1 } { pythagoras_difference3 A C Y } \
         lratio N5 A B div { 1 } { pythagoras_difference3 Y C E } \
         lratio N6 A B div { 1 } { pythagoras_difference3 A Y E } \
         lratio N7 A B div { 1 } { pythagoras_difference3 A Y A } \
         lratio N8 A B div { 1 } { pythagoras_difference3 Y E Y } \
         lratio N9 A B div { 1 } { signed_area3 A B Y } \
         lratio N10 A B div { 1 } { pythagoras_difference3 A B Y } \
         lratio N11 A B div { 1 } { pythagoras_difference3 A Y B } \
         lratio N12 A B div { 1 } { sum { mult { pythagoras_difference3 A Y E } { signed_area3 A \
         C Y } } { sum { mult { 3 } { signed_area3 Y E F } } { 5 } } } \
         prove { identical A B }",
        &[
            (
                Item::Condition(1),
                &[Named::Point(4)],
                "start 0: +1*S0.2.4; \
                 S0.2.4 power 1 num 16 3 1 den 12 1 0 charge 2; \
                 gives 24: +2*P1.0.2",
            ),
            (
                Item::Condition(2),
                &[Named::Point(4)],
                "start 0: +1*S0.4.5; \
                 S0.4.5 power 1 num 16 3 1 den 12 1 0 charge 2; \
                 gives 24: -2*P0.5.0 +2*P0.5.1",
            ),
            (
                Item::Condition(3),
                &[Named::Point(4)],
                "start 0: +1*S4.5.6; \
                 S4.5.6 power 1 num 16 3 1 den 12 1 0 charge 2; \
                 gives 24: +12*S0.5.6 -2*P0.5.6 +2*P1.5.6",
            ),
            (
                Item::Condition(4),
                &[Named::Point(4)],
                "start 0: +1*P0.2.4; \
                 P0.2.4 power 1 num 76 3 1 den 12 1 0 charge 2; \
                 gives 24: -32*S0.1.2 +12*P0.2.0",
            ),
            (
                Item::Condition(5),
                &[Named::Point(4)],
                "start 0: +1*P4.2.5; \
                 P4.2.5 power 1 num 76 3 1 den 12 1 0 charge 2; \
                 gives 24: +32*S0.2.5 -32*S1.2.5 +12*P0.2.5",
            ),
            (
                Item::Condition(6),
                &[Named::Point(4)],
                "start 0: +1*P0.4.5; \
                 P0.4.5 power 2 num 976 4 1 den 12 1 0 charge 2; \
                 gives 30: -384*S0.1.5 +64*P0.1.0",
            ),
            (
                Item::Condition(7),
                &[Named::Point(4)],
                "start 0: +1*P0.4.0; \
                 P0.4.0 power 2 num 976 4 1 den 12 1 0 charge 2; \
                 gives 30: +64*P0.1.0",
            ),
            (
                Item::Condition(8),
                &[Named::Point(4)],
                "start 0: +1*P4.5.4; \
                 P4.5.4 power 2 num 976 4 1 den 12 1 0 charge 2; \
                 gives 30: -768*S0.1.5 +64*P0.1.0 +144*P0.5.0",
            ),
            // Points of the area are those of the step.
            (
                Item::Condition(9),
                &[Named::Point(4), Named::Coords],
                "start 0: +1*S0.1.4; \
                 S0.1.4 power 1 num 16 3 1 den 12 1 0 charge 2; \
                 gives 24: +2*P0.1.0; \
                 P0.1.0 power 0 num 16 8 2 den 2 1 0 charge 0; \
                 gives 52: +4*x0^2 -8*x0*x1 +4*y0^2 -8*y0*y1 +4*x1^2 +4*y1^2",
            ),
            (
                Item::Condition(10),
                &[Named::Point(4)],
                "start 0: +1*P0.1.4; \
                 P0.1.4 power 1 num 76 3 1 den 12 1 0 charge 2; \
                 gives 24: +12*P0.1.0",
            ),
            (
                Item::Condition(11),
                &[Named::Point(4)],
                "start 0: +1*P0.4.1; \
                 P0.4.1 power 2 num 976 4 1 den 12 1 0 charge 2; \
                 gives 30: +64*P0.1.0",
            ),
            // Powers 3, 1 and 0 of the denominator.
            (
                Item::Condition(12),
                &[Named::Point(4)],
                "start 11: +1*S0.2.4*P0.4.5 +3*S4.5.6 +5; \
                 S0.2.4 power 1 num 16 3 1 den 12 1 0 charge 2; \
                 S4.5.6 power 1 num 16 3 1 den 12 1 0 charge 2; \
                 P0.4.5 power 2 num 976 4 1 den 12 1 0 charge 2; \
                 gives 98: -768*S0.1.5*P1.0.2 +5184*S0.5.6 +128*P0.1.0*P1.0.2 -864*P0.5.6 \
                 +864*P1.5.6 +8640",
            ),
        ],
    ),
];

// Numbers of steps, coordinates, and weights.
pub const NUMBERS: &[Figure] = &[
    // Numbers of steps: a parameter, a fraction of terms, a quotient of differences.
    (
        "param r point A point B point C point D pratio Y A B C r tratio Z A B div { sum { r } { \
         1 } } { sub { 2 } { r } } inverse X D A B \
         lratio N1 A B div { 1 } { signed_area3 D B Y } \
         lratio N2 A B div { 1 } { pythagoras_difference3 D Y D } \
         lratio N3 A B div { 1 } { signed_area3 D B Z } \
         lratio N4 A B div { 1 } { pythagoras_difference3 D Z C } \
         lratio N5 A B div { 1 } { signed_area3 B C X } \
         lratio N6 A B div { 1 } { pythagoras_difference3 B X C } \
         prove { identical A B }",
        &[
            // Y - A = r (C - B).
            (
                Item::Condition(3),
                &[Named::Point(4)],
                "start 0: -1*S1.3.4; \
                 S1.3.4 power 1 num 3 3 2 den 1 1 0 charge 0; \
                 gives 22: -1*S0.1.3 +1*S1.2.3*t0",
            ),
            (
                Item::Condition(4),
                &[Named::Point(4)],
                "start 0: +1*P3.4.3; \
                 P3.4.3 power 2 num 7 6 3 den 1 1 0 charge 0; \
                 gives 40: +2*P0.1.2*t0 +1*P0.3.0 +1*P1.2.1*t0^2 -1*P1.2.1*t0 -1*P1.3.1*t0 \
                 +1*P2.3.2*t0",
            ),
            // Z - A = (r + 1)/(2 - r) J (B - A).
            (
                Item::Condition(5),
                &[Named::Point(5)],
                "start 0: -1*S1.3.5; \
                 S1.3.5 power 1 num 16 6 2 den 12 2 1 charge 10; \
                 gives 54: +4*S0.1.3*t0 -8*S0.1.3 +1*P0.1.3*t0 +1*P0.1.3",
            ),
            (
                Item::Condition(6),
                &[Named::Point(5)],
                "start 0: +1*P2.5.3; \
                 P2.5.3 power 2 num 976 16 3 den 12 2 1 charge 10; \
                 gives 114: +64*S0.1.2*t0^2 -64*S0.1.2*t0 -128*S0.1.2 +64*S0.1.3*t0^2 \
                 -64*S0.1.3*t0 -128*S0.1.3 +16*P0.1.0*t0^2 +32*P0.1.0*t0 +16*P0.1.0 \
                 +16*P2.0.3*t0^2 -64*P2.0.3*t0 +64*P2.0.3",
            ),
            // X - A = P_BAB/P_DAD (D - A), the inverse of D.
            (
                Item::Condition(7),
                &[Named::Point(6)],
                "start 0: +1*S1.2.6; \
                 S1.2.6 power 1 num 3 3 2 den 1 1 1 charge 2; \
                 gives 24: -1*S0.1.2*P0.1.0 +1*S0.1.2*P0.3.0 +1*S1.2.3*P0.1.0",
            ),
            (
                Item::Condition(8),
                &[Named::Point(6)],
                "start 0: +1*P1.6.2; \
                 P1.6.2 power 2 num 7 6 3 den 1 1 1 charge 2; \
                 gives 42: +1*P0.1.0^2*P0.3.0 -1*P0.1.0*P0.3.0^2 -1*P0.1.0*P0.3.0*P1.0.2 \
                 +1*P0.1.0*P0.3.0*P1.3.2 +1*P0.3.0^2*P1.0.2",
            ),
        ],
    ),
    // Free points.
    (
        "point A point B point C \
         lratio N1 A B div { 1 } { sum { sum { signed_area3 A B C } { mult { \
         pythagoras_difference3 A C B } { signed_area3 A B C } } } { 5 } } \
         lratio N2 A B div { 1 } { pythagoras_difference3 A B A } \
         lratio N3 A B div { 1 } { mult { pythagoras_difference3 A B A } { \
         pythagoras_difference3 A B A } } \
         prove { identical A B }",
        &[
            // An area beside a difference: powers 1 and 0.
            (
                Item::Condition(1),
                &[Named::Coords, Named::Coords],
                "start 9: +1*S0.1.2*P0.2.1 +1*S0.1.2 +5; \
                 S0.1.2 power 1 num 6 6 2 den 2 1 0 charge 0; \
                 P0.2.1 power 0 num 16 8 2 den 2 1 0 charge 0; \
                 gives 218: +2*x0^2*x1*y1 -2*x0^2*x1*y2 -2*x0^2*y1*x2 +2*x0^2*x2*y2 \
                 -2*x0*y0*x1^2 +4*x0*y0*x1*x2 +2*x0*y0*y1^2 -4*x0*y0*y1*y2 -2*x0*y0*x2^2 \
                 +2*x0*y0*y2^2 +2*x0*x1^2*y2 -4*x0*x1*y1*x2 -2*x0*y1^2*y2 +4*x0*y1*x2^2 \
                 +4*x0*y1*y2^2 +1*x0*y1 -2*x0*x2^2*y2 -2*x0*y2^3 -1*x0*y2 -2*y0^2*x1*y1 \
                 +2*y0^2*x1*y2 +2*y0^2*y1*x2 -2*y0^2*x2*y2 +2*y0*x1^2*x2 +4*y0*x1*y1*y2 \
                 -4*y0*x1*x2^2 -4*y0*x1*y2^2 -1*y0*x1 -2*y0*y1^2*x2 +2*y0*x2^3 +2*y0*x2*y2^2 \
                 +1*y0*x2 -2*x1^2*x2*y2 +2*x1*y1*x2^2 -2*x1*y1*y2^2 +2*x1*x2^2*y2 +2*x1*y2^3 \
                 +1*x1*y2 +2*y1^2*x2*y2 -2*y1*x2^3 -2*y1*x2*y2^2 -1*y1*x2 +10; \
                 gives 0: no row",
            ),
            (
                Item::Condition(2),
                &[Named::Point(1), Named::Coords],
                "start 0: +1*P0.1.0; \
                 gives 0: no row; \
                 P0.1.0 power 0 num 16 8 2 den 2 1 0 charge 0; \
                 gives 52: +2*x0^2 -4*x0*x1 +2*y0^2 -4*y0*y1 +2*x1^2 +2*y1^2",
            ),
            (
                Item::Condition(3),
                &[Named::Coords],
                "start 2: +1*P0.1.0^2; \
                 P0.1.0 power 0 num 16 8 2 den 2 1 0 charge 0; \
                 gives 228: +4*x0^4 -16*x0^3*x1 +8*x0^2*y0^2 -16*x0^2*y0*y1 +24*x0^2*x1^2 \
                 +8*x0^2*y1^2 -16*x0*y0^2*x1 +32*x0*y0*x1*y1 -16*x0*x1^3 -16*x0*x1*y1^2 +4*y0^4 \
                 -16*y0^3*y1 +8*y0^2*x1^2 +24*y0^2*y1^2 -16*y0*x1^2*y1 -16*y0*y1^3 +4*x1^4 \
                 +8*x1^2*y1^2 +4*y1^4",
            ),
        ],
    ),
    // Weights: with a middle that of an area is 4, and the greatest is 2^127 - 1.
    (
        "param r point A point B point C midpoint M A B \
         lratio N1 A B div { 1 } { mult { 42535295865117307932921825928971026431 } { \
         signed_area3 A C M } } \
         lratio N2 A B div { 1 } { mult { 42535295865117307932921825928971026432 } { \
         signed_area3 A C M } } \
         lratio N3 A B div { 1 } { sum { 170141183460469231731687303715884105726 } { \
         signed_area3 A C M } } \
         lratio N4 A B div { 1 } { sum { 170141183460469231731687303715884105727 } { \
         signed_area3 A C M } } \
         lratio N5 A B div { 1 } { div { r } { mult { 18446744073709551616 } { \
         18446744073709551616 } } } \
         prove { identical A B }",
        &[
            // As great as can be, and one more.
            (
                Item::Condition(1),
                &[Named::Point(3)],
                "start 2: +42535295865117307932921825928971026431*S0.2.3; \
                 S0.2.3 power 1 num 4 3 1 den 2 1 0 charge 2; \
                 gives 24: -42535295865117307932921825928971026431*S0.1.2",
            ),
            (
                Item::Condition(2),
                &[Named::Point(3)],
                "start 2: +42535295865117307932921825928971026432*S0.2.3; \
                 S0.2.3 power 1 num 4 3 1 den 2 1 0 charge 2; \
                 gives 24: too large norm",
            ),
            // Starts: as great as can be, one more, and by the denominator.
            (
                Item::Condition(3),
                &[],
                "start 3: +1*S0.2.3 +170141183460469231731687303715884105726",
            ),
            (Item::Condition(4), &[], "start 3: too large norm"),
            (Item::Condition(6), &[], "start 4: too large norm"),
        ],
    ),
    // Numbers that are 1, 0 and -1/2.
    (
        "point A point B point C point D translate X A B C pratio Y C A B 0 tratio Z A B div { \
         -1 } { 2 } \
         lratio N1 A B div { 1 } { pythagoras_difference3 D X A } \
         lratio N2 A B div { 1 } { pythagoras_difference3 D Y A } \
         lratio N3 A B div { 1 } { pythagoras_difference3 D Z A } \
         lratio N4 A B div { 1 } { signed_area3 D Z C } \
         lratio N5 A B div { 1 } { pythagoras_difference3 D B Z } \
         prove { identical A B }",
        &[
            // X - C = B - A.
            (
                Item::Condition(1),
                &[Named::Point(4)],
                "start 0: +1*P0.4.3; \
                 P0.4.3 power 2 num 7 6 1 den 1 1 0 charge 0; \
                 gives 40: +1*P0.1.3 +1*P0.2.3 +2*P1.0.2",
            ),
            // Y - C = 0 (B - A).
            (
                Item::Condition(2),
                &[Named::Point(5)],
                "start 0: +1*P0.5.3; \
                 P0.5.3 power 2 num 7 6 1 den 1 1 0 charge 0; \
                 gives 40: +1*P0.2.3",
            ),
            // Z - A = -1/2 J (B - A).
            (
                Item::Condition(3),
                &[Named::Point(6)],
                "start 0: +1*P0.6.3; \
                 P0.6.3 power 2 num 336 4 1 den 8 1 0 charge 2; \
                 gives 30: +128*S0.1.3 +16*P0.1.0",
            ),
            (
                Item::Condition(4),
                &[Named::Point(6)],
                "start 0: +1*S2.3.6; \
                 S2.3.6 power 1 num 10 3 1 den 8 1 0 charge 2; \
                 gives 24: +8*S0.2.3 +1*P0.2.3 -1*P1.2.3",
            ),
            (
                Item::Condition(5),
                &[Named::Point(6)],
                "start 0: +1*P3.1.6; \
                 P3.1.6 power 1 num 40 3 1 den 8 1 0 charge 2; \
                 gives 24: -16*S0.1.3 +8*P0.1.3",
            ),
        ],
    ),
];
