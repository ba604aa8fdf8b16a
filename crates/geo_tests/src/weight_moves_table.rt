//! Moves of points by weights, for each reading of a variable.
//! What is expected was written by a plain reference, which is no part of this repository, and its values agree with
//! those of placed points.

use crate::chains::{Figure, Item, Named};

// A point by the weights of three points.
pub const WEIGHTS: &[Figure] = &[
    // The point with the weights 5/12, 1/3 and 1/4 at A, B and C.
    (
        "point A point B point C point D weights Y A B C div { 1 } { 3 } div { 1 } { 4 } point \
         E point F lratio N1 A B div { 1 } { signed_area3 A D Y } lratio N2 A B div { 1 } { \
         signed_area3 D Y E } lratio N3 A B div { 1 } { signed_area3 Y E F } lratio N4 A B div \
         { 1 } { pythagoras_difference3 A D Y } lratio N5 A B div { 1 } { \
         pythagoras_difference3 Y D E } lratio N6 A B div { 1 } { pythagoras_difference3 D Y E \
         } lratio N7 A B div { 1 } { pythagoras_difference3 D Y D } lratio N8 A B div { 1 } { \
         pythagoras_difference3 Y E Y } lratio N9 A B div { 1 } { signed_area3 A B Y } lratio \
         N10 A B div { 1 } { pythagoras_difference3 B Y C } lratio N11 A B div { 1 } { \
         pythagoras_difference3 A Y A } lratio N12 A B div { 1 } { sum { mult { \
         pythagoras_difference3 D Y A } { signed_area3 A D Y } } { sum { mult { 3 } { \
         signed_area3 Y E F } } { 5 } } } prove { identical A B }",
        &[
            // Areas and differences that are linear in the point.
            (
                Item::Condition(1),
                &[Named::Point(4)],
                "start 0: +1*S0.3.4; \
                 S0.3.4 power 1 num 26 5 1 den 12 1 0 charge 4; \
                 gives 38: -4*S0.1.3 -3*S0.2.3",
            ),
            (
                Item::Condition(2),
                &[Named::Point(4)],
                "start 0: +1*S3.4.5; \
                 S3.4.5 power 1 num 26 5 1 den 12 1 0 charge 4; \
                 gives 38: -5*S0.3.5 -4*S1.3.5 -3*S2.3.5",
            ),
            (
                Item::Condition(3),
                &[Named::Point(4)],
                "start 0: +1*S4.5.6; \
                 S4.5.6 power 1 num 26 5 1 den 12 1 0 charge 4; \
                 gives 38: +5*S0.5.6 +4*S1.5.6 +3*S2.5.6",
            ),
            (
                Item::Condition(4),
                &[Named::Point(4)],
                "start 0: +1*P0.3.4; \
                 P0.3.4 power 1 num 26 5 1 den 12 1 0 charge 4; \
                 gives 38: +5*P0.3.0 +4*P0.3.1 +3*P0.3.2",
            ),
            (
                Item::Condition(5),
                &[Named::Point(4)],
                "start 0: +1*P4.3.5; \
                 P4.3.5 power 1 num 26 5 1 den 12 1 0 charge 4; \
                 gives 38: +5*P0.3.5 +4*P1.3.5 +3*P2.3.5",
            ),
            // Squares.
            (
                Item::Condition(6),
                &[Named::Point(4)],
                "start 0: +1*P3.4.5; \
                 P3.4.5 power 2 num 457 12 1 den 12 1 0 charge 4; \
                 gives 80: -20*P0.1.0 -15*P0.2.0 -12*P1.2.1 +60*P3.0.5 +48*P3.1.5 +36*P3.2.5",
            ),
            (
                Item::Condition(7),
                &[Named::Point(4)],
                "start 0: +1*P3.4.3; \
                 P3.4.3 power 2 num 457 12 1 den 12 1 0 charge 4; \
                 gives 80: -20*P0.1.0 -15*P0.2.0 +60*P0.3.0 -12*P1.2.1 +48*P1.3.1 +36*P2.3.2",
            ),
            (
                Item::Condition(8),
                &[Named::Point(4)],
                "start 0: +1*P4.5.4; \
                 P4.5.4 power 2 num 457 12 1 den 12 1 0 charge 4; \
                 gives 80: -20*P0.1.0 -15*P0.2.0 +60*P0.5.0 -12*P1.2.1 +48*P1.5.1 +36*P2.5.2",
            ),
            // Points of the area and of the differences are those of the step.
            (
                Item::Condition(9),
                &[Named::Point(4)],
                "start 0: +1*S0.1.4; \
                 S0.1.4 power 1 num 26 5 1 den 12 1 0 charge 4; \
                 gives 38: +3*S0.1.2",
            ),
            (
                Item::Condition(10),
                &[Named::Point(4)],
                "start 0: +1*P1.4.2; \
                 P1.4.2 power 2 num 457 12 1 den 12 1 0 charge 4; \
                 gives 80: -20*P0.1.0 -15*P0.2.0 +60*P1.0.2 -12*P1.2.1",
            ),
            (
                Item::Condition(11),
                &[Named::Point(4)],
                "start 0: +1*P0.4.0; \
                 P0.4.0 power 2 num 457 12 1 den 12 1 0 charge 4; \
                 gives 80: +28*P0.1.0 +21*P0.2.0 -12*P1.2.1",
            ),
            // Powers 3, 1 and 0 of the denominator.
            (
                Item::Condition(12),
                &[Named::Point(4)],
                "start 11: +1*S0.3.4*P0.4.3 +3*S4.5.6 +5; \
                 S0.3.4 power 1 num 26 5 1 den 12 1 0 charge 4; \
                 S4.5.6 power 1 num 26 5 1 den 12 1 0 charge 4; \
                 P0.4.3 power 2 num 457 12 1 den 12 1 0 charge 4; \
                 gives 300: +80*S0.1.3*P0.1.0 -192*S0.1.3*P0.1.3 +60*S0.1.3*P0.2.0 -144*S0.1.3*P0.2.3 \
                 +48*S0.1.3*P1.2.1 +60*S0.2.3*P0.1.0 -144*S0.2.3*P0.1.3 +45*S0.2.3*P0.2.0 \
                 -108*S0.2.3*P0.2.3 +36*S0.2.3*P1.2.1 +2160*S0.5.6 +1728*S1.5.6 +1296*S2.5.6 +8640",
            ),
        ],
    ),
    // Weights that are terms: Y - A = r (B - A) + (r + 1)/(2 - r) (C - A), and Z - B = (C - B)/r + 2 (D - B).
    (
        "param r point A point B point C point D weights Y A B C r div { sum { r } { 1 } } { \
         sub { 2 } { r } } weights Z B C D div { 1 } { r } 2 lratio N1 A B div { 1 } { \
         signed_area3 A D Y } lratio N2 A B div { 1 } { pythagoras_difference3 D Y D } lratio \
         N3 A B div { 1 } { signed_area3 B Z A } lratio N4 A B div { 1 } { \
         pythagoras_difference3 A Z C } lratio N5 A B div { 1 } { signed_area3 A Y Z } prove { \
         identical A B }",
        &[
            (
                Item::Condition(3),
                &[Named::Point(4)],
                "start 0: +1*S0.3.4; \
                 S0.3.4 power 1 num 13 10 3 den 3 2 1 charge 10; \
                 gives 78: +1*S0.1.3*t0^2 -2*S0.1.3*t0 -1*S0.2.3*t0 -1*S0.2.3",
            ),
            (
                Item::Condition(4),
                &[Named::Point(4)],
                "start 0: +1*P3.4.3; \
                 P3.4.3 power 2 num 85 48 5 den 3 2 1 charge 10; \
                 gives 306: +1*P0.1.0*t0^4 -6*P0.1.0*t0^3 +9*P0.1.0*t0^2 -2*P0.1.0*t0 -1*P0.2.0*t0^3 \
                 +3*P0.2.0*t0^2 +3*P0.2.0*t0 -1*P0.2.0 -1*P0.3.0*t0^3 +6*P0.3.0*t0^2 -9*P0.3.0*t0 \
                 +2*P0.3.0 +1*P1.2.1*t0^3 -1*P1.2.1*t0^2 -2*P1.2.1*t0 +1*P1.3.1*t0^3 -4*P1.3.1*t0^2 \
                 +4*P1.3.1*t0 -1*P2.3.2*t0^2 +1*P2.3.2*t0 +2*P2.3.2",
            ),
            (
                Item::Condition(5),
                &[Named::Point(5)],
                "start 0: +1*S0.1.5; \
                 S0.1.5 power 1 num 7 5 2 den 1 1 1 charge 2; \
                 gives 36: +1*S0.1.2 +2*S0.1.3*t0",
            ),
            (
                Item::Condition(6),
                &[Named::Point(5)],
                "start 0: +1*P0.5.2; \
                 P0.5.2 power 2 num 21 12 3 den 1 1 1 charge 2; \
                 gives 78: -1*P0.1.2*t0^2 -1*P0.1.2*t0 +2*P0.3.2*t0^2 +1*P1.2.1*t0 +1*P1.2.1 \
                 +2*P1.3.1*t0^2 +2*P1.3.1*t0 -2*P2.3.2*t0",
            ),
            // One of the points and then the other.
            (
                Item::Condition(7),
                &[Named::Point(5), Named::Point(4), Named::Coords],
                "start 0: +1*S0.4.5; \
                 S0.4.5 power 1 num 7 5 2 den 1 1 1 charge 2; \
                 gives 36: +1*S0.1.4*t0 +1*S0.1.4 -1*S0.2.4 -2*S0.3.4*t0; \
                 S0.1.4 power 1 num 13 10 3 den 3 2 1 charge 10; \
                 S0.2.4 power 1 num 13 10 3 den 3 2 1 charge 10; \
                 S0.3.4 power 1 num 13 10 3 den 3 2 1 charge 10; \
                 gives 218: +4*S0.1.2*t0 +1*S0.1.2 -2*S0.1.3*t0^3 +4*S0.1.3*t0^2 +2*S0.2.3*t0^2 \
                 +2*S0.2.3*t0; \
                 S0.1.2 power 1 num 6 6 2 den 2 1 0 charge 0; \
                 S0.1.3 power 1 num 6 6 2 den 2 1 0 charge 0; \
                 S0.2.3 power 1 num 6 6 2 den 2 1 0 charge 0; \
                 gives 148: -2*x0*y1*t0^3 +4*x0*y1*t0^2 +4*x0*y1*t0 +1*x0*y1 +2*x0*y2*t0^2 -2*x0*y2*t0 \
                 -1*x0*y2 +2*x0*y3*t0^3 -6*x0*y3*t0^2 -2*x0*y3*t0 +2*y0*x1*t0^3 -4*y0*x1*t0^2 \
                 -4*y0*x1*t0 -1*y0*x1 -2*y0*x2*t0^2 +2*y0*x2*t0 +1*y0*x2 -2*y0*x3*t0^3 +6*y0*x3*t0^2 \
                 +2*y0*x3*t0 +4*x1*y2*t0 +1*x1*y2 -2*x1*y3*t0^3 +4*x1*y3*t0^2 -4*y1*x2*t0 -1*y1*x2 \
                 +2*y1*x3*t0^3 -4*y1*x3*t0^2 +2*x2*y3*t0^2 +2*x2*y3*t0 -2*y2*x3*t0^2 -2*y2*x3*t0",
            ),
        ],
    ),
    // Weights that are whole numbers: a middle turned round, a corner, a point itself.
    (
        "point A point B point C point D weights X A B C 1 -1 weights Y A B C 0 1 weights Z A A \
         A 3 -2 lratio N1 A B div { 1 } { pythagoras_difference3 D X D } lratio N2 A B div { 1 \
         } { pythagoras_difference3 D Y B } lratio N3 A B div { 1 } { signed_area3 A C Z } \
         lratio N4 A B div { 1 } { pythagoras_difference3 B Z D } prove { identical A B }",
        &[
            // X - A = B - C.
            (
                Item::Condition(1),
                &[Named::Point(4)],
                "start 0: +1*P3.4.3; \
                 P3.4.3 power 2 num 12 12 1 den 1 1 0 charge 0; \
                 gives 76: -1*P0.1.0 +1*P0.2.0 +1*P0.3.0 +1*P1.2.1 +1*P1.3.1 -1*P2.3.2",
            ),
            // Y is C.
            (
                Item::Condition(2),
                &[Named::Point(5)],
                "start 0: +1*P1.5.3; \
                 P1.5.3 power 2 num 12 12 1 den 1 1 0 charge 0; \
                 gives 76: +1*P1.2.3",
            ),
            // Z is A.
            (
                Item::Condition(3),
                &[Named::Point(6)],
                "start 0: +1*S0.2.6; \
                 S0.2.6 power 1 num 11 5 1 den 1 1 0 charge 0; \
                 gives 34: 0",
            ),
            (
                Item::Condition(4),
                &[Named::Point(6)],
                "start 0: +1*P1.6.3; \
                 P1.6.3 power 2 num 47 12 1 den 1 1 0 charge 0; \
                 gives 76: +1*P1.0.3",
            ),
        ],
    ),
    // The centroid by its weights.
    (
        "point A point B point C weights X A B C div { 1 } { 3 } div { 1 } { 3 } prove { equal \
         { signed_area3 X B C } { signed_area3 X C A } }",
        &[(
            Item::Goal(1),
            &[Named::Point(3)],
            "start 3: +1*S0.2.3 +1*S1.2.3; \
                 S0.2.3 power 1 num 21 5 1 den 9 1 0 charge 4; \
                 S1.2.3 power 1 num 21 5 1 den 9 1 0 charge 4; \
                 gives 68: 0",
        )],
    ),
];
