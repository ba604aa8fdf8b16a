//! Moves of ratios by each lemma, and chains of worked examples.
//! What is expected was written by a plain reference, which is no part of this repository.

use crate::chains::{Figure, Item, Named};

// Ratios to the lines of an intersection.
pub const LINES: &[Figure] = &[
    // Ratios to the lines of an intersection.
    (
        "point A point B point C point D inter Y A B C D point E \
         prove { equal { sum { sum { sratio E Y A B } { mult { 2 } { sratio Y E D C } } } { 3 } \
         } { 0 } }",
        &[
            // On the first line, and then on the second.
            (
                Item::Goal(3),
                &[
                    Named::Ratio([4, 5, 0, 1], 11, 4),
                    Named::Ratio([4, 5, 2, 3], 12, 4),
                ],
                "start 14: -1*R4.5.0.1 -2*R4.5.2.3 +3; \
                 R4.5.0.1 power 1 num 1 1 1 den 2 2 1 charge 0; \
                 gives 22: -2*R4.5.2.3*S0.2.3 +2*R4.5.2.3*S1.2.3 +3*S0.2.3 -3*S1.2.3 +1*S2.3.5; \
                 R4.5.2.3 power 1 num 1 1 1 den 2 2 1 charge 0; \
                 gives 28: +3*S0.1.2*S0.2.3 -3*S0.1.2*S1.2.3 +1*S0.1.2*S2.3.5 -3*S0.1.3*S0.2.3 \
                 +3*S0.1.3*S1.2.3 -1*S0.1.3*S2.3.5 +2*S0.1.5*S0.2.3 -2*S0.1.5*S1.2.3",
            ),
            // Moves that have no row.
            (
                Item::Goal(3),
                &[
                    Named::Ratio([4, 5, 0, 1], 12, 4),
                    Named::Ratio([4, 5, 0, 1], 21, 4),
                    Named::Ratio([4, 5, 0, 1], 22, 4),
                    Named::Ratio([4, 5, 0, 1], 3, 4),
                    Named::Ratio([4, 5, 0, 1], 4, 4),
                    Named::Ratio([4, 5, 0, 1], 5, 4),
                    Named::Ratio([4, 5, 0, 1], 11, 5),
                    Named::Ratio([4, 5, 0, 1], 11, 0),
                    Named::Ratio([0, 1, 4, 5], 11, 4),
                    Named::Ratio([0, 1, 2, 3], 0, 0),
                    Named::Point(4),
                    Named::Point(0),
                    Named::Coords,
                ],
                "start 14: -1*R4.5.0.1 -2*R4.5.2.3 +3; \
                 gives 0: no row; \
                 gives 0: no row; \
                 gives 0: no row; \
                 gives 0: no row; \
                 gives 0: no row; \
                 gives 0: no row; \
                 gives 0: no row; \
                 gives 0: no row; \
                 gives 0: no row; \
                 gives 0: no row; \
                 gives 0: no row; \
                 gives 0: no row; \
                 gives 0: no row",
            ),
        ],
    ),
    // Ratios with the intersection at both ends.
    (
        "point A point B point C point D inter Y A B C D point E \
         prove { equal { sum { sum { sratio E Y A Y } { mult { 2 } { sratio Y E B Y } } } { sum \
         { mult { 3 } { sratio E Y Y C } } { mult { 4 } { sratio Y E Y D } } } } { 0 } }",
        &[
            // By the first line.
            (
                Item::Goal(5),
                &[
                    Named::Ratio([4, 5, 0, 4], 21, 4),
                    Named::Ratio([4, 5, 1, 4], 21, 4),
                    Named::Ratio([4, 5, 2, 4], 22, 4),
                    Named::Ratio([4, 5, 3, 4], 22, 4),
                ],
                "start 23: -1*R4.5.0.4 +2*R4.5.1.4 +3*R4.5.2.4 -4*R4.5.3.4; \
                 R4.5.0.4 power 1 num 1 1 1 den 1 1 1 charge 0; \
                 gives 16: +2*R4.5.1.4*S0.2.3 +3*R4.5.2.4*S0.2.3 -4*R4.5.3.4*S0.2.3 +1*S2.3.5; \
                 R4.5.1.4 power 1 num 1 1 1 den 1 1 1 charge 0; \
                 gives 16: +3*R4.5.2.4*S0.2.3*S1.2.3 -4*R4.5.3.4*S0.2.3*S1.2.3 -2*S0.2.3*S2.3.5 \
                 +1*S1.2.3*S2.3.5; \
                 R4.5.2.4 power 1 num 1 1 1 den 1 1 1 charge 0; \
                 gives 16: -4*R4.5.3.4*S0.1.2*S0.2.3*S1.2.3 -2*S0.1.2*S0.2.3*S2.3.5 \
                 +1*S0.1.2*S1.2.3*S2.3.5 -3*S0.1.5*S0.2.3*S1.2.3; \
                 R4.5.3.4 power 1 num 1 1 1 den 1 1 1 charge 0; \
                 gives 16: -2*S0.1.2*S0.1.3*S0.2.3*S2.3.5 +1*S0.1.2*S0.1.3*S1.2.3*S2.3.5 \
                 +4*S0.1.2*S0.1.5*S0.2.3*S1.2.3 -3*S0.1.3*S0.1.5*S0.2.3*S1.2.3",
            ),
            // The end is on the other line.
            (
                Item::Goal(5),
                &[
                    Named::Ratio([4, 5, 0, 4], 22, 4),
                    Named::Ratio([4, 5, 3, 4], 21, 4),
                    Named::Ratio([4, 5, 0, 4], 11, 4),
                ],
                "start 23: -1*R4.5.0.4 +2*R4.5.1.4 +3*R4.5.2.4 -4*R4.5.3.4; \
                 gives 0: no row; \
                 gives 0: no row; \
                 gives 0: no row",
            ),
        ],
    ),
    // Both lines begin at A.
    (
        "point A point B point C inter Y A B A C point D \
         prove { equal { sum { sratio D Y A Y } { sratio B Y Y A } } { 0 } }",
        &[
            // Lemma 21 fits, and lemma 22 too.
            (
                Item::Goal(3),
                &[Named::Ratio([3, 4, 0, 3], 21, 3)],
                "start 7: -1*R1.3.0.3 -1*R3.4.0.3; \
                 R3.4.0.3 power 1 num 1 1 1 den 1 1 1 charge 0; \
                 gives 12: +1*S0.2.4",
            ),
            (
                Item::Goal(3),
                &[Named::Ratio([3, 4, 0, 3], 22, 3)],
                "start 7: -1*R1.3.0.3 -1*R3.4.0.3; \
                 R3.4.0.3 power 1 num 1 1 1 den 1 1 1 charge 0; \
                 gives 12: +1*S0.1.4",
            ),
            // The other end is on a line.
            (
                Item::Goal(3),
                &[
                    Named::Ratio([1, 3, 0, 3], 21, 3),
                    Named::Ratio([3, 4, 0, 3], 0, 9),
                ],
                "start 7: -1*R1.3.0.3 -1*R3.4.0.3; \
                 R1.3.0.3 power 1 num 1 1 1 den 1 1 1 charge 0; \
                 gives 12: +1*S0.1.2; \
                 gives 0: no row",
            ),
        ],
    ),
    // A square of a ratio beside the ratio and a number.
    (
        "point A point B point C point D inter Y A B C D point E \
         prove { equal { sub { mult { sratio E Y A B } { sratio E Y A B } } { sum { sratio E Y A \
         B } { 1 } } } { 0 } }",
        &[
            (
                Item::Goal(2),
                &[Named::Ratio([4, 5, 0, 1], 11, 4)],
                "start 14: +1*R4.5.0.1^2 +1*R4.5.0.1 -1; \
                 R4.5.0.1 power 1 num 1 1 1 den 2 2 1 charge 0; \
                 gives 33: -1*S0.2.3^2 +2*S0.2.3*S1.2.3 -1*S0.2.3*S2.3.5 -1*S1.2.3^2 \
                 +1*S1.2.3*S2.3.5 +1*S2.3.5^2",
            ),
            (
                Item::Goal(2),
                &[Named::Ratio([4, 5, 0, 1], 0, 4)],
                "start 14: +1*R4.5.0.1^2 +1*R4.5.0.1 -1; \
                 R4.5.0.1 power 1 num 2 2 1 den 1 1 1 charge 0; \
                 gives 33: -1*P0.1.0^2 -1*P0.1.0*P1.0.4 +1*P0.1.0*P1.0.5 +1*P1.0.4^2 \
                 -2*P1.0.4*P1.0.5 +1*P1.0.5^2",
            ),
        ],
    ),
    // The lines BA and DC.
    (
        "point A point B point C point D inter Y B A D C point E \
         prove { equal { sum { sum { sratio E Y A B } { mult { 2 } { sratio C Y A B } } } { sum \
         { mult { 3 } { sratio A Y C D } } { mult { 4 } { sratio E Y C D } } } } { 0 } }",
        &[
            // The lines run against the names.
            (
                Item::Goal(5),
                &[
                    Named::Ratio([4, 5, 0, 1], 11, 4),
                    Named::Ratio([2, 4, 0, 1], 11, 4),
                    Named::Ratio([0, 4, 2, 3], 12, 4),
                    Named::Ratio([4, 5, 2, 3], 12, 4),
                ],
                "start 23: +3*R0.4.2.3 +2*R2.4.0.1 -1*R4.5.0.1 -4*R4.5.2.3; \
                 R4.5.0.1 power 1 num 1 1 1 den 2 2 1 charge 0; \
                 gives 26: +3*R0.4.2.3*S0.2.3 -3*R0.4.2.3*S1.2.3 +2*R2.4.0.1*S0.2.3 \
                 -2*R2.4.0.1*S1.2.3 -4*R4.5.2.3*S0.2.3 +4*R4.5.2.3*S1.2.3 +1*S2.3.5; \
                 R2.4.0.1 power 1 num 1 1 1 den 2 2 1 charge 0; \
                 gives 36: +3*R0.4.2.3*S0.2.3^2 -6*R0.4.2.3*S0.2.3*S1.2.3 +3*R0.4.2.3*S1.2.3^2 \
                 -4*R4.5.2.3*S0.2.3^2 +8*R4.5.2.3*S0.2.3*S1.2.3 -4*R4.5.2.3*S1.2.3^2 \
                 +1*S0.2.3*S2.3.5 -1*S1.2.3*S2.3.5; \
                 R0.4.2.3 power 1 num 1 1 1 den 2 2 1 charge 0; \
                 gives 38: -4*R4.5.2.3*S0.1.2*S0.2.3^2 +8*R4.5.2.3*S0.1.2*S0.2.3*S1.2.3 \
                 -4*R4.5.2.3*S0.1.2*S1.2.3^2 +4*R4.5.2.3*S0.1.3*S0.2.3^2 \
                 -8*R4.5.2.3*S0.1.3*S0.2.3*S1.2.3 +4*R4.5.2.3*S0.1.3*S1.2.3^2 \
                 +1*S0.1.2*S0.2.3*S2.3.5 -1*S0.1.2*S1.2.3*S2.3.5 -1*S0.1.3*S0.2.3*S2.3.5 \
                 +1*S0.1.3*S1.2.3*S2.3.5; \
                 R4.5.2.3 power 1 num 1 1 1 den 2 2 1 charge 0; \
                 gives 40: +1*S0.1.2^2*S0.2.3*S2.3.5 -1*S0.1.2^2*S1.2.3*S2.3.5 \
                 -2*S0.1.2*S0.1.3*S0.2.3*S2.3.5 +2*S0.1.2*S0.1.3*S1.2.3*S2.3.5 \
                 +4*S0.1.2*S0.1.5*S0.2.3^2 -8*S0.1.2*S0.1.5*S0.2.3*S1.2.3 \
                 +4*S0.1.2*S0.1.5*S1.2.3^2 +1*S0.1.3^2*S0.2.3*S2.3.5 -1*S0.1.3^2*S1.2.3*S2.3.5 \
                 -4*S0.1.3*S0.1.5*S0.2.3^2 +8*S0.1.3*S0.1.5*S0.2.3*S1.2.3 \
                 -4*S0.1.3*S0.1.5*S1.2.3^2",
            ),
        ],
    ),
];

// Ratios along a vector, along the line of a foot, and of any points.
pub const RATIOS: &[Figure] = &[
    // Ratios along a vector: Y - A = 2/3 (C - B).
    (
        "point A point B point C pratio Y A B C div { 2 } { 3 } point E \
         prove { equal { sum { sum { sratio E Y B C } { sratio Y E C B } } { sum { sratio A Y C \
         B } { mult { sratio B Y B C } { sratio Y E C B } } } } { 0 } }",
        &[
            // Both ends, both ways, and the point A itself.
            (
                Item::Goal(5),
                &[
                    Named::Ratio([3, 4, 1, 2], 3, 3),
                    Named::Ratio([0, 3, 1, 2], 3, 3),
                    Named::Ratio([1, 3, 1, 2], 3, 3),
                    Named::Ratio([0, 4, 1, 2], 0, 0),
                ],
                "start 19: -1*R0.3.1.2 -1*R1.3.1.2*R3.4.1.2 -2*R3.4.1.2; \
                 R3.4.1.2 power 1 num 5 2 1 den 3 1 0 charge 2; \
                 gives 24: -3*R0.3.1.2 -3*R0.4.1.2*R1.3.1.2 -6*R0.4.1.2 +2*R1.3.1.2 +4; \
                 R0.3.1.2 power 1 num 5 2 1 den 3 1 0 charge 2; \
                 gives 26: -9*R0.4.1.2*R1.3.1.2 -18*R0.4.1.2 +6*R1.3.1.2 +6; \
                 R1.3.1.2 power 1 num 5 2 1 den 3 1 0 charge 2; \
                 gives 26: +27*R0.1.1.2*R0.4.1.2 -18*R0.1.1.2 -72*R0.4.1.2 +30; \
                 R0.4.1.2 power 1 num 2 2 1 den 1 1 1 charge 0; \
                 gives 24: -27*R0.1.1.2*P0.1.2 -18*R0.1.1.2*P1.2.1 +27*R0.1.1.2*P2.1.4 \
                 +72*P0.1.2 +30*P1.2.1 -72*P2.1.4",
            ),
            // Another lemma, and then the step of a free point.
            (
                Item::Goal(5),
                &[
                    Named::Ratio([3, 4, 1, 2], 4, 3),
                    Named::Ratio([3, 4, 1, 2], 3, 4),
                ],
                "start 19: -1*R0.3.1.2 -1*R1.3.1.2*R3.4.1.2 -2*R3.4.1.2; \
                 gives 0: no row; \
                 gives 0: no row",
            ),
        ],
    ),
    // The inverse of D, and Z - B = r (C - B).
    (
        "param r point A point B point C point D inverse X D A B pratio Z B B C r \
         prove { equal { sum { sratio B X A D } { mult { sratio C Z B C } { sratio Z A C B } } } \
         { 0 } }",
        &[
            // By the number P_BAB/P_DAD, and then by r.
            (
                Item::Goal(4),
                &[
                    Named::Ratio([1, 4, 0, 3], 3, 4),
                    Named::Ratio([2, 5, 1, 2], 3, 5),
                    Named::Ratio([0, 5, 1, 2], 3, 5),
                ],
                "start 9: +1*R0.5.1.2*R2.5.1.2 +1*R1.4.0.3; \
                 R1.4.0.3 power 1 num 2 2 2 den 1 1 1 charge 2; \
                 gives 20: -1*R0.1.0.3*P0.3.0 +1*R0.5.1.2*R2.5.1.2*P0.3.0 +1*P0.1.0; \
                 R2.5.1.2 power 1 num 2 2 1 den 1 1 0 charge 0; \
                 gives 20: -1*R0.1.0.3*P0.3.0 +1*R0.5.1.2*P0.3.0*t0 -1*R0.5.1.2*P0.3.0 \
                 +1*P0.1.0; \
                 R0.5.1.2 power 1 num 2 2 1 den 1 1 0 charge 0; \
                 gives 24: -1*R0.1.0.3*P0.3.0 +1*R0.1.1.2*P0.3.0*t0 -1*R0.1.1.2*P0.3.0 +1*P0.1.0 \
                 +1*P0.3.0*t0^2 -1*P0.3.0*t0",
            ),
        ],
    ),
    // Ratios along the line of a foot.
    (
        "point A point B point C foot Y A B C point E \
         prove { equal { sum { mult { sratio E Y B C } { sratio Y E C B } } { sub { sratio A Y C \
         B } { sratio B Y B C } } } { 0 } }",
        &[
            // Both ends, and the point A itself.
            (
                Item::Goal(5),
                &[
                    Named::Ratio([3, 4, 1, 2], 4, 3),
                    Named::Ratio([0, 3, 1, 2], 4, 3),
                    Named::Ratio([1, 3, 1, 2], 4, 3),
                ],
                "start 14: -1*R0.3.1.2 -1*R1.3.1.2 +1*R3.4.1.2^2; \
                 R3.4.1.2 power 1 num 2 2 1 den 1 1 1 charge 0; \
                 gives 30: -1*R0.3.1.2*P1.2.1^2 -1*R1.3.1.2*P1.2.1^2 +1*P0.1.2^2 \
                 -2*P0.1.2*P2.1.4 +1*P2.1.4^2; \
                 R0.3.1.2 power 1 num 2 2 1 den 1 1 1 charge 0; \
                 gives 24: -1*R1.3.1.2*P1.2.1^3 +1*P0.1.2^2*P1.2.1 -2*P0.1.2*P1.2.1*P2.1.4 \
                 +1*P1.2.1*P2.1.4^2; \
                 R1.3.1.2 power 1 num 2 2 1 den 1 1 1 charge 0; \
                 gives 22: +1*P0.1.2^2*P1.2.1^2 -1*P0.1.2*P1.2.1^3 -2*P0.1.2*P1.2.1^2*P2.1.4 \
                 +1*P1.2.1^2*P2.1.4^2",
            ),
            // Another lemma.
            (
                Item::Goal(5),
                &[Named::Ratio([3, 4, 1, 2], 3, 3)],
                "start 14: -1*R0.3.1.2 -1*R1.3.1.2 +1*R3.4.1.2^2; \
                 gives 0: no row",
            ),
        ],
    ),
    // A ratio with a turned point has no lemma of its own.
    (
        "point A point B point C tratio Y A B 1 point E \
         prove { equal { sratio E Y A B } { 0 } }",
        &[(
            Item::Goal(2),
            &[
                Named::Ratio([3, 4, 0, 1], 11, 3),
                Named::Ratio([3, 4, 0, 1], 3, 3),
                Named::Ratio([3, 4, 0, 1], 4, 3),
                Named::Ratio([3, 4, 0, 1], 0, 3),
                Named::Point(3),
                Named::Coords,
            ],
            "start 3: -1*R3.4.0.1; \
                 gives 0: no row; \
                 gives 0: no row; \
                 gives 0: no row; \
                 R3.4.0.1 power 1 num 2 2 1 den 1 1 1 charge 0; \
                 gives 16: +1*P1.0.3 -1*P1.0.4; \
                 P1.0.3 power 1 num 36 3 1 den 4 1 0 charge 0; \
                 gives 24: -4*P1.0.4; \
                 P1.0.4 power 0 num 16 8 2 den 2 1 0 charge 0; \
                 gives 52: -8*x0^2 +8*x0*x1 +8*x0*x4 -8*y0^2 +8*y0*y1 +8*y0*y4 -8*x1*x4 -8*y1*y4",
        )],
    ),
    // Ratios of free points.
    (
        "point A point B point C point D \
         prove { equal { sub { mult { sratio A B C D } { sratio A B D C } } { sratio B A A C } } \
         { 0 } }",
        &[(
            Item::Goal(4),
            &[
                Named::Ratio([0, 1, 0, 2], 0, 0),
                Named::Ratio([0, 1, 2, 3], 0, 4294967295),
            ],
            "start 9: +1*R0.1.0.2 -1*R0.1.2.3^2; \
                 R0.1.0.2 power 1 num 2 2 1 den 1 1 1 charge 0; \
                 gives 18: -1*R0.1.2.3^2*P0.2.0 +1*P1.0.2; \
                 R0.1.2.3 power 1 num 2 2 1 den 1 1 1 charge 0; \
                 gives 27: -1*P0.2.0*P0.2.3^2 +2*P0.2.0*P0.2.3*P1.2.3 -1*P0.2.0*P1.2.3^2 \
                 +1*P1.0.2*P2.3.2^2",
        )],
    ),
    // Z - A = 2 (B - C), and the foot of A on CB.
    (
        "point A point B point C pratio Z A C B 2 foot Y A C B point E \
         prove { equal { sum { sum { sratio E Z B C } { mult { 2 } { sratio Z A B C } } } { mult \
         { 3 } { sratio E Y B C } } } { 0 } }",
        &[
            // The vectors run against the names.
            (
                Item::Goal(4),
                &[
                    Named::Ratio([3, 5, 1, 2], 3, 3),
                    Named::Ratio([0, 3, 1, 2], 3, 3),
                    Named::Ratio([4, 5, 1, 2], 4, 4),
                ],
                "start 16: -2*R0.3.1.2 -1*R3.5.1.2 -3*R4.5.1.2; \
                 R3.5.1.2 power 1 num 3 2 1 den 1 1 0 charge 0; \
                 gives 20: -2*R0.3.1.2 -1*R0.5.1.2 -3*R4.5.1.2 -2; \
                 R0.3.1.2 power 1 num 3 2 1 den 1 1 0 charge 0; \
                 gives 22: -1*R0.5.1.2 -3*R4.5.1.2 +2; \
                 R4.5.1.2 power 1 num 2 2 1 den 1 1 1 charge 0; \
                 gives 20: -1*R0.5.1.2*P1.2.1 -3*P0.2.1 +2*P1.2.1 +3*P1.2.5",
            ),
        ],
    ),
];

// Starts and moves of worked examples.
pub const WORKED: &[Figure] = &[
    // Ceva.
    (
        "point A point B point C point P inter D B C A P inter E C A B P inter F A B C P \
         prove { equal { mult { mult { sratio A F F B } { sratio B D D C } } { sratio C E E A } \
         } { 1 } }",
        &[
            // In the order of the prover, and in another.
            (
                Item::Goal(4),
                &[
                    Named::Ratio([0, 6, 1, 6], 21, 6),
                    Named::Ratio([2, 5, 0, 5], 21, 5),
                    Named::Ratio([1, 4, 2, 4], 21, 4),
                ],
                "start 7: -1*R0.6.1.6*R1.4.2.4*R2.5.0.5 -1; \
                 R0.6.1.6 power 1 num 1 1 1 den 1 1 1 charge 0; \
                 gives 12: -1*R1.4.2.4*R2.5.0.5*S0.2.3 -1*S1.2.3; \
                 R2.5.0.5 power 1 num 1 1 1 den 1 1 1 charge 0; \
                 gives 12: +1*R1.4.2.4*S0.2.3*S1.2.3 -1*S0.1.3*S1.2.3; \
                 R1.4.2.4 power 1 num 1 1 1 den 1 1 1 charge 0; \
                 gives 12: 0",
            ),
            (
                Item::Goal(4),
                &[
                    Named::Ratio([1, 4, 2, 4], 21, 4),
                    Named::Ratio([0, 6, 1, 6], 21, 6),
                    Named::Ratio([2, 5, 0, 5], 21, 5),
                ],
                "start 7: -1*R0.6.1.6*R1.4.2.4*R2.5.0.5 -1; \
                 R1.4.2.4 power 1 num 1 1 1 den 1 1 1 charge 0; \
                 gives 12: +1*R0.6.1.6*R2.5.0.5*S0.1.3 +1*S0.2.3; \
                 R0.6.1.6 power 1 num 1 1 1 den 1 1 1 charge 0; \
                 gives 12: +1*R2.5.0.5*S0.1.3*S0.2.3 +1*S0.2.3*S1.2.3; \
                 R2.5.0.5 power 1 num 1 1 1 den 1 1 1 charge 0; \
                 gives 12: 0",
            ),
        ],
    ),
    // Menelaus with the wrong sign.
    (
        "point A point B point C online D B C online E C A inter F A B D E \
         prove { equal { mult { mult { sratio A F F B } { sratio B D D C } } { sratio C E E A } \
         } { 1 } }",
        &[
            (
                Item::Goal(4),
                &[
                    Named::Ratio([0, 5, 1, 5], 21, 5),
                    Named::Ratio([2, 4, 0, 4], 0, 4),
                    Named::Point(4),
                    Named::Ratio([1, 3, 2, 3], 0, 3),
                    Named::Point(3),
                ],
                "start 7: -1*R0.5.1.5*R1.3.2.3*R2.4.0.4 -1; \
                 R0.5.1.5 power 1 num 1 1 1 den 1 1 1 charge 0; \
                 gives 12: -1*R1.3.2.3*R2.4.0.4*S0.3.4 -1*S1.3.4; \
                 R2.4.0.4 power 1 num 2 2 1 den 1 1 1 charge 0; \
                 gives 18: -1*R1.3.2.3*S0.3.4*P0.4.0 +1*R1.3.2.3*S0.3.4*P2.0.4 -1*S1.3.4*P0.4.0; \
                 S0.3.4 power 1 num 3 3 2 den 1 1 0 charge 0; \
                 S1.3.4 power 1 num 3 3 2 den 1 1 0 charge 0; \
                 P0.4.0 power 2 num 7 6 3 den 1 1 0 charge 0; \
                 P2.0.4 power 1 num 3 3 2 den 1 1 0 charge 0; \
                 gives 208: -1*R1.3.2.3*S0.2.3*P0.2.0*t1^3 +2*R1.3.2.3*S0.2.3*P0.2.0*t1^2 \
                 -1*R1.3.2.3*S0.2.3*P0.2.0*t1 -1*S0.1.3*P0.2.0*t1^3 +2*S0.1.3*P0.2.0*t1^2 \
                 -1*S0.1.3*P0.2.0*t1 -1*S1.2.3*P0.2.0*t1^3 +3*S1.2.3*P0.2.0*t1^2 \
                 -3*S1.2.3*P0.2.0*t1 +1*S1.2.3*P0.2.0; \
                 R1.3.2.3 power 1 num 2 2 1 den 1 1 1 charge 0; \
                 gives 38: -1*S0.1.3*P0.2.0*P2.3.2*t1^3 +2*S0.1.3*P0.2.0*P2.3.2*t1^2 \
                 -1*S0.1.3*P0.2.0*P2.3.2*t1 +1*S0.2.3*P0.2.0*P1.2.3*t1^3 \
                 -2*S0.2.3*P0.2.0*P1.2.3*t1^2 +1*S0.2.3*P0.2.0*P1.2.3*t1 \
                 -1*S0.2.3*P0.2.0*P2.3.2*t1^3 +2*S0.2.3*P0.2.0*P2.3.2*t1^2 \
                 -1*S0.2.3*P0.2.0*P2.3.2*t1 -1*S1.2.3*P0.2.0*P2.3.2*t1^3 \
                 +3*S1.2.3*P0.2.0*P2.3.2*t1^2 -3*S1.2.3*P0.2.0*P2.3.2*t1 \
                 +1*S1.2.3*P0.2.0*P2.3.2; \
                 S0.1.3 power 1 num 3 3 2 den 1 1 0 charge 0; \
                 S0.2.3 power 1 num 3 3 2 den 1 1 0 charge 0; \
                 S1.2.3 power 1 num 3 3 2 den 1 1 0 charge 0; \
                 P1.2.3 power 1 num 3 3 2 den 1 1 0 charge 0; \
                 P2.3.2 power 2 num 7 6 3 den 1 1 0 charge 0; \
                 gives 724: -2*S0.1.2*P0.2.0*P1.2.1*t0^3*t1^3 +4*S0.1.2*P0.2.0*P1.2.1*t0^3*t1^2 \
                 -2*S0.1.2*P0.2.0*P1.2.1*t0^3*t1 +4*S0.1.2*P0.2.0*P1.2.1*t0^2*t1^3 \
                 -8*S0.1.2*P0.2.0*P1.2.1*t0^2*t1^2 +4*S0.1.2*P0.2.0*P1.2.1*t0^2*t1 \
                 -2*S0.1.2*P0.2.0*P1.2.1*t0*t1^3 +4*S0.1.2*P0.2.0*P1.2.1*t0*t1^2 \
                 -2*S0.1.2*P0.2.0*P1.2.1*t0*t1",
            ),
            (
                Item::Goal(3),
                &[Named::Point(4)],
                "start 3: +1*S0.2.4; \
                 S0.2.4 power 1 num 3 3 2 den 1 1 0 charge 0; \
                 gives 22: 0",
            ),
        ],
    ),
    // Segments that are not parallel.
    (
        "point A point B point C point D \
         prove { equal { sratio A B C D } { 1 } }",
        &[
            (
                Item::Condition(1),
                &[Named::Coords],
                "start 0: +1*P2.3.2; \
                 P2.3.2 power 0 num 16 8 2 den 2 1 0 charge 0; \
                 gives 52: +2*x2^2 -4*x2*x3 +2*y2^2 -4*y2*y3 +2*x3^2 +2*y3^2",
            ),
            (
                Item::Goal(1),
                &[Named::Coords],
                "start 3: +1*S0.2.3 -1*S1.2.3; \
                 S0.2.3 power 1 num 6 6 2 den 2 1 0 charge 0; \
                 S1.2.3 power 1 num 6 6 2 den 2 1 0 charge 0; \
                 gives 76: +1*x0*y2 -1*x0*y3 -1*y0*x2 +1*y0*x3 -1*x1*y2 +1*x1*y3 +1*y1*x2 \
                 -1*y1*x3",
            ),
        ],
    ),
    // The middle of two points.
    (
        "point A point B midpoint M A B \
         prove { collinear A M B }",
        &[(
            Item::Goal(1),
            &[Named::Point(2)],
            "start 0: -1*S0.1.2; \
                 S0.1.2 power 1 num 4 3 1 den 2 1 0 charge 2; \
                 gives 24: 0",
        )],
    ),
];
