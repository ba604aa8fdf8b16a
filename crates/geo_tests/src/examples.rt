//! Programs, and the problems that are made of them: which points, lines and parameters have which
//! names, the steps, the
//! conditions and the goals. What is expected was written by a plain reference, which is no part of
//! this repository.

// A text that spells a program, and its problem as a text.
pub const EXAMPLES: &[(&str, &str)] = &[
    // Ceva.
    (
        "point A point B point C point P inter D B C A P inter E C A B P inter F A B C P \
         prove { equal { mult { mult { sratio A F F B } { sratio B D D C } } { sratio C E E \
         A } } { 1 } }",
        "points 0 1 2 3 4 5 6 lines params after 1 2 3 4 5 6 7 made 7 0 \
         0: point 1: point 2: point 3: point 4: inter 1 2 0 3 5: inter 2 0 1 3 \
         6: inter 0 1 2 3 \
         condition 5 not_parallel B C A P: sub(S(1,0,3),S(2,0,3)) \
         condition 6 not_parallel C A B P: sub(S(2,1,3),S(0,1,3)) \
         condition 7 not_parallel A B C P: sub(S(0,2,3),S(1,2,3)) \
         condition 8 different F B: P(6,1,6) \
         condition 8 different D C: P(4,2,4) \
         condition 8 different E A: P(5,0,5) \
         goal 8 parallel A F F B: sub(S(0,6,1),S(6,6,1)) \
         goal 8 parallel B D D C: sub(S(1,4,2),S(4,4,2)) \
         goal 8 parallel C E E A: sub(S(2,5,0),S(5,5,0)) \
         goal 8 equal { mult { mult { sratio A F F B } { sratio B D D C } } { sratio C E E \
         A } } { 1 }: sub(mul(mul(R(0,6,6,1),R(1,4,4,2)),R(2,5,5,0)),1)",
    ),
    // Menelaus with the wrong sign.
    (
        "point A point B point C online D B C online E C A inter F A B D E \
         prove { equal { mult { mult { sratio A F F B } { sratio B D D C } } { sratio C E E \
         A } } { 1 } }",
        "points 0 1 2 3 4 5 lines params after 1 2 3 4 5 6 made 6 2 \
         0: point 1: point 2: point 3: pratio 1 1 2 t0 4: pratio 2 2 0 t1 5: inter 0 1 3 4 \
         condition 4 different B C: P(1,2,1) \
         condition 5 different C A: P(2,0,2) \
         condition 6 not_parallel A B D E: sub(S(0,3,4),S(1,3,4)) \
         condition 7 different F B: P(5,1,5) \
         condition 7 different D C: P(3,2,3) \
         condition 7 different E A: P(4,0,4) \
         goal 7 parallel A F F B: sub(S(0,5,1),S(5,5,1)) \
         goal 7 parallel B D D C: sub(S(1,3,2),S(3,3,2)) \
         goal 7 parallel C E E A: sub(S(2,4,0),S(4,4,0)) \
         goal 7 equal { mult { mult { sratio A F F B } { sratio B D D C } } { sratio C E E \
         A } } { 1 }: sub(mul(mul(R(0,5,5,1),R(1,3,3,2)),R(2,4,4,0)),1)",
    ),
    // The Euler line.
    (
        "point A 20 20 % a triangle\n\
         point B 80 20\n\
         point C 40 60\n\
         circumcenter O A B C\n\
         orthocenter H A B C\n\
         centroid G A B C\n\
         prove { collinear O H G }",
        "points 0 1 2 7 10 12 lines params after 1 2 3 8 11 13 made 13 0 \
         0: point 1: point 2: point 3: pratio 0 0 1 div(1,2) 4: tratio 3 1 1 \
         5: pratio 0 0 2 div(1,2) 6: tratio 5 2 1 7: inter 3 4 5 6 8: foot 0 1 2 \
         9: foot 1 0 2 10: inter 0 8 1 9 11: pratio 1 1 2 div(1,2) 12: pratio 0 0 11 div(2,3) \
         condition 4 not_collinear A B C: S(0,1,2) \
         goal 7 collinear O H G: S(7,10,12)",
    ),
    // Altitudes.
    (
        "point A point B point C foot D A B C foot E B A C inter H A D B E \
         prove { perpendicular C H A B }",
        "points 0 1 2 3 4 5 lines params after 1 2 3 4 5 6 made 6 0 \
         0: point 1: point 2: point 3: foot 0 1 2 4: foot 1 0 2 5: inter 0 3 1 4 \
         condition 4 different B C: P(1,2,1) \
         condition 5 different A C: P(0,2,0) \
         condition 6 not_parallel A D B E: sub(S(0,1,4),S(3,1,4)) \
         goal 7 perpendicular C H A B: sub(P(2,0,1),P(5,0,1))",
    ),
    // Pappus.
    (
        "point A point B point A1 point B1 online C A B online C1 A1 B1 inter X A B1 A1 B \
         inter Y A C1 A1 C inter Z B C1 B1 C \
         prove { collinear X Y Z }",
        "points 0 1 2 3 4 5 6 7 8 lines params after 1 2 3 4 5 6 7 8 9 made 9 2 \
         0: point 1: point 2: point 3: point 4: pratio 0 0 1 t0 5: pratio 2 2 3 t1 \
         6: inter 0 3 2 1 7: inter 0 5 2 4 8: inter 1 5 3 4 \
         condition 5 different A B: P(0,1,0) \
         condition 6 different A1 B1: P(2,3,2) \
         condition 7 not_parallel A B1 A1 B: sub(S(0,2,1),S(3,2,1)) \
         condition 8 not_parallel A C1 A1 C: sub(S(0,2,4),S(5,2,4)) \
         condition 9 not_parallel B C1 B1 C: sub(S(1,3,4),S(5,3,4)) \
         goal 10 collinear X Y Z: S(6,7,8)",
    ),
    // Thales.
    (
        "point O point A symmetric B A O oncircle X O A \
         prove { perpendicular A X X B }",
        "points 0 1 2 5 lines params after 1 2 3 6 made 6 1 \
         0: point 1: point 2: pratio 0 1 0 1 3: tratio 0 1 t0 4: foot 0 1 3 5: pratio 4 1 4 1 \
         condition 4 different O A: P(0,1,0) \
         condition 4 not_collinear O A X: S(0,1,5) \
         goal 5 perpendicular A X X B: sub(P(1,5,2),P(5,5,2))",
    ),
    // A crossing of a line with itself.
    (
        "point A point B inter X A B A B \
         prove { collinear A B X }",
        "points 0 1 2 lines params after 1 2 3 made 3 0 \
         0: point 1: point 2: inter 0 1 0 1 \
         condition 3 not_parallel A B A B: sub(S(0,0,1),S(1,0,1)) \
         goal 4 collinear A B X: S(0,1,2)",
    ),
    // Segments that need not be parallel.
    (
        "point A point B point C point D \
         prove { equal { sratio A B C D } { 1 } }",
        "points 0 1 2 3 lines params after 1 2 3 4 made 4 0 \
         0: point 1: point 2: point 3: point \
         condition 5 different C D: P(2,3,2) \
         goal 5 parallel A B C D: sub(S(0,2,3),S(1,2,3)) \
         goal 5 equal { sratio A B C D } { 1 }: sub(R(0,1,2,3),1)",
    ),
    // A segment without length.
    (
        "point A point B point C \
         prove { equal { sratio A B C C } { 1 } }",
        "points 0 1 2 lines params after 1 2 3 made 3 0 \
         0: point 1: point 2: point \
         condition 4 different C C: P(2,2,2) \
         goal 4 parallel A B C C: sub(S(0,2,2),S(1,2,2)) \
         goal 4 equal { sratio A B C C } { 1 }: sub(R(0,1,2,2),1)",
    ),
    // An area and a number.
    (
        "point A point B point C \
         prove { equal { signed_area3 A B C } { 1 } }",
        "points 0 1 2 lines params after 1 2 3 made 3 0 \
         0: point 1: point 2: point \
         goal 4 equal { signed_area3 A B C } { 1 }: sub(S(0,1,2),1)",
    ),
    // Any three points.
    (
        "point A point B point C \
         prove { collinear A B C }",
        "points 0 1 2 lines params after 1 2 3 made 3 0 \
         0: point 1: point 2: point \
         goal 4 collinear A B C: S(0,1,2)",
    ),
    // Divisors of the statement.
    (
        "param r \
         prove { equal { div { 1 } { r } } { div { 1 } { sub { r } { 1 } } } }",
        "points lines params 0 after 0 made 0 1 \
         condition 2 nonzero { r }: t0 \
         condition 2 nonzero { sub { r } { 1 } }: sub(t0,1) \
         goal 2 equal { div { 1 } { r } } { div { 1 } { sub { r } { 1 } } }: \
         sub(div(1,t0),div(1,sub(t0,1)))",
    ),
    // Lines.
    (
        "point A point B line a A B perp b A a parallel c B b med d A B intersec M a d \
         prove { midpoint M A B }",
        "points 0 1 7 lines 0-1 0-3 1-4 5-6 params after 1 2 2 4 5 7 8 made 8 0 \
         0: point 1: point 2: pratio 0 0 1 1 3: tratio 0 2 1 4: pratio 1 0 3 1 \
         5: pratio 0 0 1 div(1,2) 6: tratio 5 1 1 7: inter 0 1 5 6 \
         condition 3 different A B: P(0,1,0) \
         condition 7 crossing a d: sub(S(0,5,6),S(1,5,6)) \
         goal 8 midpoint M A B: sub(add(mul(2,P(0,7,0)),mul(2,P(1,7,1))),P(0,1,0))",
    ),
    // Nothing.
    (
        "prove { equal { 1 } { 1 } }",
        "points lines params after made 0 0 \
         goal 1 equal { 1 } { 1 }: sub(1,1)",
    ),
    // A divisor in a divisor, and divisors that are numbers.
    (
        "param r point A point B lratio X A B div { 1 } { div { 1 } { r } } \
         tratio Y A B div { r } { -0 } pratio Z A B X div { div { r } { neg { 2 } } } { 3 } \
         prove { equal { neg { div { 5 } { neg { 4 } } } } { sub { div { 1 } { mult { r } \
         { div { 2 } { r } } } } { 1 } } }",
        "points 0 1 2 3 4 lines params 0 after 0 1 2 3 4 5 made 5 1 \
         0: point 1: point 2: pratio 0 0 1 div(1,div(1,t0)) 3: tratio 0 1 div(t0,0) \
         4: pratio 0 1 2 div(div(t0,neg(2)),3) \
         condition 4 nonzero { r }: t0 \
         condition 4 nonzero { div { 1 } { r } }: div(1,t0) \
         condition 5 nonzero { 0 }: 0 \
         condition 6 nonzero { neg { 2 } }: neg(2) \
         condition 7 nonzero { neg { 4 } }: neg(4) \
         condition 7 nonzero { mult { r } { div { 2 } { r } } }: mul(t0,div(2,t0)) \
         goal 7 equal { neg { div { 5 } { neg { 4 } } } } { sub { div { 1 } { mult { r } \
         { div { 2 } { r } } } } { 1 } }: \
         sub(neg(div(5,neg(4))),sub(div(1,mul(t0,div(2,t0))),1))",
    ),
    // Divisors of a number before those of its statement, with all kinds of terms.
    (
        "point A point B point C param r pratio X C A B div { mult { r } { signed_area3 A B \
         C } } { sum { 2 } { neg { r } } } \
         tratio Y A B sub { pythagoras_difference3 A B C } { r } \
         prove { equal { sratio A X A B } { div { sratio X Y A B } { div { r } { signed_area3 \
         X Y A } } } }",
        "points 0 1 2 3 4 lines params 0 after 1 2 3 3 4 5 made 5 1 \
         0: point 1: point 2: point 3: pratio 2 0 1 div(mul(t0,S(0,1,2)),add(2,neg(t0))) \
         4: tratio 0 1 sub(P(0,1,2),t0) \
         condition 5 nonzero { sum { 2 } { neg { r } } }: add(2,neg(t0)) \
         condition 7 different A B: P(0,1,0) \
         condition 7 nonzero { signed_area3 X Y A }: S(3,4,0) \
         condition 7 nonzero { div { r } { signed_area3 X Y A } }: div(t0,S(3,4,0)) \
         goal 7 parallel A X A B: sub(S(0,0,1),S(3,0,1)) \
         goal 7 parallel X Y A B: sub(S(3,0,1),S(4,0,1)) \
         goal 7 equal { sratio A X A B } { div { sratio X Y A B } { div { r } { signed_area3 \
         X Y A } } }: sub(R(0,3,0,1),div(R(3,4,0,1),div(t0,S(3,4,0))))",
    ),
    // Conditions that come again.
    (
        "point A point B point C line a A B med b A B line c B A foot F C A B reflect G C A B \
         online H A B intersec X a b intersec Y b a intersec Z a b circumcenter O A B C \
         orthocenter P A B C orthocenter Q B A C \
         prove { equal { div { sratio C F A B } { 7 } } { sratio C F B C } }",
        "points 0 1 2 5 7 8 9 10 11 16 19 22 lines 0-1 3-4 1-0 params after 1 2 3 3 5 5 6 8 9 \
         10 11 12 17 20 23 made 23 1 \
         0: point 1: point 2: point 3: pratio 0 0 1 div(1,2) 4: tratio 3 1 1 5: foot 2 0 1 \
         6: foot 2 0 1 7: pratio 6 2 6 1 8: pratio 0 0 1 t0 9: inter 0 1 3 4 \
         10: inter 3 4 0 1 11: inter 0 1 3 4 12: pratio 0 0 1 div(1,2) 13: tratio 12 1 1 \
         14: pratio 0 0 2 div(1,2) 15: tratio 14 2 1 16: inter 12 13 14 15 17: foot 0 1 2 \
         18: foot 1 0 2 19: inter 0 17 1 18 20: foot 1 0 2 21: foot 0 1 2 22: inter 1 20 0 21 \
         condition 4 different A B: P(0,1,0) \
         condition 6 different B A: P(1,0,1) \
         condition 10 crossing a b: sub(S(0,3,4),S(1,3,4)) \
         condition 11 crossing b a: sub(S(3,0,1),S(4,0,1)) \
         condition 13 not_collinear A B C: S(0,1,2) \
         condition 15 not_collinear B A C: S(1,0,2) \
         condition 16 different B C: P(1,2,1) \
         goal 16 parallel C F A B: sub(S(2,0,1),S(5,0,1)) \
         goal 16 parallel C F B C: sub(S(2,1,2),S(5,1,2)) \
         goal 16 equal { div { sratio C F A B } { 7 } } { sratio C F B C }: \
         sub(div(R(2,5,0,1),7),R(2,5,1,2))",
    ),
    // Points by vectors.
    (
        "point A point B point C midpoint M A B translate T A B C symmetric S T M \
         lratio L A M -170141183460469231731687303715884105727 \
         prove { same_length A M S L }",
        "points 0 1 2 3 4 5 6 lines params after 1 2 3 4 5 6 7 made 7 0 \
         0: point 1: point 2: point 3: pratio 0 0 1 div(1,2) 4: pratio 2 0 1 1 \
         5: pratio 3 4 3 1 6: pratio 0 0 3 -170141183460469231731687303715884105727 \
         goal 8 same_length A M S L: sub(P(0,3,0),P(5,6,5))",
    ),
    // Points on circles.
    (
        "point A point B point O second X A B O cc Y O A B inverse Z B O A oncircle W A O \
         prove { concyclic X Y Z W }",
        "points 0 1 2 4 6 7 10 lines params after 1 2 3 5 7 8 11 made 11 1 \
         0: point 1: point 2: point 3: foot 2 0 1 4: pratio 3 0 3 1 5: foot 1 2 0 \
         6: pratio 5 1 5 1 7: pratio 2 2 1 div(P(2,0,2),P(2,1,2)) 8: tratio 0 2 t0 \
         9: foot 0 2 8 10: pratio 9 2 9 1 \
         condition 4 different A B: P(0,1,0) \
         condition 4 different A X: P(0,4,0) \
         condition 5 different O A: P(2,0,2) \
         condition 5 different B Y: P(1,6,1) \
         condition 6 different O B: P(2,1,2) \
         condition 7 different A O: P(0,2,0) \
         condition 7 not_collinear A O W: S(0,2,10) \
         goal 8 concyclic X Y Z W: sub(mul(S(7,4,10),P(7,6,10)),mul(P(7,4,10),S(7,6,10)))",
    ),
    // A second point whose conditions are there.
    (
        "point A point O second X A O A cc Y O A A second Z A Y O \
         prove { identical A X }",
        "points 0 1 3 5 7 lines params after 1 2 4 6 8 made 8 0 \
         0: point 1: point 2: foot 0 0 1 3: pratio 2 0 2 1 4: foot 0 1 0 5: pratio 4 0 4 1 \
         6: foot 1 0 5 7: pratio 6 0 6 1 \
         condition 3 different A O: P(0,1,0) \
         condition 3 different A X: P(0,3,0) \
         condition 4 different O A: P(1,0,1) \
         condition 4 different A Y: P(0,5,0) \
         condition 5 different A Z: P(0,7,0) \
         goal 6 identical A X: P(0,3,0)",
    ),
    // Parameters before and after a hidden one.
    (
        "param r point A point B online X A B param s oncircle Y A X param t \
         lratio Z A B sum { s } { mult { r } { t } } \
         prove { equal { r } { sub { t } { s } } }",
        "points 0 1 2 5 6 lines params 0 2 4 after 0 1 2 3 3 6 6 7 made 7 5 \
         0: point 1: point 2: pratio 0 0 1 t1 3: tratio 0 2 t3 4: foot 0 2 3 \
         5: pratio 4 2 4 1 6: pratio 0 0 1 add(t2,mul(t0,t4)) \
         condition 4 different A B: P(0,1,0) \
         condition 6 different A X: P(0,2,0) \
         condition 6 not_collinear A X Y: S(0,2,5) \
         goal 9 equal { r } { sub { t } { s } }: sub(t0,sub(t4,t2))",
    ),
    // Four points in harmony.
    (
        "point A point B point C point D \
         prove { harmonic A B C D }",
        "points 0 1 2 3 lines params after 1 2 3 4 made 4 0 \
         0: point 1: point 2: point 3: point \
         condition 5 different C B: P(2,1,2) \
         condition 5 different B D: P(1,3,1) \
         goal 5 parallel A C C B: sub(S(0,2,1),S(2,2,1)) \
         goal 5 parallel A D B D: sub(S(0,1,3),S(3,1,3)) \
         goal 5 harmonic A B C D: sub(R(0,2,2,1),R(0,3,1,3))",
    ),
    // Equal ratios.
    (
        "point A point B \
         prove { harmonic A B B B }",
        "points 0 1 lines params after 1 2 made 2 0 \
         0: point 1: point \
         condition 3 different B B: P(1,1,1) \
         goal 3 parallel A B B B: sub(S(0,1,1),S(1,1,1)) \
         goal 3 harmonic A B B B: sub(R(0,1,1,1),R(0,1,1,1))",
    ),
    // Ratios that are numbers, and one that comes twice.
    (
        "point A point B point C point D line a C D \
         prove { equal { sum { sratio A B B A } { neg { sratio A A C D } } } { sub { mult \
         { sratio A B B A } { 2 } } { sratio C D A B } } }",
        "points 0 1 2 3 lines 2-3 params after 1 2 3 4 4 made 4 0 \
         0: point 1: point 2: point 3: point \
         condition 5 different C D: P(2,3,2) \
         condition 6 different B A: P(1,0,1) \
         condition 6 different A B: P(0,1,0) \
         goal 6 parallel A B B A: sub(S(0,1,0),S(1,1,0)) \
         goal 6 parallel A A C D: sub(S(0,2,3),S(0,2,3)) \
         goal 6 parallel C D A B: sub(S(2,0,1),S(3,0,1)) \
         goal 6 equal { sum { sratio A B B A } { neg { sratio A A C D } } } { sub { mult \
         { sratio A B B A } { 2 } } { sratio C D A B } }: \
         sub(add(R(0,1,1,0),neg(R(0,0,2,3))),sub(mul(R(0,1,1,0),2),R(2,3,0,1)))",
    ),
    // Parallel lines.
    (
        "point A point B point C translate D A B C \
         prove { parallel A B C D }",
        "points 0 1 2 3 lines params after 1 2 3 4 made 4 0 \
         0: point 1: point 2: point 3: pratio 2 0 1 1 \
         goal 5 parallel A B C D: sub(S(0,2,3),S(1,2,3))",
    ),
    // Names that are words of conditions.
    (
        "point different point nonzero line crossing different nonzero \
         perp not_parallel nonzero crossing intersec not_collinear crossing not_parallel \
         prove { identical not_collinear nonzero }",
        "points 0 1 4 lines 0-1 1-3 params after 1 2 2 4 5 made 5 0 \
         0: point 1: point 2: pratio 1 0 1 1 3: tratio 1 2 1 4: inter 0 1 1 3 \
         condition 3 different different nonzero: P(0,1,0) \
         condition 5 crossing crossing not_parallel: sub(S(0,1,3),S(1,1,3)) \
         goal 6 identical not_collinear nonzero: P(4,1,4)",
    ),
    // A bisector and a reflection.
    (
        "point A point B point C med a B A reflect X A C B line b X C med c B A \
         intersec Y a b \
         prove { midpoint A Y X }",
        "points 0 1 2 6 9 lines 3-4 6-2 7-8 params after 1 2 3 5 7 7 9 10 made 10 0 \
         0: point 1: point 2: point 3: pratio 1 1 0 div(1,2) 4: tratio 3 0 1 5: foot 0 2 1 \
         6: pratio 5 0 5 1 7: pratio 1 1 0 div(1,2) 8: tratio 7 0 1 9: inter 3 4 6 2 \
         condition 4 different B A: P(1,0,1) \
         condition 5 different C B: P(2,1,2) \
         condition 6 different X C: P(6,2,6) \
         condition 8 crossing a b: sub(S(3,6,2),S(4,6,2)) \
         goal 9 midpoint A Y X: sub(add(mul(2,P(9,0,9)),mul(2,P(6,0,6))),P(9,6,9))",
    ),
];

// A text that spells a program, its problem, and its problem for logs of version 1. These are worked
// out by hand.
pub const WEIGHTED: &[(&str, &str, &str)] = &[
    // The centroid by its weights.
    (
        "point A point B point C weights X A B C div { 1 } { 3 } div { 1 } { 3 } \
         prove { equal { signed_area3 X B C } { signed_area3 X C A } }",
        "points 0 1 2 3 lines params after 1 2 3 4 made 4 0 \
         0: point 1: point 2: point 3: weights 0 1 2 div(1,3) div(1,3) \
         goal 5 equal { signed_area3 X B C } { signed_area3 X C A }: sub(S(3,1,2),S(3,2,0))",
        "points 0 1 2 4 lines params after 1 2 3 5 made 5 0 \
         0: point 1: point 2: point 3: pratio 0 0 1 div(1,3) 4: pratio 3 0 2 div(1,3) \
         goal 5 equal { signed_area3 X B C } { signed_area3 X C A }: sub(S(4,1,2),S(4,2,0))",
    ),
    // Conditions that are assumed, and those of the divisors of both weights.
    (
        "point A point B param r param s assume different A B point C assume not_collinear A B C \
         weights X A B C div { 1 } { r } div { 1 } { s } assume not_parallel A X B C \
         prove { collinear A X B }",
        "points 0 1 2 3 lines params 0 1 after 1 2 2 2 2 3 3 4 4 made 4 2 \
         0: point 1: point 2: point 3: weights 0 1 2 div(1,t0) div(1,t1) \
         condition 5 different A B: P(0,1,0) condition 7 not_collinear A B C: S(0,1,2) \
         condition 8 nonzero { r }: t0 condition 8 nonzero { s }: t1 \
         condition 9 not_parallel A X B C: sub(S(0,1,2),S(3,1,2)) \
         goal 10 collinear A X B: S(0,3,1)",
        "points 0 1 2 4 lines params 0 1 after 1 2 2 2 2 3 3 5 5 made 5 2 \
         0: point 1: point 2: point 3: pratio 0 0 1 div(1,t0) 4: pratio 3 0 2 div(1,t1) \
         condition 5 different A B: P(0,1,0) condition 7 not_collinear A B C: S(0,1,2) \
         condition 8 nonzero { r }: t0 condition 8 nonzero { s }: t1 \
         condition 9 not_parallel A X B C: sub(S(0,1,2),S(4,1,2)) \
         goal 10 collinear A X B: S(0,4,1)",
    ),
];
