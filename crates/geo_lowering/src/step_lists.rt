//! The steps of a command, listed: the table of lowering.

ghost use Rattle.std.specs.Prelude.{ℕ, ◌∷◌, [], ◌≤◌, suc, IfOk};
ghost use Rattle.geo_terms.specs.Stores.{Store};
ghost use Rattle.geo_terms.specs.Trees.{Tree};
ghost use Rattle.geo_lowering.specs.Lowering.{command_steps, half_tree, one_tree, two_thirds_tree};
ghost use Rattle.geo_lowering.specs.Lowering.{weights_steps};
ghost use Rattle.geo_lowering.specs.Parts.{layout_at};
ghost use Rattle.geo_lowering.specs.StepForms.{along as along_form, crossing_of, foot_of};
ghost use Rattle.geo_lowering.specs.StepForms.{turned_along};
ghost use Rattle.geo_lowering.specs.Inner.StepLists.{HaveForms};
ghost use Rattle.geo_lowering.specs.Inner.StepNumbers.{AreFractions, IsTerm, own_number};
ghost use Rattle.geo_lowering.specs.Inner.StepNumbers.{second_number_tree};

use crate::layouts::Places;
use crate::step_numbers::Fractions;
use crate::version::Version;
use geo_points::{NoMemory, PointId, TermId};
use geo_program::{Command, LineId};
use geo_terms::Step;
use std::alloc::Global;

/// What the steps of one command are made of.
#[derive(Drop)]
pub struct StepLists<'a> {
    /// The version by which it is lowered.
    pub version: Version,
    /// Where all that has a name stands.
    pub places: &'a Places,
    /// The numbers 1, 1/2 and 2/3.
    pub fractions: Fractions,
    /// The number that depends on the command.
    pub number: TermId,
    /// The second number of `weights`.
    pub second: TermId,
    /// The first point that the command makes.
    pub next: u32,
}

impl<'a> StepLists<'a> {
    /// The steps of the command: those of its hidden points, and then that of the point that it
    /// names.
    pub fn list(&self, alloc: Global, command: &Command) -> Result<Vec<Step>, NoMemory>
        requires { self.now.next ≤ 4294967000 }
        ensures { let l = layout_at self.now.places.now in
            IfOk result (λ list. (nodes source : Store) (m : ℕ)
            → AreFractions nodes self.now.fractions
            → IsTerm nodes (own_number l source m command.now) self.now.number
            → IsTerm nodes (second_number_tree l source command.now) self.now.second
            → HaveForms nodes
            (command_steps self.now.version l source self.now.next m command.now) list.items) }
    {
        let (one, half, own) = (self.fractions.one, self.fractions.half, self.number);
        match *command {
            Command::Param
            | Command::Line { .. }
            | Command::AssumeDifferent { .. }
            | Command::AssumeNotCollinear { .. }
            | Command::AssumeNotParallel { .. } => Ok(Vec::new(alloc)),
            Command::Point => Ok(vec![in alloc; Step::Point]?),
            Command::Parallel { p, b } => self.parallel(alloc, p, b),
            Command::Perp { p, b } => self.upright(alloc, p, b),
            Command::Med { a, b } => self.bisector(alloc, a, b),
            Command::Intersec { a, b } => self.crossing_lines(alloc, a, b),
            Command::Inter { a, b, c, d } => self.crossing(alloc, a, b, c, d),
            Command::Foot { p, a, b } => self.foot(alloc, p, a, b),
            Command::Pratio { w, u, v, .. } => self.along(alloc, w, u, v, own),
            Command::Tratio { u, v, .. } => self.turned(alloc, u, v, own),
            Command::Online { a, b } => self.along(alloc, a, a, b, own),
            Command::Lratio { a, b, .. } => self.along(alloc, a, a, b, own),
            Command::Midpoint { a, b } => self.along(alloc, a, a, b, half),
            Command::Translate { a, b, c } => self.along(alloc, c, a, b, one),
            Command::Symmetric { a, o } => self.along(alloc, o, a, o, one),
            Command::Reflect { a, p, q } => self.reflection(alloc, a, p, q, a),
            Command::Circumcenter { a, b, c } => self.circumcenter(alloc, a, b, c),
            Command::Orthocenter { a, b, c } => self.orthocenter(alloc, a, b, c),
            Command::Centroid { a, b, c } => self.centroid(alloc, a, b, c),
            Command::Oncircle { o, a } => self.on_circle(alloc, o, a),
            Command::Second { a, b, o } => self.reflection(alloc, o, a, b, a),
            Command::Cc { o, p, a } => self.reflection(alloc, a, o, p, a),
            Command::Inverse { p, o, .. } => self.along(alloc, o, o, p, own),
            Command::Weights { a, b, c, .. } => self.weights(alloc, a, b, c),
        }
    }

    // The point W + r (V - U).
    fn along(
        &self,
        alloc: Global,
        w: PointId,
        u: PointId,
        v: PointId,
        r: TermId,
    ) -> Result<Vec<Step>, NoMemory>
        ensures { let l = layout_at self.now.places.now in
            IfOk result (λ list. (nodes : Store) (e : Tree) → IsTerm nodes e r → HaveForms nodes
            (along_form (l.point w.0) (l.point u.0) (l.point v.0) e ∷ []) list.items) }
    {
        let (w, u, v) = (
            self.places.point(w),
            self.places.point(u),
            self.places.point(v),
        );
        Ok(vec![in alloc; Step::Pratio { w, u, v, r }]?)
    }

    // The point A + r (B - A) + s (C - A), by a step of its own, or from A first along AB to a
    // hidden point.
    fn weights(
        &self,
        alloc: Global,
        a: PointId,
        b: PointId,
        c: PointId,
    ) -> Result<Vec<Step>, NoMemory>
        ensures { let l = layout_at self.now.places.now in
            IfOk result (λ list. (nodes : Store) (e f : Tree) → IsTerm nodes e self.now.number
            → IsTerm nodes f self.now.second → HaveForms nodes (weights_steps self.now.version
            self.now.next (l.point a.0) (l.point b.0) (l.point c.0) e f) list.items) }
    {
        let (a, b, c) = (
            self.places.point(a),
            self.places.point(b),
            self.places.point(c),
        );
        let (r, s) = (self.number, self.second);
        match self.version {
            Version::One => Ok(vec![in alloc;
                Step::Pratio {
                    w: a,
                    u: a,
                    v: b,
                    r
                },
                Step::Pratio {
                    w: PointId(self.next),
                    u: a,
                    v: c,
                    r: s
                },
            ]?),
            Version::Two => Ok(vec![in alloc;
                Step::Weights {
                    o: a,
                    u: b,
                    v: c,
                    r,
                    s
                },
            ]?),
        }
    }

    // The point U + r J (V - U).
    fn turned(
        &self,
        alloc: Global,
        u: PointId,
        v: PointId,
        r: TermId,
    ) -> Result<Vec<Step>, NoMemory>
        ensures { let l = layout_at self.now.places.now in
            IfOk result (λ list. (nodes : Store) (e : Tree) → IsTerm nodes e r → HaveForms nodes
            (turned_along (l.point u.0) (l.point v.0) e ∷ []) list.items) }
    {
        let (u, v) = (self.places.point(u), self.places.point(v));
        Ok(vec![in alloc; Step::Tratio { u, v, r }]?)
    }

    // The point on the lines AB and CD.
    fn crossing(
        &self,
        alloc: Global,
        a: PointId,
        b: PointId,
        c: PointId,
        d: PointId,
    ) -> Result<Vec<Step>, NoMemory>
        ensures { let l = layout_at self.now.places.now in
            IfOk result (λ list. (nodes : Store) → HaveForms nodes
            (crossing_of (l.point a.0) (l.point b.0) (l.point c.0) (l.point d.0) ∷ []) list.items) }
    {
        let (u, v) = (self.places.point(a), self.places.point(b));
        let (p, q) = (self.places.point(c), self.places.point(d));
        Ok(vec![in alloc; Step::Inter { u, v, p, q }]?)
    }

    // The point on two lines.
    fn crossing_lines(&self, alloc: Global, a: LineId, b: LineId) -> Result<Vec<Step>, NoMemory>
        ensures { let l = layout_at self.now.places.now in
            IfOk result (λ list. (nodes : Store) → HaveForms nodes
            (crossing_of (l.line a.0).left (l.line a.0).right
            (l.line b.0).left (l.line b.0).right ∷ []) list.items) }
    {
        let (u, v) = self.places.line(a);
        let (p, q) = self.places.line(b);
        Ok(vec![in alloc; Step::Inter { u, v, p, q }]?)
    }

    // The foot of the perpendicular from P to the line AB.
    fn foot(&self, alloc: Global, p: PointId, a: PointId, b: PointId) -> Result<Vec<Step>, NoMemory>
        ensures { let l = layout_at self.now.places.now in
            IfOk result (λ list. (nodes : Store) → HaveForms nodes
            (foot_of (l.point p.0) (l.point a.0) (l.point b.0) ∷ []) list.items) }
    {
        let (p, u, v) = (
            self.places.point(p),
            self.places.point(a),
            self.places.point(b),
        );
        Ok(vec![in alloc; Step::Foot { p, u, v }]?)
    }

    // A point along the line b from P.
    fn parallel(&self, alloc: Global, p: PointId, b: LineId) -> Result<Vec<Step>, NoMemory>
        ensures { let l = layout_at self.now.places.now in
            IfOk result (λ list. (nodes : Store) → AreFractions nodes self.now.fractions
            → HaveForms nodes
            (along_form (l.point p.0) (l.line b.0).left (l.line b.0).right one_tree ∷ [])
            list.items) }
    {
        let w = self.places.point(p);
        let (u, v) = self.places.line(b);
        let r = self.fractions.one;
        Ok(vec![in alloc; Step::Pratio { w, u, v, r }]?)
    }

    // A point along the line b from P, and then one turned about P.
    fn upright(&self, alloc: Global, p: PointId, b: LineId) -> Result<Vec<Step>, NoMemory>
        ensures { let l = layout_at self.now.places.now in let n = self.now.next in
            IfOk result (λ list. (nodes : Store) → AreFractions nodes self.now.fractions
            → HaveForms nodes
            (along_form (l.point p.0) (l.line b.0).left (l.line b.0).right one_tree
            ∷ turned_along (l.point p.0) n one_tree ∷ []) list.items) }
    {
        let w = self.places.point(p);
        let (u, v) = self.places.line(b);
        let r = self.fractions.one;
        let along = PointId(self.next);
        Ok(vec![in alloc;
            Step::Pratio { w, u, v, r },
            Step::Tratio { u: w, v: along, r },
        ]?)
    }

    // The middle of AB, and then a point turned about it.
    fn bisector(&self, alloc: Global, a: PointId, b: PointId) -> Result<Vec<Step>, NoMemory>
        ensures { let l = layout_at self.now.places.now in let n = self.now.next in
            IfOk result (λ list. (nodes : Store) → AreFractions nodes self.now.fractions
            → HaveForms nodes
            (along_form (l.point a.0) (l.point a.0) (l.point b.0) half_tree
            ∷ turned_along n (l.point b.0) one_tree ∷ []) list.items) }
    {
        let (a, b) = (self.places.point(a), self.places.point(b));
        let middle = PointId(self.next);
        let (r, one) = (self.fractions.half, self.fractions.one);
        Ok(vec![in alloc;
            Step::Pratio {
                w: a,
                u: a,
                v: b,
                r
            },
            Step::Tratio {
                u: middle,
                v: b,
                r: one
            },
        ]?)
    }

    // The foot of P on the line UV, and then A turned about it.
    fn reflection(
        &self,
        alloc: Global,
        p: PointId,
        u: PointId,
        v: PointId,
        a: PointId,
    ) -> Result<Vec<Step>, NoMemory>
        ensures { let l = layout_at self.now.places.now in let n = self.now.next in
            IfOk result (λ list. (nodes : Store) → AreFractions nodes self.now.fractions
            → HaveForms nodes
            (foot_of (l.point p.0) (l.point u.0) (l.point v.0)
            ∷ along_form n (l.point a.0) n one_tree ∷ []) list.items) }
    {
        let (p, u, v) = (
            self.places.point(p),
            self.places.point(u),
            self.places.point(v),
        );
        let (a, foot) = (self.places.point(a), PointId(self.next));
        let r = self.fractions.one;
        Ok(vec![in alloc;
            Step::Foot { p, u, v },
            Step::Pratio {
                w: foot,
                u: a,
                v: foot,
                r
            },
        ]?)
    }

    // The middle of BC, and then the point 2/3 of the way from A to it.
    fn centroid(
        &self,
        alloc: Global,
        a: PointId,
        b: PointId,
        c: PointId,
    ) -> Result<Vec<Step>, NoMemory>
        ensures { let l = layout_at self.now.places.now in let n = self.now.next in
            IfOk result (λ list. (nodes : Store) → AreFractions nodes self.now.fractions
            → HaveForms nodes
            (along_form (l.point b.0) (l.point b.0) (l.point c.0) half_tree
            ∷ along_form (l.point a.0) (l.point a.0) n two_thirds_tree ∷ []) list.items) }
    {
        let (a, b, c) = (
            self.places.point(a),
            self.places.point(b),
            self.places.point(c),
        );
        let middle = PointId(self.next);
        let (half, two_thirds) = (self.fractions.half, self.fractions.two_thirds);
        Ok(vec![in alloc;
            Step::Pratio {
                w: b,
                u: b,
                v: c,
                r: half
            },
            Step::Pratio {
                w: a,
                u: a,
                v: middle,
                r: two_thirds
            },
        ]?)
    }

    // The feet of A and B on the sides, and then the point on both altitudes.
    fn orthocenter(
        &self,
        alloc: Global,
        a: PointId,
        b: PointId,
        c: PointId,
    ) -> Result<Vec<Step>, NoMemory>
        requires { self.now.next ≤ 4294967000 }
        ensures { let l = layout_at self.now.places.now in let n = self.now.next in
            IfOk result (λ list. (nodes : Store) → HaveForms nodes
            (foot_of (l.point a.0) (l.point b.0) (l.point c.0)
            ∷ foot_of (l.point b.0) (l.point a.0) (l.point c.0)
            ∷ crossing_of (l.point a.0) n (l.point b.0) (suc n) ∷ []) list.items) }
    {
        let (a, b, c) = (
            self.places.point(a),
            self.places.point(b),
            self.places.point(c),
        );
        let (v, q) = (PointId(self.next), PointId(self.next + 1));
        Ok(vec![in alloc;
            Step::Foot { p: a, u: b, v: c },
            Step::Foot { p: b, u: a, v: c },
            Step::Inter { u: a, v, p: b, q },
        ]?)
    }

    // T turned about O, the foot M of O on the line AT, and then A turned about M.
    fn on_circle(&self, alloc: Global, o: PointId, a: PointId) -> Result<Vec<Step>, NoMemory>
        requires { self.now.next ≤ 4294967000 }
        ensures { let l = layout_at self.now.places.now in let n = self.now.next in
            IfOk result (λ list. (nodes : Store) (e : Tree) → AreFractions nodes self.now.fractions
            → IsTerm nodes e self.now.number → HaveForms nodes
            (turned_along (l.point o.0) (l.point a.0) e ∷ foot_of (l.point o.0) (l.point a.0) n
            ∷ along_form (suc n) (l.point a.0) (suc n) one_tree ∷ []) list.items) }
    {
        let (o, a) = (self.places.point(o), self.places.point(a));
        let (turned, foot) = (PointId(self.next), PointId(self.next + 1));
        let (r, one) = (self.number, self.fractions.one);
        Ok(vec![in alloc;
            Step::Tratio { u: o, v: a, r },
            Step::Foot {
                p: o,
                u: a,
                v: turned
            },
            Step::Pratio {
                w: foot,
                u: a,
                v: foot,
                r: one
            },
        ]?)
    }

    // The bisectors of AB and AC, two points each, and then the point on both.
    fn circumcenter(
        &self,
        alloc: Global,
        a: PointId,
        b: PointId,
        c: PointId,
    ) -> Result<Vec<Step>, NoMemory>
        requires { self.now.next ≤ 4294967000 }
        ensures { let l = layout_at self.now.places.now in let n = self.now.next in
            IfOk result (λ list. (nodes : Store) → AreFractions nodes self.now.fractions
            → HaveForms nodes
            (along_form (l.point a.0) (l.point a.0) (l.point b.0) half_tree
            ∷ turned_along n (l.point b.0) one_tree
            ∷ along_form (l.point a.0) (l.point a.0) (l.point c.0) half_tree
            ∷ turned_along (suc (suc n)) (l.point c.0) one_tree
            ∷ crossing_of n (suc n) (suc (suc n)) (suc (suc (suc n))) ∷ []) list.items) }
    {
        let (a, b, c) = (
            self.places.point(a),
            self.places.point(b),
            self.places.point(c),
        );
        let (u, v) = (PointId(self.next), PointId(self.next + 1));
        let (p, q) = (PointId(self.next + 2), PointId(self.next + 3));
        let (r, one) = (self.fractions.half, self.fractions.one);
        Ok(vec![in alloc;
            Step::Pratio {
                w: a,
                u: a,
                v: b,
                r
            },
            Step::Tratio { u, v: b, r: one },
            Step::Pratio {
                w: a,
                u: a,
                v: c,
                r
            },
            Step::Tratio { u: p, v: c, r: one },
            Step::Inter { u, v, p, q },
        ]?)
    }
}
