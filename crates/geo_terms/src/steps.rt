//! How the points of a figure are made, one step a point.

ghost use Rattle.std.specs.Prelude.{◌≡◌, ◌<◌, ◌≤◌, ◌+◌, ◌++◌, ◌∷◌, [], Contains, IfOk, OnOk, OnErr};
ghost use Rattle.std.specs.Prelude.{Some, length, slice_get};
ghost use Rattle.geo_points.specs.declared.ids.TermId.{TermId};
ghost use Rattle.geo_terms.specs.Constructions.{IsConstruction, IsStep};
ghost use Rattle.geo_terms.specs.Stores.{HasChildrenBelow, HasShortInteger, node_tree, tree_of};
ghost use Rattle.geo_terms.specs.Stores.{trees_of};

use crate::nodes::Node;
use crate::stores::Terms;
use geo_points::{NoMemory, ParamId, PointId, TermId};
use std::alloc::Global;
use std::marker::Model;

/// How a point Y is made. The point is no field: it is the one whose number the step has.
#[derive(Clone, Copy, Debug, PartialEq, Eq)]
pub enum Step {
    /// A free point.
    Point,
    /// The point of both lines UV and PQ, which are not parallel.
    Inter {
        /// A point of the first line.
        u: PointId,
        /// Another point of the first line.
        v: PointId,
        /// A point of the second line.
        p: PointId,
        /// Another point of the second line.
        q: PointId,
    },
    /// The foot of the perpendicular from P to the line UV, where U and V differ.
    Foot {
        /// The point P.
        p: PointId,
        /// A point of the line.
        u: PointId,
        /// Another point of the line.
        v: PointId,
    },
    /// The point with `Y - W = r (V - U)`.
    Pratio {
        /// The point W, from which Y lies along UV.
        w: PointId,
        /// The start U of the vector UV.
        u: PointId,
        /// The end V of the vector UV.
        v: PointId,
        /// The number r.
        r: TermId,
    },
    /// The point with `Y - U = r J (V - U)`, where J turns a vector a quarter counter-clockwise.
    Tratio {
        /// The start U of the vector UV, from which Y lies.
        u: PointId,
        /// The end V of the vector UV.
        v: PointId,
        /// The number r.
        r: TermId,
    },
    /// The point with `Y - O = r (U - O) + s (V - O)`: seen from O, it has the weight r at U and
    /// the weight s at V. The points may be equal or on one line.
    Weights {
        /// The point O, from which the vectors go.
        o: PointId,
        /// The point U.
        u: PointId,
        /// The point V.
        v: PointId,
        /// The number r, the weight at U.
        r: TermId,
        /// The number s, the weight at V.
        s: TermId,
    },
}

/// The steps of a construction, with the store of their terms and the number of its parameters.
pub struct Steps {
    terms: Terms,
    steps: Vec<Step>,
    params: u32,
}

/// By hand, so that a caller's proof sees one call where a construction is let go.
impl Drop for Steps {
    fn drop(self) {
        let Steps {
            terms: _,
            steps: _,
            params: _,
        } = self;
    }
}

impl Model for Steps {
    ghost use Rattle.geo_terms.specs.Constructions.{Construction, IsConstruction};

    ghost Value = { Construction };

    ghost view = { λ s. record { nodes = s.terms; steps = s.steps.items; params = s.params } };

    ghost invariant = { λ s.
        IsConstruction (record { nodes = s.terms; steps = s.steps.items; params = s.params }) };
}

impl Steps {
    /// No steps, no parameters and no terms.
    pub fn new(alloc: Global) -> Result<Steps, NoMemory>
        ensures { IfOk result (λ s. s ≡ record { nodes = []; steps = []; params = 0 }) }
    {
        Ok(Steps {
            terms: Terms::new(alloc)?,
            steps: Vec::new(alloc),
            params: 0,
        })
    }

    /// The index of the node in the store of the steps, as `Terms::intern` gives it. All steps
    /// stay.
    pub fn intern(&mut self, node: Node) -> Result<TermId, NoMemory>
        requires children { HasChildrenBelow (length self.old.nodes) node }
        requires integer { HasShortInteger node }
        requires room { length self.old.nodes < 4294967295 }
        ensures steps { self.new.steps ≡ self.old.steps }
        ensures params { self.new.params ≡ self.old.params }
        ensures node { IfOk result (λ id. slice_get self.new.nodes id.0 ≡ Some node) }
        ensures tree { IfOk result (λ id. tree_of self.new.nodes id
            ≡ node_tree (trees_of self.old.nodes) node) }
        ensures known { Contains self.old.nodes node → self.new.nodes ≡ self.old.nodes }
        ensures added { OnOk result ((Contains self.old.nodes node → ⊥)
            → self.new.nodes ≡ self.old.nodes ++ node ∷ []) }
        ensures others { (id : TermId) → id.0 < length self.old.nodes
            → tree_of self.new.nodes id ≡ tree_of self.old.nodes id }
        ensures longer { length self.old.nodes ≤ length self.new.nodes }
        ensures one_more { length self.new.nodes ≤ length self.old.nodes + 1 }
        ensures err { OnErr result (self.new ≡ self.old) }
    {
        self.terms.intern(node)
    }

    /// The store of the terms.
    pub fn look(&self) -> &Terms
        ensures { result.now ≡ self.now.nodes }
    {
        &self.terms
    }

    /// The point that the step makes, which is the next one. The step names earlier points alone;
    /// each of its numbers is a term without ratios over earlier points and the parameters that are
    /// there.
    pub fn push(&mut self, step: Step) -> Result<PointId, NoMemory>
        requires step { IsStep self.old.nodes (length self.old.steps) self.old.params step }
        requires room { length self.old.steps < 512 }
        ensures point { IfOk result (λ y. y.0 ≡ length self.old.steps) }
        ensures ok { OnOk result (self.new
            ≡ record self.old { steps = self.old.steps ++ step ∷ [] }) }
        ensures err { OnErr result (self.new ≡ self.old) }
    {
        let point = PointId(self.steps.len() as u32);
        self.steps.push(step)?;
        Ok(point)
    }

    /// A new parameter.
    pub fn param(&mut self) -> ParamId
        requires { self.old.params < 4294967295 }
        ensures number { result.0 ≡ self.old.params }
        ensures counted { self.new ≡ record self.old { params = self.old.params + 1 } }
    {
        let param = ParamId(self.params);
        self.params += 1;
        param
    }

    /// The step that makes a point.
    pub fn step(&self, id: PointId) -> Step
        requires { id.0 < length self.now.steps }
        ensures { slice_get self.now.steps id.0 ≡ Some result }
    {
        self.steps[id.0 as usize]
    }

    /// The number of points. Every construction meets the clause `valid`.
    pub fn count(&self) -> u32
        ensures count { result ≡ length self.now.steps }
        ensures valid { IsConstruction self.now }
    {
        self.steps.len() as u32
    }

    /// The number of parameters.
    pub fn params(&self) -> u32
        ensures { result ≡ self.now.params }
    {
        self.params
    }
}
