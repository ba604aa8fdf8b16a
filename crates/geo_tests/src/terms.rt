//! What no clause says: that each call succeeds with ample memory. What is expected was worked out
//! by hand.

ghost use Rattle.std.specs.Prelude.{IsTrue};
ghost use Rattle.geo_terms.specs.Stores.{HasChildrenBelow, HasShortInteger};

use geo_points::{ParamId, PointId, TermId};
use geo_terms::{Node, Step, Steps, Terms};
use std::test::Fail;

/// Whether the node may be added to this many.
fn is_for(node: Node, len: u32) -> bool
    ensures children { IsTrue result → HasChildrenBelow len node }
    ensures integer { IsTrue result → HasShortInteger node }
{
    match node {
        Node::Int(n) => n > i128::MIN,
        Node::Neg(e) => e.0 < len,
        Node::Add(e, f) | Node::Sub(e, f) | Node::Mul(e, f) | Node::Div(e, f) => {
            e.0 < len && f.0 < len
        }
        _ => true,
    }
}

#[test]
fn each_square_stands_once(rt: HostRuntime) -> Result<(), Fail> {
    let mut terms = Terms::new(rt.alloc())?;
    assert!(rt; terms.is_empty());
    let mut last = terms.intern(Node::Int(2))?;
    for count in 1..101 {
        assert!(rt; terms.len() == count && last == TermId(count - 1));
        last = terms.intern(Node::Mul(last, last))?;
    }
    for _ in 0..2 {
        assert_eq!(rt; terms.len(), 101);
        assert_eq!(rt; terms.intern(Node::Int(2))?, TermId(0));
        assert_eq!(rt; terms.len(), 101);
        assert_eq!(rt;
            terms.intern(Node::Mul(TermId(99), TermId(99)))?,
            TermId(100)
        );
    }
    Ok(())
}

#[test]
fn nodes_are_read_back(rt: HostRuntime) -> Result<(), Fail> {
    let [a, b, c, d] = [PointId(0), PointId(1), PointId(2), PointId(3)];
    let [e, f] = [TermId(0), TermId(1)];
    let nodes = [
        Node::Int(-5),
        Node::Param(ParamId(7)),
        Node::S(a, b, c),
        Node::P(a, b, c),
        Node::R(a, b, c, d),
        Node::Neg(f),
        Node::Add(e, f),
        Node::Sub(e, f),
        Node::Mul(e, f),
        Node::Div(e, f),
    ];
    let mut terms = Terms::new(rt.alloc())?;
    for node in nodes {
        let count = terms.len();
        assert!(rt; count < 10 && is_for(node, count));
        assert_eq!(rt; terms.intern(node)?, TermId(count));
    }
    for (i, node) in nodes.iter().enumerate() {
        assert!(rt; i < 10 && terms.len() == 10);
        assert_eq!(rt; terms.node(TermId(i as u32)), *node);
    }
    Ok(())
}

#[test]
fn steps_are_kept(rt: HostRuntime) -> Result<(), Fail> {
    let mut steps = Steps::new(rt.alloc())?;
    let a = steps.push(Step::Point)?;
    let b = steps.push(Step::Point)?;
    let t = steps.param();
    let r = steps.intern(Node::Param(t))?;
    let along = Step::Pratio {
        w: a,
        u: a,
        v: b,
        r,
    };
    let m = steps.push(along)?;
    let weighted = Step::Weights {
        o: a,
        u: b,
        v: m,
        r,
        s: r,
    };
    let w = steps.push(weighted)?;
    assert_eq!(rt;
        [a, b, m, w],
        [PointId(0), PointId(1), PointId(2), PointId(3)]
    );
    assert_eq!(rt; steps.count(), 4);
    assert_eq!(rt;
        [steps.step(a), steps.step(b), steps.step(m), steps.step(w)],
        [Step::Point, Step::Point, along, weighted]
    );
    assert_eq!(rt; steps.params(), 1);
    assert_eq!(rt; steps.param(), ParamId(1));
    assert_eq!(rt; steps.params(), 2);
    assert_eq!(rt; steps.look().len(), 1);
    assert_eq!(rt; steps.look().node(r), Node::Param(ParamId(0)));
    Ok(())
}
