//! How lines begin.

ghost use Rattle.std.specs.Prelude.{◌≡◌, IsNone, IfSome};
ghost use Rattle.proof_log.specs.Inner.Leads.{lead_text, leads};
ghost use Rattle.proof_log.specs.Inner.Reading.{Begins, NoneBegins};

use crate::reader::Reader;

/// How a line begins. It tells what follows.
#[derive(Clone, Copy)]
pub(crate) enum Lead {
    /// `geolog `
    Header,
    /// `| `
    Program,
    /// `condition `
    Condition,
    /// `goal `
    Goal,
    /// `start : `
    Start,
    /// `ratio `
    Ratio,
    /// `point `
    Point,
    /// `coords : `
    Coords,
    /// `cut `
    Cut,
    /// `end`
    End,
    /// `sample`
    Sample,
    /// `verdict proved`
    Proved,
    /// `verdict false `
    False,
    /// `verdict impossible `
    Impossible,
    /// `stop too_large `
    TooLarge,
    /// `stop spent `
    Spent,
}

const LEADS: [Lead; 16] = [
    Lead::Header,
    Lead::Program,
    Lead::Condition,
    Lead::Goal,
    Lead::Start,
    Lead::Ratio,
    Lead::Point,
    Lead::Coords,
    Lead::Cut,
    Lead::End,
    Lead::Sample,
    Lead::Proved,
    Lead::False,
    Lead::Impossible,
    Lead::TooLarge,
    Lead::Spent,
];

impl Lead {
    /// Its text.
    fn text(self) -> &'static [u8]
        ensures { result.now ≡ lead_text self }
    {
        match self {
            Lead::Header => b"geolog ",
            Lead::Program => b"| ",
            Lead::Condition => b"condition ",
            Lead::Goal => b"goal ",
            Lead::Start => b"start : ",
            Lead::Ratio => b"ratio ",
            Lead::Point => b"point ",
            Lead::Coords => b"coords : ",
            Lead::Cut => b"cut ",
            Lead::End => b"end",
            Lead::Sample => b"sample",
            Lead::Proved => b"verdict proved",
            Lead::False => b"verdict false ",
            Lead::Impossible => b"verdict impossible ",
            Lead::TooLarge => b"stop too_large ",
            Lead::Spent => b"stop spent ",
        }
    }
}

impl<'a> Reader<'a> {
    /// Goes past the lead of the line.
    pub fn lead(&mut self) -> Option<Lead>
        ensures some { IfSome result (λ lead. Begins leads self.old lead self.new) }
        ensures none { IsNone result → NoneBegins leads self.old }
    {
        for lead in LEADS {
            if self.literal(lead.text()).is_some() {
                return Some(lead);
            }
        }
        None
    }
}
