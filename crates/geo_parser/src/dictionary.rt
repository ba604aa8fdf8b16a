//! The names that are declared so far.

ghost use Rattle.std.specs.Prelude.{◌≡◌, ◌<◌, ◌++◌, ◌∷◌, [], IfErr, IfOk, OnErr, OnOk, length};
ghost use Rattle.geo_parser.specs.Inner.Dictionaries.{IsMisused, IsNew, IsNoNewName, IsNumbered};
ghost use Rattle.geo_parser.specs.Inner.Dictionaries.{count_of, counted};
ghost use Rattle.geo_parser.specs.Inner.Symbols.{refusal_number};

use crate::errors::Refusal;
use crate::expression_words::is_reserved;
use geo_base::Text;
use geo_points::NoMemory;
use geo_program::{Name, NameKind, Names};
use std::alloc::Global;
use std::collections::BTreeMap;
use std::marker::Model;

/// What a word names: a kind, and the number among the names of this kind.
#[derive(Clone, Copy)]
pub struct Meaning {
    /// What it is.
    pub kind: NameKind,
    /// Its number, from 0.
    pub number: u32,
}

/// How many names of each kind there are.
#[derive(Clone, Copy)]
pub struct Counts {
    /// The points.
    pub points: u32,
    /// The parameters.
    pub params: u32,
    /// The lines.
    pub lines: u32,
}

impl Counts {
    // How many names of the kind there are.
    fn of(self, kind: NameKind) -> u32
        ensures { result ≡ count_of self kind }
    {
        match kind {
            NameKind::Point => self.points,
            NameKind::Param => self.params,
            NameKind::Line => self.lines,
        }
    }

    // With one more name of the kind.
    fn with(self, kind: NameKind) -> Counts
        requires { count_of self kind < 4294967295 }
        ensures { result ≡ counted self kind }
    {
        match kind {
            NameKind::Point => Counts {
                points: self.points + 1,
                ..self
            },
            NameKind::Param => Counts {
                params: self.params + 1,
                ..self
            },
            NameKind::Line => Counts {
                lines: self.lines + 1,
                ..self
            },
        }
    }
}

/// The names that are declared so far, with their meanings. Contracts see the list.
#[derive(Drop)]
pub struct Dictionary<'a> {
    meanings: BTreeMap<&'a [u8], Meaning>,
    names: Vec<Name>,
    counts: Counts,
}

impl<'a> Model for Dictionary<'a> {
    ghost use Rattle.std.specs.Prelude.{List};
    ghost use Rattle.std.specs.BTreeMap.{get_by};
    ghost use Rattle.std.specs.Cmp.Lexicographic.{slice_cmp};
    ghost use Rattle.std.specs.Ordering.{nat_cmp};
    ghost use Rattle.geo_program.specs.declared.names.Name.{Name};
    ghost use Rattle.geo_parser.specs.Inner.Dictionaries.{IsDictionary};

    ghost Value = { List Name };

    ghost view = { λ d. d.names.items };

    ghost invariant = { λ d. IsDictionary d.names.items
        (λ word. get_by (λ key. slice_cmp nat_cmp word key.now) d.meanings) d.counts };
}

impl<'a> Dictionary<'a> {
    /// No names.
    pub fn new(alloc: Global) -> Dictionary<'a>
        ensures { result ≡ [] }
    {
        Dictionary {
            meanings: BTreeMap::new(alloc),
            names: Vec::new(alloc),
            counts: Counts {
                points: 0,
                params: 0,
                lines: 0,
            },
        }
    }

    /// The number of the name of this kind that the word is.
    pub fn number(&self, kind: NameKind, word: &[u8]) -> Result<u32, Refusal>
        ensures number { IfOk result (IsNumbered self.now kind word.now) }
        ensures refused { IfErr result (λ refusal.
            IsMisused self.now kind word.now (refusal_number refusal)) }
    {
        match self.meanings.get(word) {
            Some(meaning) if meaning.kind == kind => Ok(meaning.number),
            Some(_) => Err(Refusal::WrongKind),
            None if is_reserved(word) => Err(Refusal::Expected),
            None => Err(Refusal::UnknownName),
        }
    }

    /// Refuses a word that can be no new name.
    pub fn check_new(&self, word: &[u8]) -> Result<(), Refusal>
        ensures new { OnOk result (IsNew self.now word.now) }
        ensures refused { IfErr result (λ refusal.
            IsNoNewName self.now word.now (refusal_number refusal)) }
    {
        if is_reserved(word) {
            return Err(Refusal::Expected);
        }
        match self.meanings.get(word) {
            Some(_) => Err(Refusal::Redeclared),
            None => Ok(()),
        }
    }

    /// Declares a new name.
    pub fn declare(&mut self, alloc: Global, word: &'a [u8], kind: NameKind) -> Result<(), NoMemory>
        requires new { IsNew self.old word.now }
        requires room { length self.old < 4294967295 }
        ensures ok { OnOk result (self.new
            ≡ self.old ++ (record { text = word.now; kind = kind }) ∷ []) }
        ensures err { OnErr result (self.new ≡ self.old) }
    {
        let bytes = Vec::from_slice(alloc, word)?;
        let number = self.counts.of(kind);
        self.names.reserve(1)?;
        self.meanings.insert(word, Meaning { kind, number })?;
        self.names.push(Name {
            text: Text { bytes },
            kind,
        })?;
        self.counts = self.counts.with(kind);
        Ok(())
    }

    /// The list of the names.
    pub fn into_names(self) -> Names
        ensures { result ≡ self.entry }
    {
        Names { items: self.names }
    }
}
