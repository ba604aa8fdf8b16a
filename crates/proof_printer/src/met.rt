//! The variables that are met in the text of a polynomial, each with its name.

ghost use Rattle.std.specs.Prelude.{◌≡◌, [], ◌∷◌, ◌++◌, Contains, IfOk, IfSome, OnOk};
ghost use Rattle.std.specs.BTreeMap.{keys};
ghost use Rattle.std.specs.BTreeSet.{insert_key};
ghost use Rattle.geo_poly.specs.Variables.{var_cmp};
ghost use Rattle.proof_printer.specs.Inner.Names.{naming_in};
ghost use Rattle.proof_printer.specs.Inner.Reading.{AreMet};
ghost use Rattle.proof_printer.specs.Naming.{Naming, variable_text};

use crate::namer::Namer;
use geo_base::Text;
use geo_points::{NoMemory, PointId};
use geo_poly::Var;
use std::alloc::Global;
use std::collections::BTreeMap;

/// How many guesses are kept at most.
const GUESSES: usize = 512;

/// In a text of fewer bytes nothing is guessed.
const SHORT: usize = 64;

/// A variable and its name.
#[derive(Drop)]
pub(crate) struct Named {
    /// The variable.
    pub variable: Var,
    /// Its name.
    pub name: Text,
}

/// The variables that were met.
#[derive(Drop)]
pub(crate) struct Met {
    /// Each once, in order, with its place among the names.
    pub places: BTreeMap<Var, usize>,
    /// Their names, in the order in which they were met.
    pub names: Vec<Named>,
    /// Where a variable may stand among the names.
    pub guesses: Vec<usize>,
}

impl Met {
    /// None yet, in a text of so many bytes.
    pub fn new(alloc: Global, bytes: usize) -> Result<Met, NoMemory>
        ensures none { IfOk result (λ met. keys met.places ≡ []) }
        ensures met { (n : Naming) → IfOk result (AreMet n) }
    {
        let mut guesses = Vec::new(alloc);
        guesses.resize(guesses_in(bytes), 0)?;
        Ok(Met {
            places: BTreeMap::new(alloc),
            names: Vec::new(alloc),
            guesses,
        })
    }

    /// The name of the variable, where it is found.
    fn name(&self, variable: Var, guess: usize) -> Option<&Named>
        ensures is { IfSome result (λ named. named.now.variable ≡ variable) }
        ensures found { IfSome result (λ named. Contains self.now.names.items named.now) }
    {
        match self.guessed(guess) {
            Some(named) if named.variable == variable => Some(named),
            _ => self.find(variable),
        }
    }

    /// The name of the variable by its place, where it is found.
    fn find(&self, variable: Var) -> Option<&Named>
        ensures is { IfSome result (λ named. named.now.variable ≡ variable) }
        ensures found { IfSome result (λ named. Contains self.now.names.items named.now) }
    {
        let place = *self.places.get(&variable)?;
        let named = self.names.get(place)?;
        if named.variable == variable {
            Some(named)
        } else {
            None
        }
    }

    /// Adds a name, and keeps its place.
    fn add(&mut self, guess: usize, variable: Var, name: Text) -> Result<(), NoMemory>
        ensures names { OnOk result (self.new.names.items
            ≡ self.old.names.items ++ record { variable = variable; name = name } ∷ []) }
        ensures keys { OnOk result
            (keys self.new.places ≡ insert_key var_cmp (keys self.old.places) variable) }
    {
        let place = self.names.len();
        self.places.insert(variable, place)?;
        self.names.push(Named { variable, name })?;
        self.keep(guess, place);
        Ok(())
    }

    /// Keeps the place.
    fn keep(&mut self, guess: usize, place: usize)
        ensures names { self.new.names ≡ self.old.names }
        ensures places { self.new.places ≡ self.old.places }
    {
        if let Some(kept) = self.guesses.get_mut(guess) {
            *kept = place;
        }
    }

    /// Where the place of a variable is kept.
    fn guess_of(&self, variable: Var) -> usize {
        mixed_points(variable) as usize % self.guesses.len().max(1)
    }

    /// The name at the place that is kept.
    fn guessed(&self, guess: usize) -> Option<&Named>
        ensures { IfSome result (λ named. Contains self.now.names.items named.now) }
    {
        let place = *self.guesses.get(guess)?;
        self.names.get(place)
    }
}

impl Namer {
    /// Appends the name of a variable that is met.
    pub fn push_met(
        &self,
        alloc: Global,
        out: &mut Vec<u8>,
        met: &mut Met,
        variable: Var,
    ) -> Result<(), NoMemory>
        requires { AreMet (naming_in self.now) met.old }
        ensures text { OnOk result (out.new.items
            ≡ out.old.items ++ variable_text (naming_in self.now) variable) }
        ensures keys { OnOk result
            (keys met.new.places ≡ insert_key var_cmp (keys met.old.places) variable) }
        ensures met { OnOk result (AreMet (naming_in self.now) met.new) }
    {
        let guess = met.guess_of(variable);
        if let Some(named) = self.met_name(met, variable, guess) {
            out.extend_from_slice(&named.name.bytes)?;
            return Ok(());
        }
        let name = self.name_of(alloc, variable)?;
        out.extend_from_slice(&name.bytes)?;
        self.add_met(met, guess, variable, name)
    }

    /// The variable with its name, where it is found.
    fn met_name<'a>(&self, met: &'a Met, variable: Var, guess: usize) -> Option<&'a Named>
        requires { AreMet (naming_in self.now) met.now }
        ensures name { IfSome result
            (λ named. named.now.name ≡ variable_text (naming_in self.now) variable) }
        ensures keys { IfSome result (λ _.
            keys met.now.places ≡ insert_key var_cmp (keys met.now.places) variable) }
    {
        met.name(variable, guess)
    }

    /// Adds a variable with its name.
    fn add_met(
        &self,
        met: &mut Met,
        guess: usize,
        variable: Var,
        name: Text,
    ) -> Result<(), NoMemory>
        requires met { AreMet (naming_in self.now) met.old }
        requires name { name ≡ variable_text (naming_in self.now) variable }
        ensures keys { OnOk result
            (keys met.new.places ≡ insert_key var_cmp (keys met.old.places) variable) }
        ensures met { OnOk result (AreMet (naming_in self.now) met.new) }
    {
        met.add(guess, variable, name)
    }

    /// The name of a variable.
    fn name_of(&self, alloc: Global, variable: Var) -> Result<Text, NoMemory>
        ensures { IfOk result (λ name. name ≡ variable_text (naming_in self.now) variable) }
    {
        let mut bytes = Vec::new(alloc);
        self.push_variable(alloc, &mut bytes, variable)?;
        Ok(Text { bytes })
    }
}

/// How many guesses are kept for a text of so many bytes: fewer than it has, and none where it has so
/// few variables that they are found at once.
fn guesses_in(bytes: usize) -> usize {
    if bytes < SHORT {
        0
    } else {
        (bytes / 4).min(GUESSES)
    }
}

/// A number that tells most variables apart.
fn mixed_points(variable: Var) -> u32 {
    match variable {
        Var::R(a, b, c, d) => mixed(a, mixed(b, mixed(c, d.0))),
        Var::S(a, b, c) => mixed(a, mixed(b, c.0)),
        Var::P(a, b, c) => mixed(a, mixed(b, c.0 ^ 96)),
        Var::X(a) => a.0 ^ 300,
        Var::Y(a) => a.0 ^ 330,
        Var::T(t) => t.0 ^ 400,
    }
}

/// A number from a point and a number.
fn mixed(a: PointId, n: u32) -> u32 {
    n.wrapping_mul(11) ^ a.0
}
