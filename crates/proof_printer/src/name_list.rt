//! Names by number.

ghost use Rattle.std.specs.Prelude.{◌≡◌, ◌≢◌, ℕ, ◌<◌, ◌≤◌, ◌^◌, ◌++◌, All, IfOk, OnOk};
ghost use Rattle.std.specs.Prelude.{length, map, slice_get, slice_index_or, unwrap_or};
ghost use Rattle.std.specs.Fmt.{decimal};
ghost use Rattle.std.specs.Option.{option_map};
ghost use Rattle.proof_printer.specs.Inner.Names.{AreFirstPlaces, name_in};
ghost use Rattle.proof_printer.specs.Naming.{name_or_number};

use crate::numbers::push_number;
use geo_base::Text;
use geo_points::NoMemory;
use std::alloc::Global;

/// A name for each number: that of a list, or else a mark and the number.
#[derive(Drop)]
pub(crate) struct NameList {
    mark: Text,
    names: Vec<Text>,
}

impl NameList {
    /// The names of what stands at these places, and for all other numbers the mark with the
    /// number.
    pub fn new(
        alloc: Global,
        mark: &[u8],
        places: &[u32],
        names: &[&[u8]],
    ) -> Result<NameList, NoMemory>
        ensures { let texts = map (λ name. name.now) names.now in
            IfOk result (λ l. name_in l ≡ name_or_number mark.now places.now texts) }
    {
        let firsts = first_places(alloc, places, names.len())?;
        let mut list = Vec::new(alloc);
        for n in 0..firsts.len() {
            list.push(name_or_mark(alloc, mark, names, firsts[n], n as u32)?)?;
        }
        let mark = Text {
            bytes: Vec::from_slice(alloc, mark)?,
        };
        Ok(NameList { mark, names: list })
    }

    /// Appends the name of the number.
    pub fn push(&self, alloc: Global, out: &mut Vec<u8>, n: u32) -> Result<(), NoMemory>
        ensures { OnOk result (out.new.items ≡ out.old.items ++ name_in self.now n) }
    {
        match self.names.get(n as usize) {
            Some(name) => out.extend_from_slice(&name.bytes)?,
            None => {
                out.extend_from_slice(&self.mark.bytes)?;
                push_number(alloc, out, n)?;
            }
        }
        Ok(())
    }
}

/// For each number up to the greatest place, where it first stands among the places, or else `none`.
fn first_places(alloc: Global, places: &[u32], none: usize) -> Result<Vec<usize>, NoMemory>
    ensures past { IfOk result (λ firsts. All (λ place. place < length firsts.items) places.now) }
    ensures small { IfOk result (λ firsts. length firsts.items ≤ 2 ^ 32) }
    ensures first { IfOk result (λ firsts. AreFirstPlaces places.now none firsts.items) }
{
    let past = one_past(places);
    let mut firsts = Vec::new(alloc);
    firsts.resize(past, none)?;
    for k in (0..places.len()).rev() {
        put(&mut firsts, places[k] as usize, k);
    }
    Ok(firsts)
}

/// A number past all places.
fn one_past(places: &[u32]) -> usize
    ensures past { All (λ place. place < result) places.now }
    ensures small { result ≤ 2 ^ 32 }
{
    let mut past = 0;
    for place in places {
        past = past.max(*place as usize + 1);
    }
    past
}

/// Puts a number at a place.
fn put(numbers: &mut Vec<usize>, place: usize, number: usize)
    requires { place < length numbers.old.items }
    ensures whole { length numbers.new.items ≡ length numbers.old.items }
    ensures place { slice_index_or numbers.new.items place 0 ≡ number }
    ensures others { (i : ℕ) → i ≢ place
        → slice_index_or numbers.new.items i 0 ≡ slice_index_or numbers.old.items i 0 }
{
    numbers[place] = number;
}

/// The name at a place, or where there is none the mark with the number.
fn name_or_mark(
    alloc: Global,
    mark: &[u8],
    names: &[&[u8]],
    place: usize,
    n: u32,
) -> Result<Text, NoMemory>
    ensures { let texts = map (λ name. name.now) names.now in
        IfOk result (λ text. text ≡ unwrap_or (slice_get texts place) (mark.now ++ decimal n)) }
{
    let mut bytes = Vec::new(alloc);
    match name_there(names, place) {
        Some(name) => bytes.extend_from_slice(name)?,
        None => {
            bytes.extend_from_slice(mark)?;
            push_number(alloc, &mut bytes, n)?;
        }
    }
    Ok(Text { bytes })
}

/// The name at a place.
fn name_there<'a>(names: &[&'a [u8]], place: usize) -> Option<&'a [u8]>
    ensures { let texts = map (λ name. name.now) names.now in
        option_map (λ name. name.now) result ≡ slice_get texts place }
{
    names.get(place).copied()
}
