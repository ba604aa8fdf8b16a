//! The numbers of names, looked up by their texts.

ghost use Rattle.std.specs.Prelude.{◌≡◌, ◌<◌, ℕ, [], IfNone, IfOk, IfSome, List, length, map, slice_index_or};
ghost use Rattle.geo_program.specs.Names.{names_of};
ghost use Rattle.geo_library.specs.Inner.Naming.{AreNumbersByText};

use geo_points::NoMemory;
use geo_program::{Name, NameKind, texts_of};
use std::alloc::Global;
use std::collections::BTreeMap;

/// The numbers of the names of this kind.
pub(crate) fn numbers_of_names<'a>(
    alloc: Global,
    names: &'a [Name],
    kind: NameKind,
) -> Result<BTreeMap<&'a [u8], usize>, NoMemory>
    ensures { IfOk result (AreNumbersByText (names_of kind names.now)) }
{
    let texts = texts_of(alloc, names, kind)?;
    numbers_of_texts(alloc, &texts)
}

/// The numbers of the texts: of one that stands twice, the last.
fn numbers_of_texts<'a>(
    alloc: Global,
    texts: &[&'a [u8]],
) -> Result<BTreeMap<&'a [u8], usize>, NoMemory>
    ensures { IfOk result (AreNumbersByText (map (λ t. t.now) texts.now)) }
{
    let mut numbers = BTreeMap::new(alloc);
    for n in 0..texts.len() {
        numbers.insert(text_at(texts, n), n)?;
    }
    Ok(numbers)
}

/// The number of the text.
pub(crate) fn number_of(numbers: &BTreeMap<&[u8], usize>, text: &[u8]) -> Option<usize>
    ensures declared { (texts : List (List ℕ)) → AreNumbersByText texts numbers.now
        → IfSome result (λ n. n < length texts) }
    ensures named { (texts : List (List ℕ)) → AreNumbersByText texts numbers.now
        → IfSome result (λ n. slice_index_or texts n [] ≡ text.now) }
    ensures none { (texts : List (List ℕ)) → AreNumbersByText texts numbers.now
        → IfNone result ((n : ℕ) → n < length texts → slice_index_or texts n [] ≡ text.now → ⊥) }
{
    numbers.get(text).copied()
}

/// The text at a place; past the end none.
pub(crate) fn text_at<'a>(texts: &[&'a [u8]], k: usize) -> &'a [u8]
    ensures { result.now ≡ slice_index_or (map (λ t. t.now) texts.now) k [] }
{
    match texts.get(k) {
        Some(text) => *text,
        None => &[],
    }
}
