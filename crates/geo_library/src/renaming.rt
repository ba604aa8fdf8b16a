//! What the names of the cited program stand for in the citing one.

ghost use Rattle.std.specs.Prelude.{◌≡◌, IfOk, MatchOption, length, map};
ghost use Rattle.std.specs.Prelude.{slice_index_or};
ghost use Rattle.geo_program.specs.Names.{names_of};
ghost use Rattle.geo_library.specs.Inner.Naming.{AreImages, HasNoNumbers, HasNoRenaming, renaming_form};
ghost use Rattle.geo_library.specs.Renamings.{AreNamesOf, IsRenaming, given_names};

use crate::name_numbers::{number_of, numbers_of_names, text_at};
use geo_base::Text;
use geo_points::{NoMemory, ParamId, PointId};
use geo_program::{Name, NameKind};
use std::alloc::Global;

/// The numbers of the points and of the parameters of the citing program for which those of the
/// cited one stand, in order.
#[derive(Drop)]
pub struct Renaming {
    /// For each point of the cited program a point.
    pub points: Vec<usize>,
    /// For each parameter of the cited program a parameter.
    pub params: Vec<usize>,
}

/// The renaming that these texts give, one for each cited name: a point's for a point, and a
/// parameter's for a parameter. `None` where they give none.
pub fn renaming_of(
    alloc: Global,
    cited: &[Name],
    citing: &[Name],
    texts: &[&[u8]],
) -> Result<Option<Renaming>, NoMemory>
    ensures { IfOk result (λ r. MatchOption r
        (HasNoRenaming cited.now citing.now (map (λ t. t.now) texts.now))
        (λ x. IsRenaming cited.now citing.now (map (λ t. t.now) texts.now) (renaming_form x))) }
{
    if texts.len() != cited.len() {
        return Ok(None);
    }
    let Some(points) = numbers_of(alloc, cited, citing, texts, NameKind::Point)? else {
        return Ok(None);
    };
    let Some(params) = numbers_of(alloc, cited, citing, texts, NameKind::Param)? else {
        return Ok(None);
    };
    Ok(Some(Renaming { points, params }))
}

/// The numbers of the names that the texts of this kind stand for. `None` where one stands for none.
fn numbers_of(
    alloc: Global,
    cited: &[Name],
    citing: &[Name],
    texts: &[&[u8]],
    kind: NameKind,
) -> Result<Option<Vec<usize>>, NoMemory>
    requires { length texts.now ≡ length cited.now }
    ensures { IfOk result (λ r. MatchOption r
        (HasNoNumbers kind citing.now (names_of kind (given_names cited.now (map (λ t. t.now) texts.now))))
        (λ v. AreNamesOf kind citing.now (names_of kind (given_names cited.now (map (λ t. t.now) texts.now))) v.items)) }
{
    let known = numbers_of_names(alloc, citing, kind)?;
    let mut numbers = Vec::new(alloc);
    for (k, name) in cited.iter().enumerate() {
        if name.kind == kind {
            let Some(number) = number_of(&known, text_at(texts, k)) else {
                return Ok(None);
            };
            numbers.push(number)?;
        }
    }
    Ok(Some(numbers))
}

/// The cited names with the texts that are given to them.
pub fn given_names(alloc: Global, cited: &[Name], texts: &[&[u8]]) -> Result<Vec<Name>, NoMemory>
    ensures { IfOk result (λ names.
        names.items ≡ given_names cited.now (map (λ t. t.now) texts.now)) }
{
    let mut names = Vec::new(alloc);
    for (k, name) in cited.iter().enumerate() {
        if k < texts.len() {
            names.push(name_with(alloc, name.kind, text_at(texts, k))?)?;
        }
    }
    Ok(names)
}

/// A name of this kind with this text.
fn name_with(alloc: Global, kind: NameKind, text: &[u8]) -> Result<Name, NoMemory>
    ensures { IfOk result (λ n. n ≡ record { text = text.now; kind = kind }) }
{
    let bytes = Vec::from_slice(alloc, text)?;
    Ok(Name {
        text: Text { bytes },
        kind,
    })
}

/// Where the points and parameters of the cited program stand among the steps of the citing one.
#[derive(Drop)]
pub struct Images {
    /// The points.
    pub points: Vec<PointId>,
    /// The parameters.
    pub params: Vec<ParamId>,
}

impl Images {
    /// The places of what they stand for; past the end the place 0.
    pub fn new(
        alloc: Global,
        renaming: &Renaming,
        points: &[PointId],
        params: &[ParamId],
    ) -> Result<Images, NoMemory>
        ensures points { IfOk result (λ i. AreImages (map (λ p. p.0) points.now)
            renaming.now.points.items (map (λ p. p.0) i.points.items)) }
        ensures params { IfOk result (λ i. AreImages (map (λ p. p.0) params.now)
            renaming.now.params.items (map (λ p. p.0) i.params.items)) }
    {
        Ok(Images {
            points: point_images(alloc, points, &renaming.points)?,
            params: param_images(alloc, params, &renaming.params)?,
        })
    }
}

/// The places of these points.
fn point_images(
    alloc: Global,
    places: &[PointId],
    numbers: &[usize],
) -> Result<Vec<PointId>, NoMemory>
    ensures { IfOk result (λ i.
        AreImages (map (λ p. p.0) places.now) numbers.now (map (λ p. p.0) i.items)) }
{
    let mut images = Vec::new(alloc);
    for number in numbers {
        images.push(point_place(places, *number))?;
    }
    Ok(images)
}

/// The places of these parameters.
fn param_images(
    alloc: Global,
    places: &[ParamId],
    numbers: &[usize],
) -> Result<Vec<ParamId>, NoMemory>
    ensures { IfOk result (λ i.
        AreImages (map (λ p. p.0) places.now) numbers.now (map (λ p. p.0) i.items)) }
{
    let mut images = Vec::new(alloc);
    for number in numbers {
        images.push(param_place(places, *number))?;
    }
    Ok(images)
}

/// The place of a point; past the end 0.
fn point_place(places: &[PointId], number: usize) -> PointId
    ensures { result.0 ≡ slice_index_or (map (λ p. p.0) places.now) number 0 }
{
    match places.get(number) {
        Some(place) => *place,
        None => PointId(0),
    }
}

/// The place of a parameter; past the end 0.
fn param_place(places: &[ParamId], number: usize) -> ParamId
    ensures { result.0 ≡ slice_index_or (map (λ p. p.0) places.now) number 0 }
{
    match places.get(number) {
        Some(place) => *place,
        None => ParamId(0),
    }
}
