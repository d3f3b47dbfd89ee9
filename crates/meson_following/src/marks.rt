//! What is met in the sources of a target, where variables are followed.

ghost use Rattle.std.specs.Prelude.{◌≡◌, ◌++◌, ◌∷◌, [], Some, IfOk, OnOk, length, string_bytes};

use crate::makers::is_same_place;
use meson_calls::CallRef;
use meson_calls::call::BorrowedPlace;
use meson_calls::place::{copy_place, place_of};
use meson_lex::Span;
use meson_splice::Text;
use std::alloc::{AllocError, Global};

/// How something was met.
#[derive(Debug, Drop)]
pub struct Way {
    /// Whether it is there in every evaluation that makes the target.
    pub sure: bool,
    /// The file of the innermost call of `files` around it: the string is a path from the folder of that file.
    pub files: Option<usize>,
    /// The places of the values of the makers that were followed to it, one within another.
    pub through: Vec<CallRef>,
}

/// A literal that is met.
#[derive(Debug, Drop)]
pub struct Item {
    /// What the string means.
    pub text: Text,
    /// The bytes of the string in its file.
    pub span: Span,
    pub place: CallRef,
    /// Whether it is an element of the list of the array or the call around it.
    pub listed: bool,
    pub way: Way,
}

/// What is met.
#[derive(Debug, Drop)]
pub enum Mark {
    Known(Item),
    /// Something that is not known.
    Opaque,
    /// An array or a call of `files` in which nothing is met.
    Empty { place: CallRef, way: Way },
}

/// What is met, and the places of the values of the makers that were followed so far.
#[derive(Debug, Drop)]
pub struct Following {
    pub marks: Vec<Mark>,
    pub followed: Vec<CallRef>,
}

/// How an expression was come to.
#[derive(Clone, Copy)]
pub(crate) struct Route<'s> {
    pub sure: bool,
    pub files: Option<usize>,
    pub through: &'s [CallRef],
}

/// Equal places.
fn copy_places(alloc: Global, places: &[CallRef]) -> Result<Vec<CallRef>, AllocError>
    ensures { IfOk result (λ all. all.items ≡ places.now) }
{
    let mut all = Vec::with_capacity(alloc, places.len())?;
    for place in places {
        all.push(copy_place(alloc, place)?)?;
    }
    Ok(all)
}

impl Route<'_> {
    ghost use Rattle.meson_following.specs.CodeFollowing.{route_view, way_view};
    ghost use Rattle.meson_following.specs.Following.{files_way, unsure_way};

    /// The same, to one of two answers.
    pub(crate) fn unsure(&self) -> Self
        ensures { route_view result ≡ unsure_way (route_view self.now) }
    {
        Route {
            sure: false,
            files: self.files,
            through: self.through,
        }
    }

    /// The same, within a call of `files` in this file.
    pub(crate) fn in_files(&self, file: usize) -> Self
        ensures { route_view result ≡ files_way file (route_view self.now) }
    {
        Route {
            sure: self.sure,
            files: Some(file),
            through: self.through,
        }
    }

    /// The makers on this way, and then a further one.
    pub(crate) fn with(&self, alloc: Global, place: &CallRef) -> Result<Vec<CallRef>, AllocError>
        ensures { IfOk result (λ all. all.items ≡ self.now.through.now ++ place.now ∷ []) }
    {
        let mut all = copy_places(alloc, self.through)?;
        all.push(copy_place(alloc, place)?)?;
        Ok(all)
    }

    /// The way of what is met here.
    fn way(&self, alloc: Global) -> Result<Way, AllocError>
        ensures { IfOk result (λ w. way_view w ≡ route_view self.now) }
    {
        let through = copy_places(alloc, self.through)?;
        Ok(Way {
            sure: self.sure,
            files: self.files,
            through,
        })
    }
}

impl Following {
    ghost use Rattle.meson_calls.specs.Project.{place_at};
    ghost use Rattle.meson_following.specs.CodeFollowing.{Follows, following_view, route_view, stand_on};
    ghost use Rattle.meson_following.specs.Following.{empty, literal_met, met, nothing_met, one_of_places, opaque};

    /// Nothing so far. Does not allocate.
    pub(crate) fn new(alloc: Global) -> Self
        ensures { following_view result ≡ nothing_met [] }
    {
        Following {
            marks: Vec::new(alloc),
            followed: Vec::new(alloc),
        }
    }

    /// Whether the value at a place was followed.
    pub(crate) fn has_followed(&self, place: &CallRef) -> bool
        ensures { result ≡ one_of_places (following_view self.now).followed place.now }
    {
        for other in &self.followed {
            if is_same_place(other, place) {
                return true;
            }
        }
        false
    }

    /// How many things are met.
    pub(crate) fn count(&self) -> usize
        ensures { result ≡ length (following_view self.now).marks }
    {
        self.marks.len()
    }

    /// Follows the value at a place.
    pub(crate) fn follow(&mut self, alloc: Global, place: &CallRef) -> Result<(), AllocError>
        ensures { OnOk result (following_view self.new
            ≡ record { marks = (following_view self.old).marks; followed = (following_view self.old).followed ++ place.now ∷ [] }) }
    {
        self.followed.push(copy_place(alloc, place)?)?;
        Ok(())
    }

    /// Meets something that is not known.
    pub(crate) fn miss(&mut self) -> Result<(), AllocError>
        ensures { OnOk result (Follows self.old (met opaque) self.new) }
    {
        self.marks.push(Mark::Opaque)?;
        Ok(())
    }

    /// Meets a list in which nothing is met.
    pub(crate) fn meet_empty(
        &mut self,
        alloc: Global,
        route: Route<'_>,
        place: BorrowedPlace<'_>,
    ) -> Result<(), AllocError>
        ensures { OnOk result (Follows self.old (met (empty (place_at place.entry) (route_view route.entry))) self.new) }
    {
        let way = route.way(alloc)?;
        let place = place_of(alloc, place.file, place.path)?;
        self.marks.push(Mark::Empty { place, way })?;
        Ok(())
    }

    /// Meets a string.
    pub(crate) fn meet_literal(
        &mut self,
        alloc: Global,
        route: Route<'_>,
        place: BorrowedPlace<'_>,
        listed: bool,
        span: Span,
        text: String,
    ) -> Result<(), AllocError>
        ensures { OnOk result (Follows self.old (λ followed.
            literal_met span (stand_on route.entry (place_at place.entry) listed) followed (Some (string_bytes text))) self.new) }
    {
        let way = route.way(alloc)?;
        let place = place_of(alloc, place.file, place.path)?;
        let item = Item {
            text: Text::of(text),
            span,
            place,
            listed,
            way,
        };
        self.marks.push(Mark::Known(item))?;
        Ok(())
    }
}
