//! What may have made the value of a variable.

ghost use Rattle.std.specs.Prelude.{◌≡◌, ◌&&◌, Some, IfOk, filter, map, not};
ghost use Rattle.meson_following.specs.CodeMakers.{known_view, made_view, maker_view};
ghost use Rattle.meson_following.specs.Following.{one_of_places};
ghost use Rattle.meson_following.specs.Makers.{added, are_same, assigned, either_made, is_among, is_full, is_same_place, is_sure_among, joined, limited, made_by};
ghost use Rattle.meson_following.specs.Makers.{made_unknown, of_both, renewed, sure_as_among, touched, unsure, with_maker};

use meson_calls::CallRef;
use meson_calls::place::copy_place;
use meson_syntax::Expr;
use std::alloc::{AllocError, Global};

/// This number of makers of one variable are kept apart at most.
pub const MAX_MAKERS: usize = 1024;

/// An assignment whose value may have a part in what a variable holds.
#[derive(Drop)]
pub struct Maker<'t> {
    /// The place of the value.
    pub place: CallRef,
    /// The bytes of its file.
    pub source: &'t [u8],
    pub value: &'t Expr,
    /// Whether the value is added to the variable, rather than set.
    pub adds: bool,
    /// Whether it has a part in every evaluation.
    pub sure: bool,
}

/// What made the value of a variable: these, in order, and perhaps something that is not known.
#[derive(Drop)]
pub struct Made<'t> {
    pub makers: Vec<Maker<'t>>,
    pub unknown: bool,
}

/// What is known of a variable at a point: nothing where it is not set, or where no evaluation comes.
pub type Known<'t> = Option<Made<'t>>;

/// Whether two places are the same.
pub fn is_same_place(place: &CallRef, other: &CallRef) -> bool
    ensures { result ≡ is_same_place place.now other.now }
{
    place.file == other.file && place.path.steps.get() == other.path.steps.get()
}

/// Whether a place is one of these.
pub fn is_one_of(places: &[CallRef], place: &CallRef) -> bool
    ensures { result ≡ one_of_places places.now place.now }
{
    for other in places {
        if is_same_place(other, place) {
            return true;
        }
    }
    false
}

/// Whether the values of two makers have the same place.
fn are_same(maker: &Maker<'_>, other: &Maker<'_>) -> bool
    ensures { result ≡ are_same (maker_view maker.now) (maker_view other.now) }
{
    is_same_place(&maker.place, &other.place)
}

/// Whether the values of two makers have the same place, and the first maker is sure.
fn are_same_and_sure(maker: &Maker<'_>, other: &Maker<'_>) -> bool
    ensures { result ≡ are_same (maker_view maker.now) (maker_view other.now) && maker.now.sure }
{
    are_same(maker, other) && maker.sure
}

/// Whether a maker is among these.
fn is_among(makers: &[Maker<'_>], maker: &Maker<'_>) -> bool
    ensures { result ≡ is_among (map maker_view makers.now) (maker_view maker.now) }
{
    for other in makers {
        if are_same(other, maker) {
            return true;
        }
    }
    false
}

/// Whether a maker is among these and sure there.
fn is_sure_among(makers: &[Maker<'_>], maker: &Maker<'_>) -> bool
    ensures { result ≡ is_sure_among (map maker_view makers.now) (maker_view maker.now) }
{
    for other in makers {
        if are_same_and_sure(other, maker) {
            return true;
        }
    }
    false
}

impl<'t> Maker<'t> {
    /// An equal maker.
    fn copy(&self, alloc: Global) -> Result<Maker<'t>, AllocError>
        ensures { IfOk result (λ m. maker_view m ≡ maker_view self.now) }
    {
        let place = copy_place(alloc, &self.place)?;
        Ok(Maker {
            place,
            source: self.source,
            value: self.value,
            adds: self.adds,
            sure: self.sure,
        })
    }

    /// The same maker, sure only if it was and this holds.
    fn sure_if(self, sure: bool) -> Maker<'t>
        ensures { maker_view result ≡ record { value = (maker_view self.entry).value; adds = self.entry.adds; sure = self.entry.sure && sure } }
    {
        let Maker {
            place,
            source,
            value,
            adds,
            sure: before,
        } = self;
        Maker {
            place,
            source,
            value,
            adds,
            sure: before && sure,
        }
    }
}

/// Equal makers.
fn copy_all<'t>(alloc: Global, makers: &[Maker<'t>]) -> Result<Vec<Maker<'t>>, AllocError>
    ensures { IfOk result (λ all. map maker_view all.items ≡ map maker_view makers.now) }
{
    let mut all = Vec::with_capacity(alloc, makers.len())?;
    for maker in makers {
        all.push(maker.copy(alloc)?)?;
    }
    Ok(all)
}

/// The same makers, of which none is sure.
fn unsure_all<'t>(alloc: Global, makers: Vec<Maker<'t>>) -> Result<Vec<Maker<'t>>, AllocError>
    ensures { IfOk result (λ all. map maker_view all.items ≡ map unsure (map maker_view makers.entry.items)) }
{
    let mut all = Vec::with_capacity(alloc, makers.len())?;
    for maker in makers {
        all.push(maker.sure_if(false))?;
    }
    Ok(all)
}

/// The same makers, each sure only if it is sure among the others too.
fn sure_as_among<'t>(
    alloc: Global,
    makers: Vec<Maker<'t>>,
    others: &[Maker<'t>],
) -> Result<Vec<Maker<'t>>, AllocError>
    ensures { IfOk result (λ all. map maker_view all.items ≡ map (sure_as_among (map maker_view others.now)) (map maker_view makers.entry.items)) }
{
    let mut all = Vec::with_capacity(alloc, makers.len())?;
    for maker in makers {
        let sure = is_sure_among(others, &maker);
        all.push(maker.sure_if(sure))?;
    }
    Ok(all)
}

/// Those of the others that are not among the makers, of which none is sure.
fn further<'t>(
    alloc: Global,
    makers: &[Maker<'t>],
    others: Vec<Maker<'t>>,
) -> Result<Vec<Maker<'t>>, AllocError>
    ensures { IfOk result (λ all. map maker_view all.items
        ≡ map unsure (filter (λ n. not (is_among (map maker_view makers.now) n)) (map maker_view others.entry.items))) }
{
    let mut all = Vec::new(alloc);
    for other in others {
        if !is_among(makers, &other) {
            all.push(other.sure_if(false))?;
        }
    }
    Ok(all)
}

/// Makers where one of two ways was taken.
fn of_both<'t>(
    alloc: Global,
    makers: Vec<Maker<'t>>,
    others: Vec<Maker<'t>>,
) -> Result<Vec<Maker<'t>>, AllocError>
    ensures { IfOk result (λ all. map maker_view all.items ≡ of_both (map maker_view makers.entry.items) (map maker_view others.entry.items)) }
{
    let copies = copy_all(alloc, others.as_slice())?;
    let mut more = further(alloc, makers.as_slice(), copies)?;
    let mut all = sure_as_among(alloc, makers, others.as_slice())?;
    all.append(&mut more)?;
    Ok(all)
}

/// The makers, with the new one in the place of the one that is the same.
fn renew<'t>(
    alloc: Global,
    makers: Vec<Maker<'t>>,
    new: &Maker<'t>,
) -> Result<Vec<Maker<'t>>, AllocError>
    ensures { IfOk result (λ all. map maker_view all.items ≡ map (renewed (maker_view new.now)) (map maker_view makers.entry.items)) }
{
    let mut all = Vec::with_capacity(alloc, makers.len())?;
    for maker in makers {
        if are_same(&maker, new) {
            all.push(new.copy(alloc)?)?;
        } else {
            all.push(maker)?;
        }
    }
    Ok(all)
}

/// The makers with a new one: at the end, or in the place of the one that is the same.
fn with_maker<'t>(
    alloc: Global,
    makers: Vec<Maker<'t>>,
    new: Maker<'t>,
) -> Result<Vec<Maker<'t>>, AllocError>
    ensures { IfOk result (λ all. map maker_view all.items ≡ with_maker (map maker_view makers.entry.items) (maker_view new.entry)) }
{
    if is_among(makers.as_slice(), &new) {
        return renew(alloc, makers, &new);
    }
    let mut all = makers;
    all.push(new)?;
    Ok(all)
}

impl<'t> Made<'t> {
    /// By something that is not known alone. Does not allocate.
    pub fn unknown(alloc: Global) -> Made<'t>
        ensures { made_view result ≡ made_unknown }
    {
        Made {
            makers: Vec::new(alloc),
            unknown: true,
        }
    }

    /// By one maker alone.
    fn by(alloc: Global, maker: Maker<'t>) -> Result<Made<'t>, AllocError>
        ensures { IfOk result (λ m. made_view m ≡ made_by (maker_view maker.entry)) }
    {
        let mut makers = Vec::new(alloc);
        makers.push(maker)?;
        Ok(Made {
            makers,
            unknown: false,
        })
    }

    /// An equal value.
    fn copy(&self, alloc: Global) -> Result<Made<'t>, AllocError>
        ensures { IfOk result (λ m. made_view m ≡ made_view self.now) }
    {
        let makers = copy_all(alloc, self.makers.as_slice())?;
        Ok(Made {
            makers,
            unknown: self.unknown,
        })
    }

    /// These makers, of which at most the first ones are kept.
    fn limited(makers: Vec<Maker<'t>>, unknown: bool) -> Made<'t>
        ensures { made_view result ≡ limited (record { makers = map maker_view makers.entry.items; unknown = unknown }) }
    {
        let mut makers = makers;
        if makers.len() > MAX_MAKERS {
            makers.truncate(MAX_MAKERS);
            return Made {
                makers,
                unknown: true,
            };
        }
        Made { makers, unknown }
    }

    /// Whether as many makers are kept as can be: others may have been left out.
    pub(crate) fn is_full(&self) -> bool
        ensures { result ≡ is_full (made_view self.now) }
    {
        self.makers.len() >= MAX_MAKERS
    }

    /// By these makers and a further one.
    fn with(self, alloc: Global, maker: Maker<'t>) -> Result<Made<'t>, AllocError>
        ensures { IfOk result (λ m. made_view m ≡ added (maker_view maker.entry) (Some (made_view self.entry))) }
    {
        let Made { makers, unknown } = self;
        let makers = with_maker(alloc, makers, maker)?;
        Ok(Made::limited(makers, unknown))
    }

    /// By what an assignment leaves of these makers, and its own.
    fn assigned(self, alloc: Global, maker: Maker<'t>) -> Result<Made<'t>, AllocError>
        ensures { IfOk result (λ m. Some (made_view m) ≡ assigned (maker_view maker.entry) (Some (made_view self.entry))) }
    {
        if maker.adds {
            self.with(alloc, maker)
        } else {
            Made::by(alloc, maker)
        }
    }

    /// By those of one of two ways.
    fn either(alloc: Global, made: Made<'t>, other: Made<'t>) -> Result<Made<'t>, AllocError>
        ensures { IfOk result (λ m. made_view m ≡ either_made (made_view made.entry) (made_view other.entry)) }
    {
        let unknown = made.unknown || other.unknown;
        let makers = of_both(alloc, made.makers, other.makers)?;
        Ok(Made::limited(makers, unknown))
    }
}

/// An equal copy of what is known.
///
/// # Errors
/// Out of memory.
pub fn copy_known<'t>(alloc: Global, known: &Known<'t>) -> Result<Known<'t>, AllocError>
    ensures { IfOk result (λ k. known_view k ≡ known_view known.now) }
{
    match known {
        Some(made) => {
            let made = made.copy(alloc)?;
            Ok(Some(made))
        }
        None => Ok(None),
    }
}

/// What is known where one of two ways was taken.
///
/// # Errors
/// Out of memory.
pub fn join<'t>(alloc: Global, known: Known<'t>, other: Known<'t>) -> Result<Known<'t>, AllocError>
    ensures { IfOk result (λ k. known_view k ≡ joined (known_view known.entry) (known_view other.entry)) }
{
    match (known, other) {
        (None, other) => Ok(other),
        (Some(made), None) => Ok(Some(made)),
        (Some(made), Some(other)) => {
            let made = Made::either(alloc, made, other)?;
            Ok(Some(made))
        }
    }
}

/// What is known after an assignment.
///
/// # Errors
/// Out of memory.
pub fn assign<'t>(
    alloc: Global,
    maker: Maker<'t>,
    known: Known<'t>,
) -> Result<Known<'t>, AllocError>
    ensures { IfOk result (λ k. known_view k ≡ assigned (maker_view maker.entry) (known_view known.entry)) }
{
    let made = match known {
        Some(made) => made.assigned(alloc, maker)?,
        None => Made::by(alloc, maker)?,
    };
    Ok(Some(made))
}

/// What is known after something that may set the variable.
///
/// # Errors
/// Out of memory.
pub fn touch<'t>(alloc: Global, known: Known<'t>) -> Result<Known<'t>, AllocError>
    ensures { IfOk result (λ k. known_view k ≡ touched (known_view known.entry)) }
{
    let makers = match known {
        Some(made) => unsure_all(alloc, made.makers)?,
        None => Vec::new(alloc),
    };
    Ok(Some(Made {
        makers,
        unknown: true,
    }))
}
