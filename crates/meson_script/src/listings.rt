//! What info commands list, kept as text.

ghost use Rattle.std.specs.Prelude.{◌≡◌, ◌∷◌, ◌++◌, [], IfOk, List, OnOk, Ok, false, map, option_map, option_to_list};
ghost use Rattle.serde_json.specs.Data.{Data};
ghost use Rattle.serde_json.specs.View.{items_of, view};
ghost use Rattle.serde_json.specs.Written.{compact_text, has_float, items_have_float};
ghost use Rattle.meson_calls.specs.Refusals.{IfRefused};
ghost use Rattle.meson_plan.specs.Listing.{told};
ghost use Rattle.meson_script.specs.Listings.{Lists, listings_text};

use meson_inventory::placed_info;
use meson_plan::{Command, Project, Refusal};
use meson_splice::Bytes;
use serde_json::Value;
use std::alloc::{AllocError, Global};

/// In which form an info command lists a call.
#[derive(Debug, Clone, Copy)]
pub enum ListingForm {
    /// As `meson rewrite` prints it.
    Plain,
    /// With positions.
    Placed,
}

/// The listings of info commands, in order, as the text of an array of compact JSON. It is empty as long as there are none.
#[derive(Debug, Drop)]
pub(crate) struct Listings {
    pub text: Vec<u8>,
}

impl Listings {
    /// No listings. Does not allocate.
    pub(crate) fn new(alloc: Global) -> Listings
        ensures { result.text.items ≡ [] }
    {
        Listings {
            text: Vec::new(alloc),
        }
    }

    /// Puts a comma or an opening bracket in place of the closing bracket: then a further listing can follow.
    fn open(&mut self) -> Result<(), AllocError>
        ensures { OnOk result ((shown : List Data) → self.old.text.items ≡ listings_text shown
            → (d : Data) → self.new.text.items ++ (compact_text d ++ 93 ∷ []) ≡ listings_text (shown ++ d ∷ [])) }
    {
        match self.text.pop() {
            Some(_) => Ok(self.text.push(b',')?),
            None => Ok(self.text.push(b'[')?),
        }
    }

    /// Adds a listing.
    fn push(&mut self, alloc: Global, listing: &Value) -> Result<(), AllocError>
        requires { has_float (view listing.now) ≡ false }
        ensures { OnOk result ((shown : List Data) → self.old.text.items ≡ listings_text shown
            → self.new.text.items ≡ listings_text (shown ++ view listing.now ∷ [])) }
    {
        let mut text = listing.to_vec(alloc)?;
        self.open()?;
        self.text.append(&mut text)?;
        self.text.push(b']')?;
        Ok(())
    }

    /// Adds listings, in order.
    pub(crate) fn extend(&mut self, alloc: Global, listings: &[Value]) -> Result<(), AllocError>
        requires { items_have_float (items_of (map view listings.now)) ≡ false }
        ensures { OnOk result ((shown : List Data) → self.old.text.items ≡ listings_text shown
            → self.new.text.items ≡ listings_text (shown ++ map view listings.now)) }
    {
        for listing in listings {
            self.push(alloc, listing)?;
        }
        Ok(())
    }

    /// The text. Does not allocate.
    pub(crate) fn take(self) -> Bytes
        ensures { result ≡ self.text.items }
    {
        let Listings { text } = self;
        Bytes::of(text)
    }
}

/// The listing that there is, if there is one.
fn as_list(alloc: Global, listing: Option<Value>) -> Result<Vec<Value>, AllocError>
    ensures { IfOk result (λ listings. map view listings.items ≡ option_to_list (option_map view listing)) }
{
    let mut listings = Vec::new(alloc);
    if let Some(listing) = listing {
        listings.push(listing)?;
        return Ok(listings);
    }
    Ok(listings)
}

/// What a command lists of a project, with positions.
fn placed(alloc: Global, project: &Project, command: &Command) -> Result<Vec<Value>, Refusal>
    requires { (plain : List Data) × (told project.now command.now ≡ Ok plain) }
    ensures listed { IfOk result (λ listings. Lists ListingForm.Placed project.now command.now (map view listings.items)) }
    ensures memory { IfRefused result (λ why. ⊥) }
{
    let listing = placed_info(alloc, project, command)?;
    Ok(as_list(alloc, listing)?)
}

/// What a command lists of a project in a form, where this is what it lists in the plain one.
///
/// # Errors
/// Out of memory.
pub(crate) fn listed(
    alloc: Global,
    form: ListingForm,
    project: &Project,
    command: &Command,
    plain: Vec<Value>,
) -> Result<Vec<Value>, Refusal>
    requires { told project.now command.now ≡ Ok (map view plain.items) }
    ensures listed { IfOk result (λ listings. Lists form project.now command.now (map view listings.items)) }
    ensures memory { IfRefused result (λ why. ⊥) }
{
    match form {
        ListingForm::Plain => Ok(plain),
        ListingForm::Placed => placed(alloc, project, command),
    }
}
