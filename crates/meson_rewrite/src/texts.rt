//! Texts in place of files of the project.

ghost use Rattle.std.specs.Prelude.{◌≡◌, ◌⊎◌, List, IfErr, IfOk};
ghost use Rattle.meson_gathering.specs.Gathering.{named_folder};
ghost use Rattle.meson_json.specs.TextsFile.{AreTexts, GivenText, HasNoTexts, HasTexts};
ghost use Rattle.meson_rewrite.specs.declared.advice.Advice.TheVariants.{Nothing};
ghost use Rattle.meson_rewrite.specs.declared.stop.Stop.TheVariants.{BadTexts};
ghost use Rattle.meson_rewrite.specs.Stops.{WantsMemory};
ghost use Rattle.meson_rewrite.specs.Texts.{placed};

use crate::advice::Advice;
use crate::stop::Stop;
use meson_json::read_texts;
use meson_splice::{FileSet, Text};
use meson_store::path_in;
use std::alloc::{AllocError, Global};

/// The texts as files of a store, each by the name of its file there.
fn place(alloc: Global, dir: Option<&str>, texts: &[(Text, Text)]) -> Result<FileSet, AllocError>
    requires { AreTexts texts.now }
    ensures { IfOk result (λ files. files ≡ placed (named_folder dir.entry) texts.now) }
{
    let mut files = FileSet::new(alloc);
    for text in texts {
        let path = path_in(alloc, dir, text.0.get())?;
        let bytes = Vec::from_slice(alloc, text.1.get().as_bytes())?;
        files.push_new(path, bytes)?;
    }
    Ok(files)
}

/// The texts that a file with these bytes lists, as files of the store.
pub(crate) fn texts_in(alloc: Global, dir: Option<&str>, bytes: &[u8]) -> Result<FileSet, Stop>
    ensures ok { IfOk result (λ files. (texts : List GivenText) × HasTexts bytes.now texts × (files ≡ placed (named_folder dir.entry) texts)) }
    ensures none { IfErr result (λ why. WantsMemory why ⊎ ((why ≡ BadTexts Nothing) × HasNoTexts bytes.now)) }
{
    match read_texts(alloc, bytes)? {
        Some(texts) => Ok(place(alloc, dir, texts.get())?),
        None => Err(Stop::BadTexts(Advice::Nothing)),
    }
}
