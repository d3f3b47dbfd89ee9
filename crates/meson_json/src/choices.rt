//! Words that stand for one of a few things: which there are, and which one is meant by another word.

use crate::remarks::Remarks;
use std::alloc::{AllocError, Global};
use strsim::levenshtein;

/// The most bytes of a word that is compared with others.
const MOST_BYTES: usize = 100;

/// The words of which one is expected.
#[derive(Clone, Copy)]
pub struct Choice {
    /// What has the words.
    pub of: &'static str,
    /// What they are, in the plural.
    pub what: &'static str,
    pub words: &'static [&'static str],
}

impl Choice {
    /// Whether it has a word.
    pub fn has(self, word: &str) -> bool {
        self.words.iter().any(|known| *known == word)
    }

    /// The first of its words, which are in lower case, that are nearest to a word, up to a third of its length away. The case of ASCII letters does not count.
    fn nearest(self, alloc: Global, word: &str) -> Result<Option<&'static str>, AllocError> {
        if word.len() > MOST_BYTES {
            return Ok(None);
        }
        let lowered = word.to_ascii_lowercase(alloc)?;
        let mut nearest = None;
        let mut least = word.len() / 3 + 1;
        for known in self.words {
            let edits = levenshtein(alloc, lowered.as_str(), known)?;
            if edits < least {
                least = edits;
                nearest = Some(*known);
            }
        }
        Ok(nearest)
    }

    /// Says that it has no such word, which one is meant, and which there are. If it is not known which one is meant, it is the nearest, if one is near.
    pub fn refuse(
        self,
        alloc: Global,
        remarks: &mut Remarks,
        word: &str,
        meant: Option<&'static str>,
    ) -> Result<(), AllocError> {
        let Choice { of, what, .. } = self;
        remarks.note(format!(in alloc; "{word} is not among the {what} of {of}")?)?;
        let meant = match meant {
            Some(meant) => Some(meant),
            None => self.nearest(alloc, word)?,
        };
        if let Some(meant) = meant {
            remarks.help(format!(in alloc; "write {meant} for {word}")?)?;
        }
        self.list(alloc, remarks)
    }

    /// Says which words it has.
    pub fn list(self, alloc: Global, remarks: &mut Remarks) -> Result<(), AllocError> {
        let Choice { of, what, words } = self;
        let words = words.join(alloc, ", ")?;
        remarks.help(format!(in alloc; "{what} of {of}: {words}")?)
    }
}
