//! Words such that each file that matters has one of them.

ghost use Rattle.std.specs.Prelude.{◌≡◌, IfOk, false};
ghost use Rattle.meson_calls.specs.Spelling.{HasNoneOf, setter_words, sought_words};

use crate::call::Role;
use memchr::memmem::Finder;
use std::alloc::{AllocError, Global};

/// Words to search for in the bytes of files.
#[derive(Drop)]
pub(crate) struct Words<'w> {
    words: Vec<Finder<'w>>,
}

impl<'w> Words<'w> {
    /// Words such that each file in which the id names a call has one of them.
    ///
    /// # Errors
    /// Out of memory.
    pub(crate) fn of_id(alloc: Global, role: Role, id: &'w str) -> Result<Words<'w>, AllocError>
        ensures { IfOk result (λ w. w.words.items ≡ sought_words role id.now) }
    {
        let mut words = Vec::new(alloc);
        match role {
            Role::Project => words.push(Finder::new(b"project".as_slice()))?,
            _ => {
                words.push(Finder::new(id.as_bytes()))?;
                words.push(Finder::new(b"\\".as_slice()))?;
            }
        }
        Ok(Words { words })
    }

    /// Words such that each file in which a call sets a variable, or may set any, has one of them.
    ///
    /// # Errors
    /// Out of memory.
    pub(crate) fn of_setters(alloc: Global) -> Result<Words<'w>, AllocError>
        ensures { IfOk result (λ w. w.words.items ≡ setter_words) }
    {
        let mut words = Vec::new(alloc);
        words.push(Finder::new(b"subdir".as_slice()))?;
        words.push(Finder::new(b"set_variable".as_slice()))?;
        Ok(Words { words })
    }

    /// Whether one of them may occur in the bytes.
    pub(crate) fn may_stand_in(&self, bytes: &[u8]) -> bool
        ensures { result ≡ false → HasNoneOf self.now.words.items bytes.now }
    {
        for i in 0..self.words.len() {
            if self.words[i].find(bytes).is_some() {
                return true;
            }
        }
        false
    }
}
