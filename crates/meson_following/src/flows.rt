//! What is known of a variable after parts of a file.

ghost use Rattle.std.specs.Prelude.{◌≡◌, [], None, IfOk};
ghost use Rattle.meson_following.specs.CodeFlows.{chosen_view, flow_view};
ghost use Rattle.meson_following.specs.CodeMakers.{known_view};
ghost use Rattle.meson_following.specs.Flows.{around, both_flow, either_flow, entered, going_on, left_file, left_turn, looped, passed, with_block, with_condition};

use crate::makers::{Known, copy_known, join, touch};
use std::alloc::{AllocError, Global};

/// What is known after a part of a file, where a turn of the loop around it ends early, and where it leaves the file; and whether there is a place in it at
/// which the file is left.
#[derive(Drop)]
pub struct Flow<'t> {
    pub now: Known<'t>,
    pub turned: Known<'t>,
    pub ended: Known<'t>,
    pub leaves: bool,
}

/// What is known after the branches so far, and where none of their conditions holds.
#[derive(Drop)]
pub struct Chosen<'t> {
    pub taken: Flow<'t>,
    pub left: Known<'t>,
}

impl<'t> Flow<'t> {
    /// After nothing.
    pub fn going_on(now: Known<'t>) -> Flow<'t>
        ensures { flow_view result ≡ going_on (known_view now.entry) }
    {
        Flow {
            now,
            turned: None,
            ended: None,
            leaves: false,
        }
    }

    /// Where a turn ends early.
    pub fn left_turn(known: Known<'t>) -> Flow<'t>
        ensures { flow_view result ≡ left_turn (known_view known.entry) }
    {
        Flow {
            now: None,
            turned: known,
            ended: None,
            leaves: false,
        }
    }

    /// Where the file is left.
    pub fn left_file(known: Known<'t>) -> Flow<'t>
        ensures { flow_view result ≡ left_file (known_view known.entry) }
    {
        Flow {
            now: None,
            turned: None,
            ended: known,
            leaves: true,
        }
    }

    /// After an expression with calls that may set the variable or leave the file, if there are such.
    pub fn passed(
        alloc: Global,
        sets: bool,
        leaves: bool,
        known: Known<'t>,
    ) -> Result<Flow<'t>, AllocError>
        ensures { IfOk result (λ f. flow_view f ≡ passed sets leaves (known_view known.entry)) }
    {
        let now = if sets { touch(alloc, known)? } else { known };
        let ended = if leaves {
            copy_known(alloc, &now)?
        } else {
            None
        };
        Ok(Flow {
            now,
            turned: None,
            ended,
            leaves,
        })
    }

    /// After a part and the next one, which began with what is known after the first.
    pub fn then(alloc: Global, first: Flow<'t>, next: Flow<'t>) -> Result<Flow<'t>, AllocError>
        ensures { IfOk result (λ f. flow_view f ≡ both_flow (flow_view first.entry) (flow_view next.entry)) }
    {
        let turned = join(alloc, first.turned, next.turned)?;
        let ended = join(alloc, first.ended, next.ended)?;
        Ok(Flow {
            now: next.now,
            turned,
            ended,
            leaves: first.leaves || next.leaves,
        })
    }

    /// After one of two parts.
    pub fn either(alloc: Global, first: Flow<'t>, second: Flow<'t>) -> Result<Flow<'t>, AllocError>
        ensures { IfOk result (λ f. flow_view f ≡ either_flow (flow_view first.entry) (flow_view second.entry)) }
    {
        let now = join(alloc, first.now, second.now)?;
        let turned = join(alloc, first.turned, second.turned)?;
        let ended = join(alloc, first.ended, second.ended)?;
        Ok(Flow {
            now,
            turned,
            ended,
            leaves: first.leaves || second.leaves,
        })
    }

    /// What is known before a turn of a loop, by what is known before the loop and by this first turn.
    pub fn around(&self, alloc: Global, now: Known<'t>) -> Result<Known<'t>, AllocError>
        ensures { IfOk result (λ k. known_view k ≡ around (known_view now.entry) (flow_view self.entry.now)) }
    {
        let end = copy_known(alloc, &self.now)?;
        let turned = copy_known(alloc, &self.turned)?;
        let turn = join(alloc, end, turned)?;
        join(alloc, now, turn)
    }

    /// After the turns of a loop, of which one was walked through: what is known before each turn, and that turn.
    pub fn looped(alloc: Global, before: Known<'t>, once: Flow<'t>) -> Result<Flow<'t>, AllocError>
        ensures { IfOk result (λ f. flow_view f ≡ looped (known_view before.entry) (flow_view once.entry) []) }
    {
        let Flow {
            now: _,
            turned: _,
            ended,
            leaves,
        } = once;
        let ended = if leaves {
            let known = copy_known(alloc, &before)?;
            join(alloc, ended, known)?
        } else {
            None
        };
        Ok(Flow {
            now: before,
            turned: None,
            ended,
            leaves,
        })
    }

    /// After a call that enters a file: at its end, however that is reached, and before it if it is skipped.
    pub fn entered(
        alloc: Global,
        skipped: Known<'t>,
        file: Flow<'t>,
    ) -> Result<Flow<'t>, AllocError>
        ensures { IfOk result (λ f. flow_view f ≡ entered (known_view skipped.entry) (flow_view file.entry)) }
    {
        let end = join(alloc, file.now, file.ended)?;
        let now = join(alloc, skipped, end)?;
        Ok(Flow {
            now,
            turned: file.turned,
            ended: None,
            leaves: false,
        })
    }
}

impl<'t> Chosen<'t> {
    /// After a further condition.
    pub fn with_condition(
        alloc: Global,
        taken: Flow<'t>,
        condition: Flow<'t>,
    ) -> Result<Chosen<'t>, AllocError>
        ensures { IfOk result (λ c. chosen_view c ≡ with_condition (flow_view taken.entry) (flow_view condition.entry)) }
    {
        let turned = join(alloc, taken.turned, condition.turned)?;
        let ended = join(alloc, taken.ended, condition.ended)?;
        Ok(Chosen {
            taken: Flow {
                now: taken.now,
                turned,
                ended,
                leaves: taken.leaves || condition.leaves,
            },
            left: condition.now,
        })
    }

    /// After the block that a condition leads to.
    pub fn with_block(self, alloc: Global, block: Flow<'t>) -> Result<Chosen<'t>, AllocError>
        ensures { IfOk result (λ c. chosen_view c ≡ with_block (chosen_view self.entry) (flow_view block.entry)) }
    {
        let taken = Flow::either(alloc, self.taken, block)?;
        Ok(Chosen {
            taken,
            left: self.left,
        })
    }
}
