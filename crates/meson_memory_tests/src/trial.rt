//! A call that is made again and again, with another failing allocation each time.

use crate::refusing::{Refusal, refuse, was_refused};
use crate::rows::{Row, rows};
use std::alloc::Global;
use std::fmt::Debug;

/// More allocations than any call here makes.
const MOST: u32 = 100_000;

/// Why a call was refused.
pub trait Fault: Debug + Drop {
    /// Whether memory ran out.
    fn is_want(&self) -> bool;
}

/// A call, and its input.
pub trait Call {
    /// All of it that the call can change is shown.
    type Given: Debug + Drop;

    type Value: Debug + Drop;

    type Fault: Fault;

    /// What the call is given, made again from a row.
    fn given(alloc: Global, row: Row<'_>) -> Option<Self::Given>;

    fn make(alloc: Global, given: &mut Self::Given) -> Result<Self::Value, Self::Fault>;
}

/// The debug form of a value.
fn shown<T: Debug>(alloc: Global, value: &T) -> Option<String> {
    format!(in alloc; "{value:?}").ok()
}

/// The result of a call.
#[derive(Debug, Drop)]
struct Trial {
    refusal: Refusal,
    /// What the call was given, before and after it.
    before: String,
    after: String,
    answer: String,
    /// The call said that memory ran out.
    is_want: bool,
    was_refused: bool,
}

/// A call that was wrong, next to the same call with ample memory; none if that could not be made.
#[derive(Debug, Drop)]
pub struct Wrong {
    row: u32,
    ample: Option<Trial>,
    trial: Option<Trial>,
}

/// Makes a call in which this allocation fails.
fn tried<C: Call>(alloc: Global, row: Row<'_>, refusal: Refusal) -> Option<Trial> {
    let mut given = C::given(alloc, row)?;
    let before = shown(alloc, &given)?;
    refuse(alloc, refusal);
    let answer = C::make(alloc, &mut given);
    let was_refused = was_refused(alloc);
    let is_want = match &answer {
        Ok(_) => false,
        Err(fault) => fault.is_want(),
    };
    Some(Trial {
        refusal,
        before,
        after: shown(alloc, &given)?,
        answer: shown(alloc, &answer)?,
        is_want,
        was_refused,
    })
}

/// Whether a call was right. Either its result was that with ample memory. Or it said that memory ran out, when an allocation failed, and left all as it was.
fn is_right(trial: &Trial, ample: &Trial) -> bool {
    if trial.is_want {
        trial.was_refused && trial.after.as_str() == trial.before.as_str()
    } else {
        trial.answer.as_str() == ample.answer.as_str()
            && trial.after.as_str() == ample.after.as_str()
    }
}

/// Makes the call of a row with each allocation failing, alone and with all after it, until no allocation fails. Gives the first call that is wrong.
fn wrong_of_row<C: Call>(alloc: Global, row: Row<'_>, ample: &Trial) -> Option<Trial> {
    for number in 2..MOST {
        let refusal = Refusal {
            first: number / 2,
            is_lasting: number % 2 == 1,
        };
        let trial = tried::<C>(alloc, row, refusal)?;
        if !is_right(&trial, ample) || number == MOST - 1 {
            return Some(trial);
        }
        if !trial.was_refused {
            return None;
        }
    }
    None
}

/// Makes the call of each row with each allocation failing in turn.
///
/// # Errors
/// The first call that was wrong.
pub fn each_growth_refused<C: Call>(alloc: Global) -> Result<(), Wrong> {
    let mut row = 0u32;
    let Some(rows) = rows(alloc) else {
        return Err(Wrong {
            row,
            ample: None,
            trial: None,
        });
    };
    for each in rows {
        row = row.saturating_add(1);
        let ample = tried::<C>(alloc, each, Refusal::NONE);
        match &ample {
            Some(whole) if !whole.is_want => {
                if let Some(trial) = wrong_of_row::<C>(alloc, each, whole) {
                    return Err(Wrong {
                        row,
                        ample,
                        trial: Some(trial),
                    });
                }
            }
            _ => return Err(Wrong {
                row,
                ample,
                trial: None,
            }),
        }
    }
    Ok(())
}

/// Whether the call of a row is done with fewer allocations than this number.
pub fn grows_less<C: Call>(alloc: Global, row: Row<'_>, growths: u32) -> bool {
    let refusal = Refusal {
        first: growths,
        is_lasting: true,
    };
    match tried::<C>(alloc, row, refusal) {
        Some(trial) => !trial.was_refused && !trial.is_want,
        None => false,
    }
}
