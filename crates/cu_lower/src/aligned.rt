//! Copies of the arrays that a node's operations read in chunks that they tell.

ghost use Rattle.std.specs.Prelude.{◌≡◌, ◌<◌, ◌≤◌, ◌+◌, ◌^◌, ◌++◌, ◌∷◌, [], true, IfOk, OnOk, length};
ghost use Rattle.cu_copy.specs.Copies.{is_misaligned};
ghost use Rattle.cu_lower_reduce.specs.Copies.{copy_steps, operand_steps, operand_place, aligned_steps, aligned_places, AreOperands, IsCopySetting, IsStaged};
ghost use Rattle.cu_lower_reduce.specs.Steps.{all_made};
ghost use Rattle.cu_lower.specs.Parts.{AreOptions, copying};

use crate::options::Options;
use arrayvec::ArrayVec;
use cu_copy::{Rechunk, max_mem};
use cu_lower_reduce::{CopySetting, Step, copy_step, copy_step_count};
use std::alloc::{AllocError, Global};

/// Where the copies of a node stand, the first of which makes array number `first`.
pub(crate) fn copying(options: &Options, first: u32) -> CopySetting
    requires options { AreOptions options.now }
    requires first { first < 2 ^ 31 }
    ensures setting { result ≡ copying options.now first }
    ensures kept { IsCopySetting result }
{
    CopySetting {
        first,
        reserved: options.reserved,
        most: max_mem(options.allowed, options.reserved),
    }
}

/// Adds the copies of array number `source`.
fn push_copies(
    steps: &mut Vec<Step>,
    s: &CopySetting,
    source: u32,
    rechunk: &Rechunk,
) -> Result<(), AllocError>
    requires setting { IsCopySetting s.now }
    requires rechunk { IsStaged s.now rechunk.now }
    ensures { OnOk result (steps.new.items ≡ steps.old.items ++ copy_steps s.now source rechunk.now) }
{
    for at in 0..copy_step_count(s, rechunk) {
        steps.push(copy_step(s, source, rechunk, at))?;
    }
    Ok(())
}

/// The copies of array number `source`.
pub(crate) fn copy_steps(
    alloc: Global,
    s: &CopySetting,
    source: u32,
    rechunk: &Rechunk,
) -> Result<Vec<Step>, AllocError>
    requires setting { IsCopySetting s.now }
    requires rechunk { IsStaged s.now rechunk.now }
    ensures { IfOk result (λ steps. steps.items ≡ copy_steps s.now source rechunk.now) }
{
    let mut steps = Vec::new(alloc);
    push_copies(&mut steps, s, source, rechunk)?;
    Ok(steps)
}

/// Copies of operands, the arrays that are then read in their place, and the number of the next array.
#[derive(Drop)]
pub(crate) struct Aligned {
    pub steps: Vec<Step>,
    pub places: ArrayVec<u32, 8>,
    pub next: u32,
}

impl Aligned {
    /// Adds an operand, the first copy of which would make array number `s.first`: its copies where it has other chunks than are wanted.
    fn add(&mut self, s: &CopySetting, source: u32, rechunk: &Rechunk) -> Result<(), AllocError>
        requires setting { IsCopySetting s.now }
        requires first { self.old.next ≡ s.now.first }
        requires rechunk { is_misaligned rechunk.now ≡ true → IsStaged s.now rechunk.now }
        requires few { length self.old.places.items < 8 }
        ensures steps { OnOk result (self.new.steps.items ≡ self.old.steps.items ++ operand_steps s.now source rechunk.now) }
        ensures places { OnOk result (self.new.places.items ≡ self.old.places.items ++ operand_place s.now source rechunk.now ∷ []) }
        ensures next { OnOk result (self.new.next ≡ s.now.first + length (all_made (operand_steps s.now source rechunk.now))) }
        ensures few { OnOk result (self.new.next ≤ s.now.first + 2) }
    {
        let mut read = source;
        if rechunk.is_misaligned() {
            push_copies(&mut self.steps, s, source, rechunk)?;
            self.next += copy_step_count(s, rechunk);
            read = self.next - 1;
        }
        self.places.push(read);
        Ok(())
    }
}

/// The arrays `sources` in the chunks that are wanted of them: the copies of those that have others, and the arrays to be read.
pub(crate) fn align(
    alloc: Global,
    s: &CopySetting,
    sources: &[u32],
    wanted: &[Rechunk],
) -> Result<Aligned, AllocError>
    requires setting { IsCopySetting s.now }
    requires room { s.now.first < 2 ^ 30 }
    requires operands { AreOperands s.now wanted.now }
    requires few { length wanted.now ≤ 3 }
    ensures steps { IfOk result (λ a. a.steps.items ≡ aligned_steps s.now sources.now wanted.now) }
    ensures places { IfOk result (λ a. a.places.items ≡ aligned_places s.now sources.now wanted.now) }
    ensures next { IfOk result (λ a. a.next ≡ s.now.first + length (all_made (aligned_steps s.now sources.now wanted.now))) }
    ensures few { IfOk result (λ a. a.next ≤ s.now.first + 6) }
{
    let mut aligned = Aligned {
        steps: Vec::new(alloc),
        places: ArrayVec::new(),
        next: s.first,
    };
    for j in 0..sources.len().min(wanted.len()) {
        let here = CopySetting {
            first: aligned.next,
            reserved: s.reserved,
            most: s.most,
        };
        aligned.add(&here, sources[j], &wanted[j])?;
    }
    Ok(aligned)
}
