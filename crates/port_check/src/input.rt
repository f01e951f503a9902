// Reading loads: one to a line, three numbers parted by commas.
ghost use Rattle.std.specs.Prelude.{◌≡◌, [], ◌∷◌, length, Ok, decimal, MatchOption, MatchResult};
ghost use Rattle.definitions.specs.declared.refusals.Refusal.TheVariants.{FieldUnreadable};
ghost use Rattle.definitions.specs.Text.{lines, fields};
ghost use Rattle.port_check.specs.declared.input.ReadError.TheVariants.{Faulty};
ghost use Rattle.port_check.specs.Input.{Unwritten, Reading, AllRead, IsFirstFault, IsOutOfMemory};

use crate::faults::Fault;
use definitions::loads::Load;
use definitions::refusals::Refusal;
use scan::{Fields, Lines};
use std::alloc::{AllocError, AllocFailed, Global};

// Why a text gave no loads.
#[derive(Clone, Copy, Debug, PartialEq, Eq)]
pub enum ReadError {
    Faulty(Fault),
    OutOfMemory(AllocError),
}

impl From<Fault> for ReadError {
    ghost from_gives = { λ fault e. e ≡ Faulty fault };

    fn from(fault: Fault) -> ReadError {
        ReadError::Faulty(fault)
    }
}

impl From<AllocFailed<Load>> for ReadError {
    ghost from_gives = { λ _ e. IsOutOfMemory e };

    fn from(e: AllocFailed<Load>) -> ReadError {
        ReadError::OutOfMemory(e.into())
    }
}

// The loads of all lines, or the first line that is none.
pub fn read_loads(heap: Global, text: &[u8]) -> Result<Vec<Load>, ReadError>
    ensures { MatchResult result (λ rows. AllRead 1 (lines text.now) (Ok rows.items))
        (λ e. IsFirstFault (lines text.now) e) }
{
    let mut rows = Vec::new(heap);
    for (line, row) in (1..).zip(Lines::of(text)) {
        let load = read_load(line, row).map_err(|refusal| Fault { line, refusal })?;
        rows.push(load)?;
    }
    Ok(rows)
}

// One line's load.
#[tactic(auto, using(crate::proofs::Lines::three_numbers))]
fn read_load(line: usize, row: &[u8]) -> Result<Load, Refusal>
    ensures { Reading line (fields row.now) result }
{
    let (first, second, third) = three_fields(row).ok_or(Refusal::FieldCountWrong { line })?;
    let occupancy = number(line, 1, first)?;
    let gap = number(line, 2, second)?;
    let jitter = number(line, 3, third)?;
    Load::new(occupancy, gap, jitter)
}

// The fields of a line that has exactly three.
fn three_fields(row: &[u8]) -> Option<(&[u8], &[u8], &[u8])>
    ensures { MatchOption result (¬ (length (fields row.now) ≡ 3))
        (λ t. fields row.now ≡ t.0.now ∷ t.1.now ∷ t.2.now ∷ []) }
{
    let mut fields = Fields::of(row);
    let three = (fields.next()?, fields.next()?, fields.next()?);
    fields.next().is_none().then_some(three)
}

// A field's number.
#[tactic(auto, using(crate::proofs::Lines::field_told))]
fn number(line: usize, field: usize, text: &[u8]) -> Result<u64, Refusal>
    ensures { MatchResult result (λ n. text.now ≡ decimal n)
        (λ e. (e ≡ FieldUnreadable line field) × Unwritten text.now) }
{
    scan::number(text, u64::MAX).ok_or(Refusal::FieldUnreadable { line, field })
}
