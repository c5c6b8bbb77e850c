// Reading a bank file (02, card 2): it is judged whole, field by field, before a number is stored.
#![tactic(auto)]

mod fields;
mod fill;
mod judge;
mod reader;

ghost use Rattle.std.specs.Prelude.{◌≡◌, ◌≤◌, length, drop, IfOk};
ghost use Rattle.std.proofs.Math.Option.{some, none};
ghost use Rattle.alf_spec.specs.Answers.{number_of, answer_of, kept};
ghost use Rattle.alf_bank.specs.Reading.{filters_fault, fields, read_fault, read_depth, read_bank};

use alf_spec::Fault;
use fill::fill_bank;
use judge::{clip_limit, first_depth};
use reader::BankReader;

// A position in a file that is being read, and the first place in file order that may come next.
#[derive(Clone, Copy)]
pub struct Step {
    pub at: usize,
    pub from: usize,
}

// Behind tag 1, with no filter read.
const START: Step = Step { at: 4, from: 0 };

// The lowest fault of the first faulty field after tag 1. Clips go up to the limit.
fn filters_fault(file: &[u8], limit: usize) -> Result<(), Fault>
    requires { 4 ≤ length file.now }
    ensures { number_of result ≡ filters_fault limit 0 (fields (drop 4 file.now) 0) }
{
    let mut reader = BankReader { file, here: START };
    // stays a `while`: a step is as long as its field says, so that no index is counted and no number of turns is known before
    while let Some(next) = reader.step(limit)? {
        reader.here = next;
    }
    Ok(())
}

// The bit depth of a file that is to be stored in a bank of some length, or the file's fault.
#[tactic(auto, unfolding(alf_bank::specs::Reading::read_depth))]
fn judge_file(file: &[u8], bank_length: usize) -> Result<u8, Fault>
    ensures fault { number_of result ≡ read_fault file.now bank_length }
    ensures depth { IfOk result (λ d. (d ≡ read_depth file.now) × (d ≤ 12)) }
{
    if bank_length != 6016 {
        return Err(Fault::Length);
    }
    if file.is_empty() {
        return Err(Fault::FieldOutOfPlace);
    }
    let depth = first_depth(file)?;
    filters_fault(file, clip_limit(depth))?;
    Ok(depth)
}

// Stores the filters of a file in a bank and returns the bit depth, or rejects the file for the lowest fault of its first faulty field. A
// file that is rejected leaves the bank as it was; one that is accepted is stored whole.
pub fn read_bank(file: &[u8], bank: &mut [i16]) -> Result<u8, Fault>
    ensures { let fault = read_fault file.now (length bank.old) in
        (number_of result ≡ fault)
        × (answer_of result ≡ kept fault (some (read_depth file.now)) none)
        × (bank.new ≡ kept fault (read_bank file.now) bank.old) }
{
    let depth = judge_file(file, bank.len())?;
    bank.fill(0);
    fill_bank(file, clip_limit(depth), bank);
    Ok(depth)
}
