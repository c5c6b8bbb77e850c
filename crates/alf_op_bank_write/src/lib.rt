// Writing a bank file (02, card 2).
#![tactic(auto)]

mod fields;

ghost use Rattle.std.specs.Prelude.{◌≡◌, ◌&&◌, [], ◌∷◌, ℕ, ◌+◌, ◌≤◌, ◌<◌, eqb, leb, length};
ghost use Rattle.std.proofs.Math.Option.{some, none};
ghost use Rattle.alf_spec.specs.Answers.{number_of, answer_of, kept};
ghost use Rattle.alf_lists.specs.Overwrite.{overwrite};
ghost use Rattle.alf_bank.specs.Filters.{filter_at};
ghost use Rattle.alf_bank.specs.Writing.{filter_fields, bank_file, write_fault};
ghost use Rattle.alf_op_bank_write.specs.FieldBytes.{Writable};

use alf_spec::Fault;
use alf_validate_layout::picture::depth_valid;
use alf_validate_layout::require::require;
use alf_validate_tables::filters::bank_valid;
use fields::write_filter;

// Writes the fields of all filters after the depth's field, and gives the position after them.
fn write_filters(bank: &[i16], file: &mut [u8]) -> usize
    requires { ((k : ℕ) → k < 328 → Writable bank.now (filter_at k)) × (10508 ≤ length file.old) }
    ensures { (result ≡ 4 + length (filter_fields 328 0 bank.now))
        × (file.new ≡ overwrite 4 (filter_fields 328 0 bank.now) file.old) }
{
    let mut at = 4;
    for k in 0..328 {
        at = write_filter(bank, k, file, at);
    }
    at
}

// Writes the depth's field.
#[tactic(auto, unfolding(alf_lists::specs::Overwrite::overwrite))]
fn write_depth(depth: u8, file: &mut [u8])
    requires { 4 ≤ length file.old }
    ensures { file.new ≡ overwrite 0 (1 ∷ 0 ∷ 1 ∷ depth ∷ []) file.old }
{
    file[..4].copy_from_slice(&[1, 0, 1, depth]);
}

// Whether the bank is of its length and the buffer long enough.
fn lengths_fit(bank_length: usize, room: usize) -> bool
    ensures { result ≡ (eqb bank_length 6016 && leb 10508 room) }
{
    (bank_length == 6016) & (10508 <= room)
}

// What is wrong with a bank at a depth, for a buffer of so many bytes.
#[tactic(auto, unfolding(alf_bank::specs::Writing::write_fault, alf_spec::specs::Faults::unless))]
fn judge_bank(bit_depth: u8, bank: &[i16], room: usize) -> Result<(), Fault>
    ensures { number_of result ≡ write_fault bit_depth bank.now room }
{
    require(depth_valid(bit_depth), Fault::BitDepth)?;
    require(lengths_fit(bank.len(), room), Fault::Length)?;
    require(bank_valid(bit_depth, bank), Fault::Filter)
}

// The lowest fault, or the length of the file. What lies beyond that length stays, and so does all where the bank is refused.
pub fn write_bank(bit_depth: u8, bank: &[i16], file: &mut [u8]) -> Result<u32, Fault>
    ensures { let made = bank_file bit_depth bank.now in
        let fault = write_fault bit_depth bank.now (length file.old) in
        (number_of result ≡ fault)
        × (answer_of result ≡ kept fault (some (length made)) none)
        × (file.new ≡ kept fault (overwrite 0 made file.old) file.old) }
{
    judge_bank(bit_depth, bank, file.len())?;
    write_depth(bit_depth, file);
    let length = write_filters(bank, file);
    Ok(length as u32)
}
