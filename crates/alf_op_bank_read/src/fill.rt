// Storing the filters of an accepted bank file.
ghost use Rattle.std.specs.Prelude.{◌≡◌, ◌+◌, ◌≤◌, ◌<◌, pos, length, get_or, drop};
ghost use Rattle.alf_lists.specs.Overwrite.{overwrite};
ghost use Rattle.alf_bank.specs.Filters.{shape_of, count_of, start_of};
ghost use Rattle.alf_bank.specs.Reading.{tag_of, id_of, signed_byte, coeff_at, clip_at, field_numbers, fields, filters_fault, filled};
ghost use Rattle.alf_op_bank_read.specs.Fields.{Reaches, Storable};

use crate::START;
use crate::fields::{clip_word, id_of};
use crate::reader::BankReader;
use alf_bank::filters::{count_of, shape_of, start_of};

// A byte in two's complement.
#[tactic(auto, unfolding(alf_bank::specs::Reading::signed_byte))]
fn signed_byte(b: u8) -> i16
    ensures { result ≡ signed_byte b }
{
    i16::from(b.cast_signed())
}

// Coefficient j of a filter's field.
#[tactic(auto, unfolding(alf_bank::specs::Reading::coeff_at))]
fn coeff_number(field: &[u8], j: usize) -> i16
    requires { Reaches field.now × (j < (shape_of (tag_of field.now)).coeffs) }
    ensures { result ≡ coeff_at field.now j }
{
    let k = shape_of(field[0]).leads + j;
    signed_byte(field[3 + k])
}

// Clip j of a filter's field, as a number of a bank in memory.
fn clip_number(field: &[u8], j: usize) -> i16
    requires { Storable field.now × (j < (shape_of (tag_of field.now)).clips) }
    ensures { result ≡ pos (clip_at field.now j) }
{
    clip_word(field, j) as i16
}

// Number j of a filter's field: the coefficients come first, then the clips.
fn number_at(field: &[u8], j: usize) -> i16
    requires { Storable field.now × (j < count_of (shape_of (tag_of field.now))) }
    ensures { result ≡ get_or (field_numbers field.now) j (pos 0) }
{
    let coeffs = shape_of(field[0]).coeffs;
    if j < coeffs {
        coeff_number(field, j)
    } else {
        clip_number(field, j - coeffs)
    }
}

// Stores the numbers of a filter's field in a bank, from place `start` on.
fn fill_field(field: &[u8], bank: &mut [i16], start: usize)
    requires { Storable field.now × (start + count_of (shape_of (tag_of field.now)) ≤ length bank.old) }
    ensures { bank.new ≡ overwrite start (field_numbers field.now) bank.old }
{
    for j in 0..count_of(field[0]) {
        bank[start + j] = number_at(field, j);
    }
}

// Stores the filter whose field stands at a position of a file.
fn store_at(file: &[u8], at: usize, bank: &mut [i16])
    requires { (at ≤ length file.now) × Storable (drop at file.now)
        × (start_of (id_of (drop at file.now)) + count_of (shape_of (tag_of (drop at file.now))) ≤ length bank.old) }
    ensures { bank.new ≡ overwrite (start_of (id_of (drop at file.now)))
        (field_numbers (drop at file.now)) bank.old }
{
    let field = &file[at..];
    fill_field(field, bank, start_of(id_of(field)));
}

// Stores the filters of all fields after tag 1 of an accepted file.
pub fn fill_bank(file: &[u8], limit: usize, bank: &mut [i16])
    requires { (4 ≤ length file.now) × (limit ≤ 4096) × (length bank.old ≡ 6016)
        × (filters_fault limit 0 (fields (drop 4 file.now) 0) ≡ 0) }
    ensures { bank.new ≡ filled bank.old (fields (drop 4 file.now) 0) }
{
    let mut reader = BankReader { file, here: START };
    // stays a `while`: a step is as long as its field says, so that no index is counted and no number of turns is known before
    while let Ok(Some(next)) = reader.step(limit) {
        store_at(reader.file, reader.here.at, bank);
        reader.here = next;
    }
}
