// Judging a bank file, field by field.
ghost use Rattle.std.specs.Prelude.{◌≡◌, true, false, ◌+◌, ◌≤◌, ◌<◌, ◌^◌, length, get_or, IfOk};
ghost use Rattle.alf_spec.specs.Answers.{number_of};
ghost use Rattle.alf_bank.specs.Reading.{is_depth, in_place, field_fault};
ghost use Rattle.alf_op_bank_read.specs.Fields.{Reaches};

use crate::fields::{clips_valid, id_of, id_valid, is_listed, is_whole, order_of, zero_field};
use alf_spec::Fault;
use alf_validate_layout::picture::depth_valid;
use alf_validate_layout::require::require;

// Whether the tag of a field is 1, which is that of the bit depth.
#[tactic(auto, unfolding(alf_bank::specs::Reading::is_depth))]
fn is_depth(field: &[u8]) -> bool
    requires { 3 ≤ length field.now }
    ensures { result ≡ is_depth field.now }
{
    field[0] == 1
}

// The bit depth that a first field says, or its lowest fault. The field is not empty. No clip is judged before the bit depth is known.
#[tactic(auto, unfolding(alf_bank::specs::Reading::field_fault, alf_bank::specs::Reading::proper, alf_bank::specs::Reading::in_place, alf_spec::specs::Faults::unless), using(crate::proofs::FieldTests::reaches))]
pub fn first_depth(field: &[u8]) -> Result<u8, Fault>
    ensures fault { number_of result ≡ field_fault true 0 0 field.now }
    ensures depth { IfOk result (λ d. (d ≡ get_or field.now 3 0) × (d ≤ 12) × (4 ≤ length field.now)) }
{
    require(is_whole(field), Fault::FieldCutShort)?;
    require(is_listed(field), Fault::FieldUnlisted)?;
    if is_depth(field) {
        let depth = field[3];
        require(depth_valid(depth), Fault::BitDepth)?;
        return Ok(depth);
    }
    require(id_valid(id_of(field)), Fault::FieldUnlisted)?;
    Err(Fault::FieldOutOfPlace)
}

// Whether a filter's field is in place: from place `from` of file order on, and not all zero.
#[tactic(auto, unfolding(alf_bank::specs::Reading::in_place), using(crate::proofs::FieldTests::has_leads))]
fn in_place(field: &[u8], from: usize) -> bool
    requires { Reaches field.now × (is_depth field.now ≡ false) }
    ensures { result ≡ in_place false from field.now }
{
    (from <= order_of(id_of(field))) & !zero_field(field)
}

// The lowest fault of a field after the first. Clips go up to the limit; filters come from place `from` of file order on.
#[tactic(auto, unfolding(alf_bank::specs::Reading::field_fault, alf_bank::specs::Reading::proper, alf_bank::specs::Reading::in_place, alf_spec::specs::Faults::unless), using(crate::proofs::FieldTests::reaches))]
pub fn filter_fault(field: &[u8], limit: usize, from: usize) -> Result<(), Fault>
    ensures { number_of result ≡ field_fault false limit from field.now }
{
    require(is_whole(field), Fault::FieldCutShort)?;
    require(is_listed(field), Fault::FieldUnlisted)?;
    if is_depth(field) {
        require(depth_valid(field[3]), Fault::BitDepth)?;
        return Err(Fault::FieldOutOfPlace);
    }
    require(clips_valid(field, limit), Fault::Filter)?;
    require(id_valid(id_of(field)), Fault::FieldUnlisted)?;
    require(in_place(field, from), Fault::FieldOutOfPlace)
}

// The largest clip that a bit depth allows.
pub fn clip_limit(depth: u8) -> usize
    requires { depth ≤ 12 }
    ensures { result ≡ 2 ^ depth }
{
    1usize << depth
}
