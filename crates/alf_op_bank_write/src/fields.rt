// The fields of a bank file, byte by byte.
ghost use Rattle.std.specs.Prelude.{◌≡◌, true, ◌+◌, ◌≤◌, ◌<◌, ◌/◌, ◌%◌, nat_abs, length, get_or, if◌then◌else◌};
ghost use Rattle.alf_spec.specs.Faults.{coeff_valid};
ghost use Rattle.alf_lists.specs.Overwrite.{overwrite};
ghost use Rattle.alf_bank.specs.Filters.{shape_of, size_of, count_of, start_of, filter_at};
ghost use Rattle.alf_bank.specs.Writing.{byte_of, filter_number, zero_at, all_zero, filter_field};
ghost use Rattle.alf_op_bank_write.specs.FieldBytes.{head_of, field_bytes, Writable};

use alf_bank::FilterId;
use alf_bank::filters::{count_of, shape_of, size_of, start_of};

// A filter of a bank whose numbers can be written.
#[derive(Clone, Copy)]
struct BankFilter<'a> {
    bank: &'a [i16],
    id: FilterId,
    ghost writable: { Writable bank.now id },
}

// The filter at a place of file order.
#[tactic(auto, unfolding(alf_bank::specs::Filters::filter_at))]
fn filter_at(k: usize) -> FilterId
    requires { k < 328 }
    ensures { result ≡ filter_at k }
{
    if k < 200 {
        FilterId {
            tag: 2,
            aps: (k / 25) as u8,
            component: 0,
            filter: (k % 25) as u8,
        }
    } else if k < 264 {
        FilterId {
            tag: 3,
            aps: ((k - 200) / 8) as u8,
            component: 0,
            filter: ((k - 200) % 8) as u8,
        }
    } else {
        FilterId {
            tag: 4,
            aps: ((k - 264) / 8) as u8,
            component: ((k - 264) % 8 / 4) as u8,
            filter: ((k - 264) % 4) as u8,
        }
    }
}

// A coefficient as a byte in two's complement.
fn coeff_byte(z: i16) -> u8
    requires { coeff_valid z ≡ true }
    ensures { result ≡ byte_of z }
{
    (z as i8).cast_unsigned()
}

// Number j of a filter.
fn number_of(filter: BankFilter, j: usize) -> i16
    requires { j < count_of (shape_of filter.id.tag) }
    ensures { result ≡ filter_number filter.entry.bank.now filter.entry.id j }
{
    filter.bank[start_of(filter.id) + j]
}

// Whether number j of a filter is zero.
fn zero_at(filter: BankFilter, j: usize) -> bool
    requires { j < count_of (shape_of filter.id.tag) }
    ensures { result ≡ zero_at filter.entry.bank.now filter.entry.id j }
{
    number_of(filter, j) == 0
}

// Whether the filter's numbers are all zero.
fn all_zero(filter: BankFilter) -> bool
    ensures { result ≡ all_zero filter.entry.bank.now filter.entry.id }
{
    (0..count_of(filter.id.tag)).all(|j| zero_at(filter, j))
}

// The second leading number.
#[tactic(auto, unfolding(crate::specs::FieldBytes::head_of, alf_bank::specs::Filters::leads_of))]
fn second_lead(id: FilterId) -> u8
    ensures { result ≡ get_or (head_of id) 4 0 }
{
    match id.tag {
        2 | 3 => id.filter,
        _ => id.component,
    }
}

// Byte k of the head of a filter's field: tag, length, leading numbers.
#[tactic(auto, unfolding(crate::specs::FieldBytes::head_of, alf_bank::specs::Filters::leads_of, alf_bank::specs::Filters::shape_of))]
fn head_byte(id: FilterId, k: usize) -> u8
    requires { k < 3 + (shape_of id.tag).leads }
    ensures { result ≡ get_or (head_of id) k 0 }
{
    match k {
        0 => id.tag,
        1 => 0,
        2 => size_of(id.tag) as u8,
        3 => id.aps,
        4 => second_lead(id),
        _ => id.filter,
    }
}

// The byte of coefficient j.
fn coeff_of(filter: BankFilter, j: usize) -> u8
    requires { j < (shape_of filter.id.tag).coeffs }
    ensures { result ≡ byte_of (filter_number filter.entry.bank.now filter.entry.id j) }
{
    coeff_byte(number_of(filter, j))
}

// Number j, a clip.
fn clip_of(filter: BankFilter, coeffs: usize, j: usize) -> u16
    requires { (coeffs ≡ (shape_of filter.id.tag).coeffs) × (j < (shape_of filter.id.tag).clips) }
    ensures { result ≡ nat_abs (filter_number filter.entry.bank.now filter.entry.id (coeffs + j)) }
{
    number_of(filter, coeffs + j).unsigned_abs()
}

// A byte of a clip: the first is the most significant.
fn clip_byte(clip: u16, first: bool) -> u8
    ensures { result ≡ (if first then clip / 256 else clip % 256) }
{
    let [high, low] = clip.to_be_bytes();
    if first { high } else { low }
}

// Byte k of a filter's field.
fn field_byte(filter: BankFilter, k: usize) -> u8
    requires { k < 3 + size_of (shape_of filter.id.tag) }
    ensures { result ≡ get_or (field_bytes filter.entry.bank.now filter.entry.id) k 0 }
{
    let shape = shape_of(filter.id.tag);
    if k < 3 + shape.leads {
        return head_byte(filter.id, k);
    }
    let j = k - (3 + shape.leads);
    if j < shape.coeffs {
        return coeff_of(filter, j);
    }
    let m = j - shape.coeffs;
    clip_byte(clip_of(filter, shape.coeffs, m / 2), m % 2 == 0)
}

// Writes a filter's field at a position.
fn write_field(filter: BankFilter, file: &mut [u8], at: usize)
    requires { at + (3 + size_of (shape_of filter.id.tag)) ≤ length file.old }
    ensures { file.new ≡ overwrite at (field_bytes filter.entry.bank.now filter.entry.id) file.old }
{
    for k in 0..3 + size_of(filter.id.tag) {
        file[at + k] = field_byte(filter, k);
    }
}

// Writes the field of the filter at place k, if it has one, and gives the position after it.
pub fn write_filter(bank: &[i16], k: usize, file: &mut [u8], at: usize) -> usize
    requires { (k < 328) × Writable bank.now (filter_at k) × (at + (3 + size_of (shape_of (filter_at k).tag)) ≤ length file.old) }
    ensures { (result ≡ at + length (filter_field bank.now (filter_at k)))
        × (file.new ≡ overwrite at (filter_field bank.now (filter_at k)) file.old) }
{
    let id = filter_at(k);
    let filter = BankFilter { bank, id };
    if all_zero(filter) {
        return at;
    }
    write_field(filter, file, at);
    at + (3 + size_of(id.tag))
}
