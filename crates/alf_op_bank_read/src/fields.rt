// What a field of a bank file says: a field is given by the bytes from its tag to the end of the file.
// It stays a slice, and `Reaches` a clause: is_whole and is_listed, which say whether it reaches, are asked of the same bytes before.
ghost use Rattle.std.specs.Prelude.{◌≡◌, ◌+◌, ◌*◌, ◌≤◌, ◌<◌, length};
ghost use Rattle.alf_bank.specs.Filters.{shape_of, order_of, id_valid};
ghost use Rattle.alf_bank.specs.Reading.{length_of, whole, listed, id_of, tag_of, clip_at, clips_valid, zero_field};
ghost use Rattle.alf_op_bank_read.specs.Fields.{Reaches};

use alf_bank::FilterId;
use alf_bank::filters::{shape_of, size_of};

// A word of two bytes, most significant first.
fn word(high: u8, low: u8) -> usize
    ensures { (result ≡ 256 * high + low) × (result < 65536) }
{
    usize::from(u16::from_be_bytes([high, low]))
}

// The length that a field states.
#[tactic(auto, unfolding(alf_bank::specs::Reading::length_of))]
pub fn length_of(field: &[u8]) -> usize
    requires { 3 ≤ length field.now }
    ensures { (result ≡ length_of field.now) × (result < 65536) }
{
    word(field[1], field[2])
}

// Whether a field is whole: tag and length are there, and as many bytes as the length says.
#[tactic(auto, unfolding(alf_bank::specs::Reading::whole))]
pub fn is_whole(field: &[u8]) -> bool
    ensures { result ≡ whole field.now }
{
    3 <= field.len() && 3 + length_of(field) <= field.len()
}

// Whether the tag and the length of a field are listed: 1 for tag 1, and the size of a filter for the tags of filters.
#[tactic(auto, unfolding(alf_bank::specs::Reading::listed))]
pub fn is_listed(field: &[u8]) -> bool
    requires { 3 ≤ length field.now }
    ensures { result ≡ listed field.now }
{
    let tag = field[0];
    let length = length_of(field);
    match tag {
        1 => length == 1,
        2..=4 => length == size_of(tag),
        _ => false,
    }
}

// The filter that a filter's field names, by its tag and its leading numbers.
#[tactic(auto, unfolding(alf_bank::specs::Reading::id_of))]
pub fn id_of(field: &[u8]) -> FilterId
    requires { 6 ≤ length field.now }
    ensures { result ≡ id_of field.now }
{
    let tag = field[0];
    let (component, filter) = match tag {
        2 | 3 => (0, field[4]),
        _ => (field[4], field[5]),
    };
    FilterId {
        tag,
        aps: field[3],
        component,
        filter,
    }
}

// Whether the numbers that name a filter are listed for its tag.
#[tactic(auto, unfolding(alf_bank::specs::Filters::id_valid))]
pub fn id_valid(id: FilterId) -> bool
    ensures { result ≡ id_valid id }
{
    let listed = match id.tag {
        2 => id.filter < 25,
        3 => id.filter < 8,
        _ => (id.component < 2) & (id.filter < 4),
    };
    (id.aps < 8) & listed
}

// A filter's place in file order.
#[tactic(auto, unfolding(alf_bank::specs::Filters::order_of))]
pub fn order_of(id: FilterId) -> usize
    ensures { (result ≡ order_of id) × (result < 8192) }
{
    let aps = usize::from(id.aps);
    let filter = usize::from(id.filter);
    match id.tag {
        2 => 25 * aps + filter,
        3 => 200 + (8 * aps + filter),
        _ => 264 + (8 * aps + (4 * usize::from(id.component) + filter)),
    }
}

// Clip j of a filter's field.
#[tactic(auto, unfolding(alf_bank::specs::Reading::clip_at))]
pub fn clip_word(field: &[u8], j: usize) -> usize
    requires { Reaches field.now × (j < (shape_of (tag_of field.now)).clips) }
    ensures { result ≡ clip_at field.now j }
{
    let shape = shape_of(field[0]);
    let k = shape.leads + shape.coeffs + 2 * j;
    word(field[3 + k], field[3 + (k + 1)])
}

// Whether each clip of a filter's field is at most the limit.
pub fn clips_valid(field: &[u8], limit: usize) -> bool
    requires { Reaches field.now }
    ensures { result ≡ clips_valid limit field.now }
{
    let clips = shape_of(field[0]).clips;
    (0..clips).all(|j| clip_word(field, j) <= limit)
}

// Whether the coefficients and clips of a filter's field are all zero.
pub fn zero_field(field: &[u8]) -> bool
    requires { Reaches field.now }
    ensures { result ≡ zero_field field.now }
{
    let tag = field[0];
    let start = 3 + shape_of(tag).leads;
    let end = 3 + size_of(tag);
    field[start..end].iter().all(|byte| *byte == 0)
}
