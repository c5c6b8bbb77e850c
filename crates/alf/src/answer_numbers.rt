// The numbers of paper 01's table: of each fault, and of the answer of each operation. 0 is an accepted input.
ghost use Rattle.std.specs.Prelude.{◌≡◌};
ghost use Rattle.alf_spec.specs.Answers.{fault_number, number_of};

use alf_spec::Fault;

// The number of a fault, 1 to 18: a table and no cast, since the papers number the faults and not the order of the cases.
pub fn fault_number(fault: Fault) -> u8
    ensures { result ≡ fault_number fault }
{
    match fault {
        Fault::PictureSize => 1,
        Fault::CtbSize => 2,
        Fault::BitDepth => 3,
        Fault::ChromaFormat => 4,
        Fault::Length => 5,
        Fault::VirtualBoundary => 6,
        Fault::Tile => 7,
        Fault::Slice => 8,
        Fault::Subpicture => 9,
        Fault::Parameter => 10,
        Fault::Filter => 11,
        Fault::Sample => 12,
        Fault::Address => 13,
        Fault::Region => 14,
        Fault::Position => 15,
        Fault::FieldCutShort => 16,
        Fault::FieldUnlisted => 17,
        Fault::FieldOutOfPlace => 18,
    }
}

// The number of what an operation answers: 0 where it accepts.
pub fn number<T>(answer: &Result<T, Fault>) -> u8
    ensures { result ≡ number_of answer.now }
{
    match answer {
        Ok(_) => 0,
        Err(fault) => fault_number(*fault),
    }
}
