// A bank and its depth from a file (02, card 2).
ghost use Rattle.std.specs.Prelude.{◌≡◌, length};
ghost use Rattle.alf_spec.specs.Answers.{kept};
ghost use Rattle.alf_bank.specs.Reading.{read_fault, read_depth, read_bank};

use alf::fault_number;

// The number of the first faulty field's lowest fault, and `bank` and `bit_depth` stay as they were; or 0, and they are the file's.
#[unsafe(no_mangle)]
pub extern "C" fn alf_bank_read(file: &[u8], bank: &mut [i16], bit_depth: &mut u8) -> u8
    ensures { let fault = read_fault file.now (length bank.old) in
        (result ≡ fault)
        × (bank.new ≡ kept fault (read_bank file.now) bank.old)
        × (bit_depth.new ≡ kept fault (read_depth file.now) bit_depth.old) }
{
    match alf::read_bank(file, bank) {
        Ok(depth) => {
            *bit_depth = depth;
            0
        }
        Err(fault) => fault_number(fault),
    }
}
