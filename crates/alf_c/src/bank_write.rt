// A bank at a depth as a file (02, card 2).
ghost use Rattle.std.specs.Prelude.{◌≡◌, length as bytes_in};
ghost use Rattle.alf_spec.specs.Answers.{kept};
ghost use Rattle.alf_lists.specs.Overwrite.{overwrite};
ghost use Rattle.alf_bank.specs.Writing.{bank_file, write_fault};

use alf::fault_number;

// The number of the lowest fault, and `file` and `length` stay as they were; or 0, and `file` begins with the bank's file, of which
// `length` is the length.
#[unsafe(no_mangle)]
pub extern "C" fn alf_bank_write(
    bit_depth: u8,
    bank: &[i16],
    file: &mut [u8],
    length: &mut u32,
) -> u8
    ensures { let made = bank_file bit_depth bank.now in
        let fault = write_fault bit_depth bank.now (bytes_in file.old) in
        (result ≡ fault)
        × (file.new ≡ kept fault (overwrite 0 made file.old) file.old)
        × (length.new ≡ kept fault (bytes_in made) length.old) }
{
    match alf::write_bank(bit_depth, bank, file) {
        Ok(bytes) => {
            *length = bytes;
            0
        }
        Err(fault) => fault_number(fault),
    }
}
