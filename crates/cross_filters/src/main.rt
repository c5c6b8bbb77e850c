// Names the cross-component filters of a bank file that H.266 can't send (02, card 6): a line for each filter with a coefficient of
// another magnitude, in file order, with its APS id, its component and its number among the component's filters. The file comes on standard
// input; one that is no bank file is answered with `refused` and the number.
#![tactic(auto)]

ghost use Rattle.std.specs.Prelude.{◌≡◌, ◌≤◌, ◌<◌, ◌↔◌, length, take, IfOk, IsTrue};
ghost use Rattle.std.specs.Io.KnownBytes.{Consumes, IsAtEnd};

use alf::{fault_number, next_offender, read_bank};
use alf_cross_coeffs::CrossFilter;
use alf_spec::Fault;
use std::io;
use std::io::Read;
use std::process::ExitCode;

// A line of three numbers.
fn print_filter(rt: &impl Print, filter: CrossFilter) -> io::Result<()> {
    let aps = filter.aps;
    let component = filter.component;
    let number = filter.filter;
    println!(rt; "{aps} {component} {number}")
}

// A line for each filter that the search finds, one after the other.
fn print_offenders(rt: &impl Print, bank: &[i16]) -> io::Result<()> {
    let mut at = 0;
    while let Some(offender) = next_offender(bank, at) {
        print_filter(rt, offender.filter)?;
        at = offender.next;
    }
    Ok(())
}

fn print_refused(rt: &impl Print, fault: Fault) -> io::Result<()> {
    let number = fault_number(fault);
    println!(rt; "refused {number}")
}

// The filters of a bank file, or the number for which it is none.
fn print_answer(rt: &impl Print, file: &[u8]) -> io::Result<()> {
    let mut bank = [0i16; 6016];
    match read_bank(file, &mut bank) {
        Ok(_) => print_offenders(rt, &bank),
        Err(fault) => print_refused(rt, fault),
    }
}

// Whether the input is at its end, where a read gave so many bytes and had room for more. A read that failed gave none, but an error, and
// what it left out is not taken for the end of the file.
fn ended(read: usize) -> bool
    ensures { IsTrue result ↔ (read ≡ 0) }
{
    read == 0
}

// Reads until the room is full or the input is at its end, and says how many bytes there are: the input's own, and where the room is not
// full, all of them.
fn read_full<R: Read>(input: &mut R, room: &mut [u8]) -> io::Result<usize>
    ensures within { IfOk result (λ n. n ≤ length room.new) }
    ensures bytes { IfOk result (λ n. Consumes (R.remaining input.old) (R.remaining input.new) (take n room.new)) }
    ensures all { IfOk result (λ n. n < length room.new → IsAtEnd (R.remaining input.new)) }
{
    // stays a `while`: a read adds as many bytes as it has, not one, and the end of the input is no error here
    let mut n = 0;
    while n < room.len() {
        let read = input.read(&mut room[n..])?;
        if ended(read) {
            return Ok(n);
        }
        n += read;
    }
    Ok(n)
}

// The first 76,046 bytes decide: the longest bank file has 10,508, and the longest field that can begin behind them 65,538. What comes
// after them can't change the answer (crates/bank_claims).
fn main(rt: HostRuntime) -> io::Result<ExitCode> {
    let mut input = [0u8; 76046];
    match read_full(&mut rt.reader(), &mut input) {
        Ok(n) => {
            print_answer(&rt, &input[..n])?;
            Ok(ExitCode::SUCCESS)
        }
        Err(_) => {
            eprintln!(rt; "cross_filters: standard input can't be read")?;
            Ok(ExitCode::FAILURE)
        }
    }
}
