// What the example programs print beside single values, which they print with `print!`: planes, class maps and answers. Each function takes
// the runtime that it prints to first, and answers with the error of the first write that fails.
#![tactic(auto)]

use alf_spec::Fault;
use std::io::AsBytes;
use std::{fmt, io};

// What was asked, and the number of the answer. What was asked may be any bytes.
pub fn print_outcome<T: AsBytes + Drop>(rt: &impl Print, asked: T, number: u8) -> io::Result<()> {
    rt.write_all(asked.as_byte_slice())?;
    println!(rt; ": answer {number}")
}

// What was asked of the isolation test, the number of its answer, and what it says.
pub fn print_isolated<T: AsBytes + Drop>(
    rt: &impl Print,
    asked: T,
    number: u8,
    answer: Result<bool, Fault>,
) -> io::Result<()> {
    let says = match answer {
        Ok(true) => ", isolated",
        Ok(false) => ", not isolated",
        Err(_) => "",
    };
    rt.write_all(asked.as_byte_slice())?;
    println!(rt; ": answer {number}{says}")
}

// A sample as a plane shows it, four characters wide.
#[derive(Drop)]
struct Sample(u16);

impl fmt::Display for Sample {
    fn fmt<W: fmt::Write>(&self, f: &mut fmt::Formatter<W>) -> fmt::Result {
        let level = self.0;
        write!(f, " {level:>3}")
    }
}

// A class and its transpose as a map shows them, such as 20:2.
#[derive(Drop)]
struct ClassNumber(u8);

impl fmt::Display for ClassNumber {
    fn fmt<W: fmt::Write>(&self, f: &mut fmt::Formatter<W>) -> fmt::Result {
        let class = self.0 % 32;
        let transpose = self.0 / 32;
        write!(f, " {class:>2}:{transpose}")
    }
}

// The entries of a list as they are shown, so many a row. A row that is not whole has no end.
fn print_rows<T: Copy, D: fmt::Display + Drop, F: Fn(T) -> D>(
    rt: &impl Print,
    list: &[T],
    columns: usize,
    shown: F,
) -> io::Result<()>
    requires { F.IsAlwaysCallable shown }
{
    for (k, entry) in list.iter().enumerate() {
        rt.print(shown(*entry))?;
        if columns > 0 && k % columns == columns - 1 {
            println!(rt; "")?;
        }
    }
    Ok(())
}

// A plane, so many samples a row.
pub fn print_plane(rt: &impl Print, plane: &[u16], columns: usize) -> io::Result<()> {
    print_rows(rt, plane, columns, |sample| Sample(sample))
}

// A class map, so many blocks a row.
pub fn print_map(rt: &impl Print, map: &[u8], columns: usize) -> io::Result<()> {
    print_rows(rt, map, columns, |number| ClassNumber(number))
}
