// The reading state, which holds the lent file and a position in it, and what stands there.
ghost use Rattle.std.specs.Prelude.{◌≡◌};
ghost use Rattle.alf_op_bank_read.specs.Fields.{Seen};

use crate::Step;
use crate::fields::{id_of, length_of, order_of};
use crate::judge::filter_fault;
use alf_spec::Fault;

// A bank file that is being read, and a position in it.
#[derive(Clone, Copy)]
pub struct BankReader<'a> {
    pub file: &'a [u8],
    pub here: Step,
}

impl<'a> BankReader<'a> {
    // What stands at a position after tag 1: nothing where the file ends, else a filter's field, behind which the reading goes on, or its
    // lowest fault. Clips go up to the limit.
    pub fn step(self, limit: usize) -> Result<Option<Step>, Fault>
        ensures { Seen result self.entry.file.now self.entry.here.at limit self.entry.here.from }
    {
        let here = self.here;
        if self.file.len() <= here.at {
            return Ok(None);
        }
        let field = &self.file[here.at..];
        filter_fault(field, limit, here.from)?;
        Ok(Some(Step {
            at: here.at + (3 + length_of(field)),
            from: order_of(id_of(field)) + 1,
        }))
    }
}
