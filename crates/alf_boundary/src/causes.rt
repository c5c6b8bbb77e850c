// The causes of paper 02's first card: which of them disable filtering across a side, and the number of each.
ghost use Rattle.std.specs.Prelude.{◌≡◌};
ghost use Rattle.alf_spec.specs.Answers.{cause_number};
ghost use Rattle.alf_spec.specs.Boundary.{disables};

use alf_spec::ClipCause;

// Whether filtering across a side with this cause is disabled.
pub fn disables(side: ClipCause) -> bool
    ensures { result ≡ disables side }
{
    side != ClipCause::Open
}

// The number of a cause, 0 to 5.
pub fn cause_number(cause: ClipCause) -> u8
    ensures { result ≡ cause_number cause }
{
    cause as u8
}
