// A test as a step of a judge, which leaves with the fault of the first that fails.
ghost use Rattle.std.specs.Prelude.{◌≡◌, true, false, MatchResult};

use alf_spec::Fault;

// Nothing to say where the test passed, and else its fault.
pub fn require(valid: bool, fault: Fault) -> Result<(), Fault>
    ensures { MatchResult result (λ passed. valid ≡ true) (λ told. (valid ≡ false) × (told ≡ fault)) }
{
    if valid { Ok(()) } else { Err(fault) }
}
