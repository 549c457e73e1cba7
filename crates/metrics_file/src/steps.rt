ghost use Rattle.std.specs.Prelude.{◌≡◌};
ghost use Rattle.font_metrics.specs.Faults.{fault_if, both};

use font_metrics::LineFault;

/// The fault, where a test says so.
pub fn fault_if(test: bool, fault: LineFault) -> Result<(), LineFault>
    ensures { result ≡ fault_if test fault }
{
    if test { Err(fault) } else { Ok(()) }
}

/// Both values, or the first fault.
pub fn both<A: Copy, B: Copy>(
    first: Result<A, LineFault>,
    second: Result<B, LineFault>,
) -> Result<(A, B), LineFault>
    ensures { result ≡ both first second }
{
    match (first, second) {
        (Ok(first), Ok(second)) => Ok((first, second)),
        (Err(fault), _) => Err(fault),
        (_, Err(fault)) => Err(fault),
    }
}
