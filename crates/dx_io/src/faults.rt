ghost use Rattle.std.specs.Prelude.{◌≡◌, if◌then◌else◌};
ghost use Rattle.dx_io.specs.Causes.{one_more};

/// The count of faults after a call. A count at its end stays there.
pub fn faults_after(faults: u64, failed: bool) -> u64
    ensures { result ≡ (if failed then one_more faults else faults) }
{
    if failed {
        faults.saturating_add(1)
    } else {
        faults
    }
}
