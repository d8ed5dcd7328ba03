//! Why showing stops.

ghost use Rattle.std.specs.Prelude.{◌≡◌};
ghost use Rattle.pgpipe_show.specs.Private.Stopping.{end_stop, fault_stop};

use crate::show::Shown;
use pg_wire::WireFault;
use pgpipe_base::Stop;

/// Why the work stops where a decoder, or a reader of frames, returns a fault.
pub fn fault_stop(fault: WireFault) -> Stop<Shown>
    ensures { result ≡ fault_stop fault }
{
    match fault {
        WireFault::Memory => Stop::Memory,
        _ => Stop::Answer(Shown::Fault(fault)),
    }
}

/// Why the work stops where the source has ended, and so many bytes are left.
pub fn end_stop(left: usize) -> Stop<Shown>
    ensures { result ≡ end_stop left }
{
    match left {
        0 => Stop::Answer(Shown::Whole),
        _ => Stop::Answer(Shown::Rest(left)),
    }
}
