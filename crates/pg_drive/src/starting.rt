//! What a session of either kind of client does at its start, and at a loss.

ghost use Rattle.std.specs.Prelude.{◌≡◌, IfErr, OnErr, OnOk};
ghost use Rattle.pg_client.specs.declared.call.Call.TheVariants as call;
ghost use Rattle.pg_client.specs.Client.{RefusesUnless, IsLost};
ghost use Rattle.pg_drive.specs.Session.{Begins, TellsFault};

use crate::answer::DriveFault;
use crate::event::SessionFault;
use pg_client::{CallFault, Connection, Keeper, Loss, Phase};

/// Puts the startup packet out, unless it was before.
pub(crate) fn begin<K: Keeper>(
    client: &mut Connection<K>,
    out: &mut Vec<u8>,
) -> Result<(), CallFault>
    ensures begins { OnOk result
        (Begins K.way client.old client.new out.old.items out.new.items) }
    ensures refused { IfErr result (RefusesUnless Phase.New client.old call.Start) }
    ensures err { OnErr result ((client.new ≡ client.old) × (out.new.items ≡ out.old.items)) }
{
    match client.phase() {
        Phase::Starting => Ok(()),
        _ => client.start(out),
    }
}

/// The fault of a session for this fault of driving.
pub(crate) fn tell_fault<K: Keeper>(client: &mut Connection<K>, fault: DriveFault) -> SessionFault
    ensures { TellsFault (IsLost K.way) client.old fault result client.new }
{
    match fault {
        DriveFault::Link(loss) => SessionFault::Lost(loss),
        DriveFault::Feed(fault) => {
            let loss = lose(client);
            SessionFault::Feed { fault, loss }
        }
    }
}

/// Calls `lost` on the client.
pub(crate) fn lose<K: Keeper>(client: &mut Connection<K>) -> Loss
    ensures { IsLost K.way client.old result client.new }
{
    client.lost()
}
