//! Laws over the definitions: each function does nothing, and its contract is the law.

ghost use Rattle.std.specs.Prelude.{◌≡◌, ℕ, None, Result};
ghost use Rattle.std.specs.List.{concat};
ghost use Rattle.pg_client.specs.declared.settled.Settled.{Settled};
ghost use Rattle.pg_client.specs.Client.{History, IsHistoryOf};
ghost use Rattle.pg_client.specs.Keeping.{collecting};
ghost use Rattle.pg_drive.specs.Carried.{IsDrivenOn, IsLeftDriven, pieces_fed};
ghost use Rattle.pg_drive.specs.Drive.{LinkedClient, Drives};
ghost use Rattle.pg_drive.specs.declared.answer.DriveFault.{DriveFault};
ghost use Rattle.pg_drive.specs.declared.answer.Driven.{Driven};

use pg_wire::{Sink, Source};

/// Each history of a client that was open goes on as it is driven: the pieces are fed one after the other, and no call is made and no
/// group taken. The client is left open, unless the connection is lost or it rejected a piece.
pub fn driving_goes_on<L: Source + Sink>()
    ensures history { (turns : ℕ) (old : LinkedClient L) (result : Result Driven DriveFault)
        (new : LinkedClient L) (h : History Settled) → IsHistoryOf collecting h old.client → old.client.closed ≡ None
        → (did : Drives L.gives L.takes L.has_ended L.Source.failures L.Sink.failures turns old
        result new)
        → IsDrivenOn h (concat (pieces_fed L.gives L.takes L.has_ended L.Source.failures
        L.Sink.failures turns old result new did)) new.client }
    ensures left { (turns : ℕ) (old : LinkedClient L) (result : Result Driven DriveFault)
        (new : LinkedClient L) (h : History Settled) → IsHistoryOf collecting h old.client → old.client.closed ≡ None
        → Drives L.gives L.takes L.has_ended L.Source.failures L.Sink.failures turns old result new
        → IsLeftDriven result new.client.closed }
{
    pg_client::laws::feeding_goes_on();
}
