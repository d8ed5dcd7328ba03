//! What the laws of both ends say, together.

ghost use Rattle.pg_pair.specs.Private.Known.{Known};

use pg_wire::{BackMessage, FrontMessage};

// It does nothing: its contract is the laws.
pub fn known()
    ensures { Known }
{
    pg_wire::laws::one_spelling::<FrontMessage>();
    pg_wire::laws::one_spelling::<BackMessage>();
    pg_wire::laws::one_packet();
    pg_wire::laws::one_outcome();
    pg_wire::laws::faulty_begins_none::<FrontMessage>();
    pg_wire::laws::faulty_begins_no_packet();
    pg_client::laws::facts_of_a_run();
    pg_client::laws::turns_of_a_run();
    pg_client::laws::spelled_in_a_run();
    pg_client::laws::answers_of_a_run();
    pg_client::laws::story_of_a_run();
    pg_backend::laws::segments_fit_log();
    pg_backend::laws::one_copy_each();
    pg_backend::laws::welcome_is_segment();
    pg_backend::laws::turns_logged();
    pg_backend::laws::turns_loaded();
    pg_backend::laws::turns_go_on();
    pg_backend::laws::turns_left();
}
