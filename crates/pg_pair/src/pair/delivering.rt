//! Deliveries.

ghost use Rattle.std.specs.Prelude.{◌≡◌, ◌≤◌, ◌<◌, ◌+◌, ◌++◌, [], None, false, length, take};
ghost use Rattle.std.specs.Vec.{vec_capacity, vec_len};
ghost use Rattle.pg_client.specs.View.{groups_waiting, with_groups};
ghost use Rattle.pg_pair.specs.Breaking.{is_closed, is_shut};
ghost use Rattle.pg_pair.specs.Delivering.{ArrivesAt, DeliversUnless};
ghost use Rattle.pg_pair.specs.Delivering.{client_answer, delivery_applied};
ghost use Rattle.pg_pair.specs.View.{waiting_at};
ghost use Rattle.pg_pair.specs.Carrying.{longest_piece};
ghost use Rattle.pg_pair.specs.Private.Delivering.{MovesPiece, PairCarries};
ghost use Rattle.pg_pair.specs.declared.carry.Way.TheVariants.{ToBackend, ToClient};

use crate::carry::{Carry, Way};
use crate::event::Applied;
use crate::known::known;
use crate::pair::Pair;
use crate::pair::carrying::{Carried, PIECE, carry_piece};
use pg_client::{Client, FeedFault, Settled};

// What became of a piece: how many of its bytes reached the end, what the end returned for them, and whether the carrier failed or gave other bytes.
#[derive(Drop)]
struct Moved {
    given: usize,
    bad: bool,
    answer: Option<Applied>,
}

// What comes of bytes that the client took.
fn client_answer(fed: Result<(), FeedFault>) -> Option<Applied>
    ensures { result ≡ client_answer fed }
{
    match fed {
        Ok(()) => None,
        Err(fault) => Some(Applied::Client(fault)),
    }
}

// Takes what the client has settled, one group at most.
fn take_group(client: &mut Client, settled: &mut Vec<Settled>)
    requires one { length (groups_waiting client.old) ≤ 1 }
    requires room { vec_len settled.old + length (groups_waiting client.old)
        ≤ vec_capacity settled.old }
    ensures client { client.new ≡ with_groups client.old [] }
    ensures settled { settled.new.items ≡ settled.old.items ++ groups_waiting client.old }
    ensures capacity { vec_capacity settled.new ≡ vec_capacity settled.old }
{
    if let Some(group) = client.take_settled() {
        settled.push_reserved(group);
    }
}

// What comes of a delivery that has moved so many bytes.
fn delivery_applied(answer: Option<Applied>, bad: bool, moved: usize) -> Applied
    ensures { result ≡ delivery_applied answer bad moved }
{
    match answer {
        Some(applied) => applied,
        None if bad => Applied::Carrier,
        None if moved == 0 => Applied::Nothing,
        None => Applied::Done,
    }
}

impl<C: Carry> Pair<C> {
    // The bytes that are under way.
    fn waiting(&self, way: Way) -> &[u8]
        ensures { result.now ≡ waiting_at way self.now }
    {
        match way {
            Way::ToBackend => self.to_backend.waiting(),
            Way::ToClient => self.to_client.waiting(),
        }
    }

    // Feeds the first bytes under way to the client. What it puts out, where it is asked for its password, waits on the other way.
    fn feed(&mut self, count: usize) -> Option<Applied>
        requires some { 0 < count }
        requires within { count ≤ length (waiting_at ToClient self.old) }
        requires going { is_closed ToClient self.old ≡ false }
        ensures takes { ArrivesAt ToClient
            self.old (take count (waiting_at ToClient self.old)) result self.new }
        ensures going { result ≡ None → is_closed ToClient self.new ≡ false }
    {
        known();
        let piece = &self.to_client.waiting()[..count];
        let result = self.client.feed(piece, &mut self.to_backend.sent);
        self.to_client.reached += count;
        take_group(&mut self.client, &mut self.settled);
        client_answer(result)
    }

    // Pushes the first bytes under way to the backend.
    fn push(&mut self, count: usize) -> Option<Applied>
        requires some { 0 < count }
        requires within { count ≤ length (waiting_at ToBackend self.old) }
        requires going { is_closed ToBackend self.old ≡ false }
        ensures takes { ArrivesAt ToBackend
            self.old (take count (waiting_at ToBackend self.old)) result self.new }
        ensures going { result ≡ None → is_closed ToBackend self.new ≡ false }
    {
        let piece = &self.to_backend.waiting()[..count];
        if let Err(fault) = self.backend.push(piece) {
            return Some(Applied::Backend(fault));
        }
        self.to_backend.reached += count;
        None
    }

    // Hands the first bytes under way to the receiving end. Where there are none, it isn't called.
    fn hand_over(&mut self, way: Way, count: usize) -> Option<Applied>
        requires within { count ≤ length (waiting_at way self.old) }
        requires going { is_closed way self.old ≡ false }
        ensures takes { ArrivesAt way
            self.old (take count (waiting_at way self.old)) result self.new }
        ensures going { result ≡ None → is_closed way self.new ≡ false }
    {
        if count == 0 {
            return None;
        }
        match way {
            Way::ToBackend => self.push(count),
            Way::ToClient => self.feed(count),
        }
    }

    // The carrier carries the first bytes under way.
    fn carry(&mut self, way: Way, count: usize) -> Carried
        requires some { 0 < count }
        requires room { count ≤ longest_piece }
        requires within { count ≤ length (waiting_at way self.old) }
        ensures { PairCarries C.carries way
            self.old (take count (waiting_at way self.old)) result self.new }
    {
        match way {
            Way::ToBackend => {
                let piece = &self.to_backend.waiting()[..count];
                carry_piece(&mut self.carrier, way, piece)
            }
            Way::ToClient => {
                let piece = &self.to_client.waiting()[..count];
                carry_piece(&mut self.carrier, way, piece)
            }
        }
    }

    // A piece of the bytes under way goes to the receiving end, as far as the carrier brings it.
    fn move_piece(&mut self, way: Way, count: usize) -> Moved
        requires some { 0 < count }
        requires room { count ≤ longest_piece }
        requires within { count ≤ length (waiting_at way self.old) }
        requires going { is_closed way self.old ≡ false }
        ensures { MovesPiece C.carries way
            self.old (take count (waiting_at way self.old)) result self.new }
    {
        let carried = self.carry(way, count);
        let answer = self.hand_over(way, carried.given);
        self.break_off_if(carried.bad, way);
        Moved {
            given: carried.given,
            bad: carried.bad,
            answer,
        }
    }

    // At most so many of the bytes under way go to the receiving end.
    pub(crate) fn deliver(&mut self, way: Way, most: u32) -> Applied
        ensures { DeliversUnless (is_shut way self.old) C.carries way most
            self.old result self.new }
    {
        if self.is_shut(way) {
            return Applied::Nothing;
        }
        let most = most as usize;
        let mut moved = 0;
        loop {
            let count = self.waiting(way).len().min(most - moved).min(PIECE);
            if count == 0 {
                return delivery_applied(None, false, moved);
            }
            let went = self.move_piece(way, count);
            moved += went.given;
            if went.bad || went.answer.is_some() || went.given < count {
                return delivery_applied(went.answer, went.bad, moved);
            }
        }
    }
}
