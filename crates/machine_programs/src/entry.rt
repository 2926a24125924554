//! One place in a chunk's order.

use gfs_types::mutation::Mutation;
use std::marker::Model;

/// Whose mutation stands at a place of a chunk's order, in which round it was placed, and whether it is settled: stored by
/// each replica of that round (sections 2.7.1 and 3.1 of the Google File System paper). Calls count from 1 for each client.
#[derive(Drop)]
pub struct Entry {
    client: u64,
    call_number: u64,
    round: u64,
    mutation: Mutation,
    settled: bool,
}

impl Model for Entry {
    ghost use Rattle.relaxed_file.specs.Order as machine;

    ghost Value = { machine.Entry };

    ghost view = { λ e. record { call = record { client = e.client; number = e.call_number }; round = e.round; mutation = e.mutation; settled = e.settled } };
}

ghost use Rattle.std.specs.Prelude.{◌≡◌, ◌↔◌, IsTrue};

impl Entry {
    pub fn new(
        client: u64,
        call_number: u64,
        round: u64,
        mutation: Mutation,
        settled: bool,
    ) -> Entry
        ensures { result ≡ record { call = record { client = client; number = call_number }; round = round; mutation = mutation; settled = settled } }
    {
        Entry {
            client,
            call_number,
            round,
            mutation,
            settled,
        }
    }

    pub fn round(&self) -> u64
        ensures { result ≡ self.now.round }
    {
        self.round
    }

    pub fn mutation(&self) -> &Mutation
        ensures { result.now ≡ self.now.mutation }
    {
        &self.mutation
    }

    /// Whether the other is an equal entry.
    pub fn equals(&self, other: &Entry) -> bool
        ensures { IsTrue result ↔ self.now ≡ other.now }
    {
        self.client == other.client
            && self.call_number == other.call_number
            && self.round == other.round
            && self.mutation == other.mutation
            && self.settled == other.settled
    }

    pub fn is_settled(&self) -> bool
        ensures { result ≡ self.now.settled }
    {
        self.settled
    }
}
