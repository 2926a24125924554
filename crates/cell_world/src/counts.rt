//! How many nodes a cell has, and which clients wait.

ghost use Rattle.std.specs.Prelude.{◌≡◌, ◌<◌, length};
ghost use Rattle.cell_world.specs.Looks.{has_open_call, server_count, waits};
ghost use Rattle.cell_world.specs.Steps.{IsUpAt};

use crate::cell::CellState;
use crate::clients::client_place;
use crate::master::CellMaster;
use client::client::Client;
use gfs_types::ids::ClientId;

impl<M: CellMaster> CellState<M> {
    /// How many servers there are. They are numbered up to 65,535.
    pub fn server_count(&self) -> u16
        ensures { result ≡ server_count self.now }
    {
        self.servers.len().min(65_535) as u16
    }

    /// How many clients there are.
    pub fn client_count(&self) -> u64
        ensures { result ≡ length self.now.clients }
    {
        self.clients.len() as u64
    }

    /// Whether a client's call waits for its answer. False: no call of it is open, it takes no step any more, or there is no such
    /// client.
    pub fn has_open_call(&self, client: ClientId) -> bool
        ensures { result ≡ has_open_call self.now client.0 }
    {
        let Some(place) = client_place(&self.clients, client) else {
            return false;
        };
        is_client_waiting(&self.clients, place)
    }
}

fn is_client_waiting(clients: &Vec<Client>, place: usize) -> bool
    requires { place < length clients.now.items }
    ensures { IsUpAt waits clients.now.items place result }
{
    clients[place].may_step() && !clients[place].may_call()
}
