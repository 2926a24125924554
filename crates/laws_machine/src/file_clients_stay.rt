//! Laws of what else the whole machine does beside a client.

ghost use Rattle.laws_machine.specs.FileClientsStay.{FileClientsStay, OtherClientsStay};

/// What the machine does of names and chunks, and for other clients, leaves a client as it was, and what it is told, but for a refusal as too long.
pub fn file_clients_stay()
    ensures { FileClientsStay }
{}

/// So do the actions by which it follows another client.
pub fn other_clients_stay()
    ensures { OtherClientsStay }
{}
