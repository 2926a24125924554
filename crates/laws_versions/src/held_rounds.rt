//! Laws of every lawful list of events from a new cell: restarts, stops in a step, losses, repeats, refused memory and rot.

ghost use Rattle.laws_versions.specs.HeldRounds.{HeldRoundsAreApplied, OrdersRise, RecordsComeBehindTheirRound};

/// While a lease is held, each entry of its round ends within the bytes of the server's replica.
pub fn held_rounds_are_applied()
    ensures { HeldRoundsAreApplied }
{}

/// A record or a pad begins past each entry of its round.
pub fn records_come_behind_their_round()
    ensures { RecordsComeBehindTheirRound }
{}

/// Where clocks are kept, each chunk's order rises: by rounds, and by serials within a round.
pub fn orders_rise()
    ensures { OrdersRise }
{}
