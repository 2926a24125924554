//! The seats of a parked cell go over.

ghost use Rattle.std.specs.Prelude.{◌≡◌, ◌≤◌, ◌<◌, ◌+◌, ◌++◌, ◌∷◌, ℕ, [], None, Some, true, false, length, vec_capacity, slice_get, get_or, All, IfSome};
ghost use Rattle.gfs_types.specs.declared.ids.Node.TheVariants as client;
ghost use Rattle.protocol.specs.Client.{new_client as new_client_state};
ghost use Rattle.protocol_journal.specs.Journal.{own};
ghost use Rattle.cell_seats.specs.ParkedNodes.{IsClientOf, IsBehindAll};
ghost use Rattle.cell_seats.specs.Seats.{GoesOver, StaysOver, MovesOver};
ghost use Rattle.cell_seats.specs.Seen.{clients_in};
ghost use Rattle.running_nodes.specs.Seatings.{AllGoOver, IsSeatOf, IsReady};
ghost use Rattle.running_nodes.specs.Places.{IsPlaceOf, IsLeftOf};

use crate::client_places::ClientPlace;
use crate::parked_seat::ParkedSeat;
use crate::running_client::{RunningClient, Seat};
use cell_journal::identity::CellIdentity;
use cell_journal::meet;
use cell_seats::mailboxes::MailboxItem;
use cell_seats::parked_node::ParkedNode;
use cell_seats::slot::Slot;
use crossbeam_channel::Receiver;
use gfs_types::config::Config;
use gfs_types::ids::{ClientId, Node};
use std::alloc::Global;
use std::sync::Wait;
use std::thread;
use std::time::{Clock, Duration};

/// What seats go over to: the cell, how many clients were made before, the places of its clients by their numbers, from 1, and the clients of new
/// numbers, of which so many were taken.
#[derive(Drop)]
pub struct Seating {
    pub alloc: Global,
    pub cell: CellIdentity,
    /// How many entries the cell had before.
    pub base_len: u64,
    pub config: Config,
    pub retired: [bool; 64],
    pub made: u64,
    pub places: Vec<Option<ClientPlace>>,
    pub clients: Vec<Option<RunningClient>>,
    pub taken: u64,
}

/// All seats go over, in their order.
pub fn seat_all<R: Wait + Clock>(
    rt: &R,
    seating: &mut Seating,
    parked: Vec<ParkedSeat>,
    room: Vec<Seat>,
) -> Vec<Seat>
    requires ready { IsReady seating.old }
    requires seats { All (IsSeatOf seating.old.cell (length seating.old.cell.base)) parked.items }
    requires none { room.items ≡ [] }
    requires room { length parked.items ≤ vec_capacity room }
    ensures { AllGoOver seating.old.cell parked.items result.items }
{
    let mut seats = room;
    for seat in parked {
        seats.push_reserved(seat_one(rt, seating, seat));
    }
    seats
}

// A seat goes over: with its client, or, where an earlier parking left it behind, as one of a new number.
fn seat_one<R: Wait + Clock>(rt: &R, seating: &mut Seating, parked: ParkedSeat) -> Seat
    requires ready { IsReady seating.old }
    requires seat { IsSeatOf seating.old.cell (length seating.old.cell.base) parked }
    ensures ready { IsReady seating.new }
    ensures cell { seating.new.cell ≡ seating.old.cell }
    ensures over { GoesOver seating.old.cell parked.saw parked.seat result }
{
    let (seat, client) = parked.into_parts();
    match client {
        Some(client) => go_over(rt, seating, seat, client),
        None => start_anew(rt, seating, seat),
    }
}

// A seat goes over with its client: as the client that it is, or, where a call of it waits, as one of a new number.
fn go_over<R: Wait + Clock>(
    rt: &R,
    seating: &mut Seating,
    seat: Seat,
    client: ParkedNode<RunningClient>,
) -> Seat
    requires ready { IsReady seating.old }
    requires client { IsClientOf seat client }
    requires named { seat.cell.name ≡ seating.old.cell.name }
    requires count { length client.history.items ≡ length seating.old.cell.base }
    ensures ready { IsReady seating.new }
    ensures cell { seating.new.cell ≡ seating.old.cell }
    ensures over { GoesOver seating.old.cell (Some (length client.history.items)) seat result }
{
    client.meets(seating.cell.base());
    hold(rt, client.is_of(&seating.cell));
    let waits = seat.waits();
    if waits {
        move_on(rt, seating, seat, client)
    } else {
        stay(rt, seating, seat, client)
    }
}

// The seat keeps its client.
fn stay<R: Wait + Clock>(
    rt: &R,
    seating: &mut Seating,
    seat: Seat,
    client: ParkedNode<RunningClient>,
) -> Seat
    requires ready { IsReady seating.old }
    requires client { IsClientOf seat client }
    requires named { seat.cell.name ≡ seating.old.cell.name }
    requires calm { seat.waits ≡ false }
    requires behind { IsBehindAll seating.old.cell client }
    ensures ready { IsReady seating.new }
    ensures cell { seating.new.cell ≡ seating.old.cell }
    ensures over { StaysOver seating.old.cell seat result }
{
    let node = seat.name();
    let earlier = seat.earlier();
    hold(rt, are_within(&earlier, &seating.retired));
    let ClientPlace {
        journal,
        inbox,
        bit,
    } = place_of(rt, seating, node);
    seat.sit(
        client.into_slot(seating.alloc, journal),
        inbox,
        bit,
        earlier,
    )
}

// A call of the seat waits, so that it goes on as a client of a new number.
fn move_on<R: Wait + Clock>(
    rt: &R,
    seating: &mut Seating,
    seat: Seat,
    client: ParkedNode<RunningClient>,
) -> Seat
    requires ready { IsReady seating.old }
    requires client { IsClientOf seat client }
    requires named { seat.cell.name ≡ seating.old.cell.name }
    requires behind { IsBehindAll seating.old.cell client }
    ensures ready { IsReady seating.new }
    ensures cell { seating.new.cell ≡ seating.old.cell }
    ensures over { MovesOver seating.old.cell seat result }
{
    let _saw = client;
    let number = number_of(seat.name());
    let earlier = seat.earlier();
    hold(rt, is_after(&earlier, number));
    let gone = with_client(earlier, number);
    hold(rt, are_within(&gone, &seating.retired));
    let NewClient { slot, inbox, bit } = new_client(rt, seating);
    seat.sit(slot, inbox, bit, gone)
}

// An earlier parking left the seat behind, so that it goes on as a client of a new number.
fn start_anew<R: Wait + Clock>(rt: &R, seating: &mut Seating, seat: Seat) -> Seat
    requires ready { IsReady seating.old }
    requires named { seat.cell.name ≡ seating.old.cell.name }
    ensures ready { IsReady seating.new }
    ensures cell { seating.new.cell ≡ seating.old.cell }
    ensures over { GoesOver seating.old.cell None seat result }
{
    hold(rt, is_at_most(seat.seen(), seating.base_len));
    meet(seat.view(), seating.cell.base());
    let NewClient { slot, inbox, bit } = new_client(rt, seating);
    seat.sit(slot, inbox, bit, [false; 64])
}

/// A client of a new number.
#[derive(Drop)]
struct NewClient {
    slot: Slot<RunningClient>,
    inbox: Receiver<MailboxItem>,
    bit: u64,
}

// The next client of a new number. There is one for each seat that needs it.
fn new_client<R: Wait + Clock>(rt: &R, seating: &mut Seating) -> NewClient
    requires { IsReady seating.old }
    ensures ready { IsReady seating.new }
    ensures cell { seating.new.cell ≡ seating.old.cell }
    ensures slot { (result.slot.view.of ≡ seating.old.cell) × (result.slot.view.mine ≡ []) }
    ensures unused { own result.slot.node seating.old.cell.base ≡ [] }
{
    let before = seating.taken;
    let made = seating.made;
    hold(rt, are_fewer(made, before));
    let id = ClientId(made + before + 1);
    seating.taken = before + 1;
    let ClientPlace {
        journal,
        inbox,
        bit,
    } = place_of(rt, seating, Node::Client(id));
    NewClient {
        slot: Slot::new(seating.alloc, journal, client_at(rt, seating, before)),
        inbox,
        bit,
    }
}

// The client of a new number, which is there.
fn client_at<R: Wait + Clock>(rt: &R, seating: &mut Seating, before: u64) -> RunningClient
    requires { IsReady seating.old }
    ensures ready { IsReady seating.new }
    ensures same { (seating.new.cell ≡ seating.old.cell) × (seating.new.made ≡ seating.old.made) }
    ensures client { result.node.client ≡ new_client_state seating.old.cell.config (seating.old.made + before + 1) }
{
    let Some(client) = take_at(&mut seating.clients, before) else {
        hold(rt, false);
        unreachable!()
    };
    client
}

// The place of a client, which is there.
fn place_of<R: Wait + Clock>(rt: &R, seating: &mut Seating, node: Node) -> ClientPlace
    requires { IsReady seating.old }
    ensures ready { IsReady seating.new }
    ensures same { (seating.new.cell ≡ seating.old.cell) × (seating.new.made ≡ seating.old.made) }
    ensures node { result.journal.node ≡ node }
    ensures place { IsPlaceOf seating.old.cell result }
{
    let number = number_of(node);
    let Some(place) = take_at(&mut seating.places, number.saturating_sub(1)) else {
        hold(rt, false);
        unreachable!()
    };
    hold(rt, place.journal.node == node);
    place
}

// Takes out what is at a place, if something is.
#[tactic(auto, using(crate::proofs::Placing::left_of, crate::proofs::Placing::taken_some))]
fn take_at<T: Drop>(all: &mut Vec<Option<T>>, before: u64) -> Option<T>
    ensures taken { IfSome result (λ x. slice_get all.old.items before ≡ Some (Some x)) }
    ensures left { IsLeftOf all.old.items all.new.items }
{
    let place = before as usize;
    if place >= all.len() {
        return None;
    }
    all[place].take()
}

fn number_of(node: Node) -> u64
    ensures { 0 < result → node ≡ client.Client (record { 0 = result }) }
{
    match node {
        Node::Client(id) => id.0,
        _ => 0,
    }
}

// The flags with this client more, whose number is greater than those of all others.
#[tactic(auto, using(cell_seats::proofs::Flags::one_flag_more))]
fn with_client(flags: [bool; 64], number: u64) -> [bool; 64]
    requires number { (0 < number) × (number ≤ 64) }
    requires before { (k : ℕ) → number ≤ k + 1 → get_or flags k false ≡ false }
    ensures { clients_in 0 result ≡ clients_in 0 flags ++ client.Client (record { 0 = number }) ∷ [] }
{
    let mut flags = flags;
    flags[number as usize - 1] = true;
    flags
}

// Whether each of these flags stands among those.
#[tactic(auto, using(std::proofs::lemmas::List::get_or_past))]
fn are_within(flags: &[bool; 64], all: &[bool; 64]) -> bool
    ensures { result ≡ true → (k : ℕ) → get_or flags.now k false ≡ true → get_or all.now k false ≡ true }
{
    for place in 0..64usize {
        if flags[place] && !all[place] {
            return false;
        }
    }
    true
}

// Whether this is a client's number, and greater than those of these clients.
fn is_after(flags: &[bool; 64], number: u64) -> bool
    ensures some { result ≡ true → (0 < number) × (number ≤ 64) }
    ensures after { result ≡ true → (k : ℕ) → number ≤ k + 1 → get_or flags.now k false ≡ false }
{
    number > 0 && number <= 64 && are_before(flags, number)
}

// Whether the flags of the clients from this number on are down.
#[tactic(auto, using(std::proofs::lemmas::List::get_or_past))]
fn are_before(flags: &[bool; 64], number: u64) -> bool
    requires { 0 < number }
    ensures { result ≡ true → (k : ℕ) → number ≤ k + 1 → get_or flags.now k false ≡ false }
{
    for place in 0..64usize {
        if flags[place] && place as u64 + 1 >= number {
            return false;
        }
    }
    true
}

// Whether a number is left, of which there are 64, for one client more.
fn are_fewer(made: u64, taken: u64) -> bool
    requires { made ≤ 64 }
    ensures { result ≡ true → made + taken < 64 }
{
    taken < 64 && made + taken < 64
}

fn is_at_most(count: u64, most: u64) -> bool
    ensures { result ≡ true → count ≤ most }
{
    count <= most
}

/// Goes on where this is so, as it always is.
pub fn hold<R: Wait + Clock>(rt: &R, is_so: bool)
    ensures { is_so ≡ true }
{
    if is_so {
        return;
    }
    for _ in rt.forever() {
        thread::sleep(rt, Duration::from_secs(1));
    }
    unreachable!()
}
