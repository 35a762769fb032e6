// The hops of a bench: records in a list that the caller lends. Every access to a record goes through `read`, `message_at`, `state_at`,
// `set_state`, `append` and `clear`. Every function is total: a place past the list reads as zeros, and nothing is stored there.
#![tactic(auto)]

mod forwarding;

ghost use Rattle.std.specs.Prelude.{◌≡◌, ◌+◌, ◌*◌, ◌-◌, set};
ghost use Rattle.model.specs.Network.{hop_at, set_state, is_pair, no_hop as zeros};
ghost use Rattle.bench_store.specs.Values.{filled};
ghost use Rattle.hops.specs.Access.{next_of_pair};

pub use forwarding::{Outgoing, forward};

// What a place not yet used holds.
const NO_HOP: model::Hop = model::Hop {
    sender: 0,
    receiver: 0,
    sequence: 0,
    message: 0,
    state: 0,
};

// The record at a place.
#[tactic(auto, unfolding(model::specs::Network::hop_at, model::specs::Network::no_hop))]
pub fn read(hops: &[model::Hop], at: usize) -> model::Hop
    ensures { result ≡ hop_at hops.now at }
{
    hops.get(at).copied().unwrap_or(NO_HOP)
}

// The message of the record at a place, alone: read whole right after its state was stored, a record would have to wait for that store.
#[tactic(auto, unfolding(model::specs::Network::hop_at, model::specs::Network::no_hop))]
pub fn message_at(hops: &[model::Hop], at: usize) -> u16
    ensures { result ≡ (hop_at hops.now at).message }
{
    hops.get(at).map_or(0, |hop| hop.message)
}

// The state of the record at a place, alone.
#[tactic(auto, unfolding(model::specs::Network::hop_at, model::specs::Network::no_hop))]
pub fn state_at(hops: &[model::Hop], at: usize) -> u8
    ensures { result ≡ (hop_at hops.now at).state }
{
    hops.get(at).map_or(0, |hop| hop.state)
}

// The record at a place gets another state. std's `get_mut` says nothing of what a slice then holds: the place is tested here.
pub fn set_state(hops: &mut [model::Hop], at: usize, state: u8)
    ensures { hops.new ≡ set_state at state hops.old }
{
    if at < hops.len() {
        hops[at].state = state;
    }
}

// One hop more, at the place after those made; the place is tested as in `set_state`.
pub fn append(hops: &mut [model::Hop], at: usize, hop: model::Hop)
    ensures { hops.new ≡ set hops.old at hop }
{
    if at < hops.len() {
        hops[at] = hop;
    }
}

// The first `count` places get zeros.
pub fn clear(hops: &mut [model::Hop], count: usize)
    ensures { hops.new ≡ filled count zeros hops.old }
{
    let end = count.min(hops.len());
    hops[..end].fill(NO_HOP);
}

// The first place from `from` on, and before `end`, of a hop from a sender to a receiver; where there is none, `end`, or `from` if that is
// past it.
pub fn next_of_pair(hops: &[model::Hop], sender: u8, receiver: u8, from: usize, end: usize) -> usize
    ensures { result ≡ next_of_pair (end - from) sender receiver from hops.now }
{
    for at in from..end {
        let hop = read(hops, at);
        if is_pair(hop, sender, receiver) {
            return at;
        }
    }
    from.max(end)
}

// A pair as one number, which a search compares at one go.
fn pair_number(sender: u8, receiver: u8) -> u16
    ensures { result ≡ sender + 256 * receiver }
{
    u16::from(sender) + 256 * u16::from(receiver)
}

// Whether the hop goes from a sender to a receiver.
#[tactic(auto, using(std::proofs::lemmas::Bool::Decides::nat_tests), unfolding(model::specs::Network::is_pair))]
fn is_pair(hop: model::Hop, sender: u8, receiver: u8) -> bool
    ensures { result ≡ is_pair sender receiver hop }
{
    pair_number(hop.sender, hop.receiver) == pair_number(sender, receiver)
}
