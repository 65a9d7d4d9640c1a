//! What a random block gives: its places, and the elements of message, pad seed and places.
ghost use Rattle.std.specs.Prelude.{◌≡◌, not, ◌+◌, ◌*◌, ◌≤◌, length, take, drop};
ghost use Rattle.bits.specs.Numbers.{bytes16};
ghost use Rattle.scheme.specs.Lists.{has};
ghost use Rattle.scheme.specs.Padding.{padded};
ghost use Rattle.scheme.specs.Sealing.{fits, triple_elements};
ghost use Rattle.sealing.specs.Steps.{Drawn};

use crate::places::choose;
use crate::rooms::SealRooms;
use bits::{put_numbers, unpack};
use padding::pad;
use sets::ParameterSet;

// The message, padded with the pad seed and the places string, whose room is wiped.
fn pad_places(parameters: ParameterSet, msg: &[u8], seed: &[u8], places: &[u16], out: &mut [u8])
    requires message_length { length msg.now ≡ parameters.set.k1 }
    requires seed_length { length seed.now ≡ parameters.set.k3 }
    requires few_places { 2 * length places.now ≤ 1024 }
    requires padded_length { length out.old ≡ parameters.set.k1 + parameters.set.k2 + parameters.set.k3 }
    ensures { out.new ≡ padded parameters.set msg.now seed.now (bytes16 places.now) }
{
    let mut room = [0u8; 1024];
    let (string, _) = room.split_at_mut(2 * places.len());
    put_numbers(places, string);
    pad(parameters, msg, seed, string, out);
    room.fill(0);
}

// Whether no value is zero.
fn all_set(values: &[u16]) -> bool
    ensures { result ≡ not (has values.now 0) }
{
    !values.contains(&0)
}

// The elements of message, pad seed and places; the answer is whether no error value is zero. There is room for the padded string.
// The places are only read, but lent as `&mut`: of a struct's part that was lent as `&`, nothing is known afterwards.
fn draw(
    parameters: ParameterSet,
    msg: &[u8],
    seed: &[u8],
    string: &mut [u8],
    places: &mut [u16],
    elements: &mut [u16],
) -> bool
    requires few_places { 2 * parameters.set.t ≤ 1024 }
    requires places_inside { parameters.set.t ≤ length places.old }
    requires message_length { length msg.now ≡ parameters.set.k1 }
    requires seed_length { length seed.now ≡ parameters.set.k3 }
    requires string_length { length string.old ≡ parameters.set.k1 + parameters.set.k2 + parameters.set.k3 }
    requires elements_length { length elements.old ≡ parameters.set.k + parameters.set.t }
    ensures same_places { places.new ≡ places.old }
    ensures drawn { elements.new ≡ triple_elements parameters.set msg.now seed.now (take parameters.set.t places.old) }
    ensures all_set { result ≡ not (has (drop parameters.set.k elements.new) 0) }
{
    let set = parameters.set;
    pad_places(parameters, msg, seed, &places[..set.t], string);
    unpack(string, set.m, elements);
    all_set(&elements[set.k..])
}

/// Places and elements of a random block; the answer is whether the block fits, which it does if no error value is zero. There is room for the
/// padded string.
pub fn try_block(msg: &[u8], block: &[u8], padded: &mut [u8], rooms: &mut SealRooms) -> bool
    requires few_places { 2 * rooms.old.parameters.set.t ≤ 1024 }
    requires message_length { length msg.now ≡ rooms.old.parameters.set.k1 }
    requires block_length { length block.now ≡ rooms.old.parameters.set.block }
    requires padded_length { length padded.old ≡ rooms.old.parameters.set.k1 + rooms.old.parameters.set.k2 + rooms.old.parameters.set.k3 }
    ensures same_set { rooms.new.parameters ≡ rooms.old.parameters }
    ensures fits { result ≡ fits rooms.old.parameters.set msg.now block.now }
    ensures drawn { Drawn rooms.old.parameters.set msg.now block.now rooms.new.places.now rooms.new.elements.now }
{
    let parameters = rooms.parameters;
    let (seed, numbers) = block.split_at(parameters.set.k3);
    choose(numbers, rooms.word, rooms.row, rooms.places);
    draw(parameters, msg, seed, padded, rooms.places, rooms.elements)
}
