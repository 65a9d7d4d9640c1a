//! Sealing (RLCE-KEM specification of September 14, 2017, section 6.2): the ciphertext of a message of k1 bytes under a public key, by the
//! first random block that fits.
#![tactic(auto)]

ghost use Rattle.std.specs.Prelude.{◌≡◌, ◌+◌, ◌*◌, ◌≤◌, length};
ghost use Rattle.gf.specs.Field.{width};
ghost use Rattle.scheme.specs.Field.{field_of};
ghost use Rattle.sealing.specs.Seals.{Finds, Ready, Seals, sent_by};

use bits::pack;
use drawing::try_block;
use rooms::SealRooms;
use sets::ParameterSet;
use word::{add_values, encode};

mod drawing;
mod places;
mod rooms;
mod word;

// The first block that fits, with its places and elements in their rooms; its number. There is room for the padded string.
fn find(random: &[u8], msg: &[u8], padded: &mut [u8], rooms: &mut SealRooms) -> Option<usize>
    requires few_places { 2 * rooms.old.parameters.set.t ≤ 1024 }
    requires message_length { length msg.now ≡ rooms.old.parameters.set.k1 }
    requires padded_length { length padded.old ≡ rooms.old.parameters.set.k1 + rooms.old.parameters.set.k2 + rooms.old.parameters.set.k3 }
    ensures same_set { rooms.new.parameters ≡ rooms.old.parameters }
    ensures finds { Finds rooms.old.parameters.set random.now msg.now result rooms.new.places.now rooms.new.elements.now }
{
    let block = rooms.parameters.set.block;
    let blocks = random.len() / block;
    for b in 0..blocks {
        if try_block(msg, &random[block * b..block * b + block], padded, rooms) {
            return Some(b);
        }
    }
    None
}

// The ciphertext of what was found: the elements' vector, with the values at the places.
fn send(key: &[u8], rooms: &mut SealRooms, cipher: &mut [u8])
    requires field_width { rooms.old.parameters.set.m ≡ width (field_of rooms.old.parameters.set) }
    requires key_length { length key.now ≡ rooms.old.parameters.set.public }
    requires cipher_length { length cipher.old ≡ rooms.old.parameters.set.cipher }
    requires ready { Ready rooms.old.parameters.set rooms.old.places.now rooms.old.elements.now }
    ensures { cipher.new ≡ sent_by rooms.old.parameters.set key.now rooms.old.places.now rooms.old.elements.now }
{
    let set = rooms.parameters.set;
    let elements = &mut *rooms.elements;
    let (vector, values) = elements.split_at(set.k);
    let columns = set.n + set.w - set.k;
    encode(key, set.m, vector, &mut rooms.row[..columns], rooms.word);
    let places = &mut *rooms.places;
    add_values(rooms.word, &places[..set.t], values);
    pack(rooms.word, set.m, cipher);
}

/// The message's ciphertext under the key, by the first of the random blocks that fits, and the block's number. Where none fits, ciphertext
/// and work area hold anything.
pub fn seal(
    parameters: ParameterSet,
    key: &[u8],
    random: &[u8],
    msg: &[u8],
    cipher: &mut [u8],
    work: &mut [u16],
) -> Option<usize>
    requires field_width { parameters.set.m ≡ width (field_of parameters.set) }
    requires few_places { 2 * parameters.set.t ≤ 1024 }
    requires key_length { length key.now ≡ parameters.set.public }
    requires message_length { length msg.now ≡ parameters.set.k1 }
    requires cipher_length { length cipher.old ≡ parameters.set.cipher }
    requires work_length { length work.old ≡ parameters.set.work }
    ensures { Seals parameters.set key.now random.now msg.now result cipher.new }
{
    let set = parameters.set;
    let mut rooms = SealRooms::cut(parameters, work);
    let found = find(
        random,
        msg,
        &mut cipher[..set.k1 + set.k2 + set.k3],
        &mut rooms,
    );
    let b = found?;
    send(key, &mut rooms, cipher);
    Some(b)
}
