//! From the vector to the message: the places where its word differs from what was received, the differences, and the padded string.
ghost use Rattle.std.specs.Prelude.{◌≡◌, ◌≢◌, ℕ, ◌+◌, ◌*◌, ◌<◌, ◌≤◌, length, get_or, take, EachIndex, OnOk, IfErr};
ghost use Rattle.gf.specs.Field.{◌⊕◌};
ghost use Rattle.bits.specs.Bits.{packed, bytes_for, Small};
ghost use Rattle.bits.specs.Numbers.{bytes16};
ghost use Rattle.scheme.specs.Padding.{Checks, message_of};

use crate::Failure;
use crate::places::list_places;
use crate::prepare::PreparedKey;
use padding::unpad;
use sets::{ParameterSet, Set};

/// The differences at the places.
fn fill_values(sent: &[u16], received: &[u16], places: &[u16], values: &mut [u16])
    requires lengths { length sent.now ≡ length received.now }
    requires as_many { length values.old ≡ length places.now }
    requires low { (i : ℕ) → i < length places.now → get_or places.now i 0 < length sent.now }
    ensures { EachIndex values.new (λ i. get_or values.new i 0 ≡ get_or sent.now (get_or places.now i 0) 0 ⊕ get_or received.now (get_or places.now i 0) 0) }
{
    for (i, value) in values.iter_mut().enumerate() {
        let p = places[i] as usize;
        *value = sent[p] ^ received[p];
    }
}

/// Room for the padded string.
fn padded_room() -> [u8; 2048]
    ensures { 2048 ≡ length result }
{
    [0; 2048]
}

/// Room for the places string.
fn places_room() -> [u8; 1024]
    ensures { 1024 ≡ length result }
{
    [0; 1024]
}

/// The message of the padded string with these elements, if its check bytes are right.
fn unpad_elements(
    parameters: ParameterSet,
    elements: &[u16],
    places: &[u16],
    message: &mut [u8],
) -> Result<(), Failure>
    requires elements { length elements.now ≡ parameters.set.k + parameters.set.t }
    requires small { Small parameters.set.m elements.now }
    requires places { length places.now ≡ parameters.set.t }
    requires message { length message.old ≡ parameters.set.k1 }
    requires places_fit { 2 * parameters.set.t ≤ 1024 }
    requires padded_fit { parameters.set.k1 + parameters.set.k2 + parameters.set.k3 ≤ 2048 }
    ensures checks { OnOk result (Checks parameters.set (packed parameters.set.m elements.now) (bytes16 places.now)) }
    ensures message { OnOk result (message.new ≡ message_of parameters.set (packed parameters.set.m elements.now) (bytes16 places.now)) }
    ensures wrong { IfErr result (λ e. (e ≡ Failure.NotOpened) × (Checks parameters.set (packed parameters.set.m elements.now) (bytes16 places.now) → ⊥)) }
{
    let Set {
        k1,
        k2,
        k3,
        t,
        m,
        ..
    } = parameters.set;
    let mut padded_room = padded_room();
    let mut places_room = places_room();
    let padded = &mut padded_room[..k1 + k2 + k3];
    let places_string = &mut places_room[..2 * t];
    bits::pack(elements, m, padded);
    bits::put_numbers(places, places_string);
    let unpadded = unpad(parameters, padded, places_string, message);
    padded_room.fill(0);
    places_room.fill(0);
    match unpadded {
        Ok(()) => Ok(()),
        Err(_) => Err(Failure::NotOpened),
    }
}

impl<'a, 'w> PreparedKey<'a, 'w> {
    ghost use Rattle.scheme.specs.Opening.{error_places, repadded};
    ghost use Rattle.scheme.specs.Sealing.{encoded};
    ghost use Rattle.opening.specs.Held.{held};
    ghost use Rattle.opening.specs.Ending.{Accepted};

    /// The places where the vector's word differs from what was received, of which there have to be t.
    fn list_errors(&self, received: &[u16], sent: &[u16], places: &mut [u16]) -> Result<(), Failure>
        requires received { length received.now ≡ self.now.key.parameters.set.n + self.now.key.parameters.set.w }
        requires sent { length sent.now ≡ self.now.key.parameters.set.n + self.now.key.parameters.set.w }
        requires encoded { EachIndex sent.now (λ j. get_or sent.now j 0 ≡ encoded self.now.key.parameters.set (held self.now.key).ge (take self.now.key.parameters.set.k sent.now) j) }
        requires places { length places.old ≡ self.now.key.parameters.set.t }
        ensures places { OnOk result (places.new ≡ error_places self.now.key.parameters.set (held self.now.key) (take self.now.key.parameters.set.k sent.now) received.now) }
        ensures refused { IfErr result (λ e. (e ≡ Failure.NotOpened) × (length (error_places self.now.key.parameters.set (held self.now.key) (take self.now.key.parameters.set.k sent.now) received.now) ≢ self.now.key.parameters.set.t)) }
    {
        let Set { n, t, w, .. } = self.key.parameters.set;
        if list_places(0, n + w, |j| sent[j] != received[j], places) != t {
            return Err(Failure::NotOpened);
        }
        Ok(())
    }

    /// The message of the vector with which `sent` begins: its word has to differ from what was received in exactly t places, and the check bytes have to be right.
    pub(crate) fn finish(
        &self,
        received: &[u16],
        sent: &[u16],
        string: &mut [u16],
        places: &mut [u16],
        message: &mut [u8],
    ) -> Result<(), Failure>
        requires received { length received.now ≡ self.now.key.parameters.set.n + self.now.key.parameters.set.w }
        requires received_small { Small self.now.key.parameters.set.m received.now }
        requires sent { length sent.now ≡ self.now.key.parameters.set.n + self.now.key.parameters.set.w }
        requires sent_small { Small self.now.key.parameters.set.m sent.now }
        requires encoded { EachIndex sent.now (λ j. get_or sent.now j 0 ≡ encoded self.now.key.parameters.set (held self.now.key).ge (take self.now.key.parameters.set.k sent.now) j) }
        requires string { length string.old ≡ self.now.key.parameters.set.k + self.now.key.parameters.set.t }
        requires places { length places.old ≡ self.now.key.parameters.set.t }
        requires message { length message.old ≡ self.now.key.parameters.set.k1 }
        requires places_fit { 2 * self.now.key.parameters.set.t ≤ 1024 }
        requires padded_fit { self.now.key.parameters.set.k1 + self.now.key.parameters.set.k2 + self.now.key.parameters.set.k3 ≤ 2048 }
        ensures accepted { OnOk result (Accepted self.now.key.parameters.set (held self.now.key) (take self.now.key.parameters.set.k sent.now) received.now) }
        ensures message { OnOk result (message.new ≡ message_of self.now.key.parameters.set (repadded self.now.key.parameters.set (held self.now.key) (take self.now.key.parameters.set.k sent.now) received.now) (bytes16 (error_places self.now.key.parameters.set (held self.now.key) (take self.now.key.parameters.set.k sent.now) received.now))) }
        ensures refused { IfErr result (λ e. (e ≡ Failure.NotOpened) × (Accepted self.now.key.parameters.set (held self.now.key) (take self.now.key.parameters.set.k sent.now) received.now → ⊥)) }
    {
        self.list_errors(received, sent, places)?;
        let k = self.key.parameters.set.k;
        let (vector, values) = string.split_at_mut(k);
        vector.copy_from_slice(&sent[..k]);
        fill_values(sent, received, places, values);
        unpad_elements(self.key.parameters, string, places, message)
    }
}
