//! The parts of the lent work area.
ghost use Rattle.std.specs.Prelude.{◌≡◌, ◌+◌, length};

use sets::ParameterSet;

/// Room for the word and, before it, the shuffle of its places; for a row of GE and, before it, the marks of the places; for the places; and
/// for the elements of the padded string: the message vector, then the error values.
#[derive(Drop)]
pub struct SealRooms<'w> {
    pub parameters: ParameterSet,
    pub word: &'w mut [u16],
    pub row: &'w mut [u16],
    pub places: &'w mut [u16],
    pub elements: &'w mut [u16],
    pub ghost word_length: { length word.now ≡ parameters.set.n + parameters.set.w },
    pub ghost row_length: { length row.now ≡ parameters.set.n + parameters.set.w },
    pub ghost places_length: { length places.now ≡ parameters.set.n + parameters.set.w },
    pub ghost elements_length: { length elements.now ≡ parameters.set.k + parameters.set.t },
}

impl<'w> SealRooms<'w> {
    #[tactic(auto, using(crate::proofs::Room::four_runs, crate::proofs::Room::half_run))]
    pub fn cut(parameters: ParameterSet, work: &'w mut [u16]) -> SealRooms<'w>
        requires { length work.old ≡ parameters.set.work }
        ensures same_set { result.parameters ≡ parameters }
    {
        let set = parameters.set;
        let size = set.n + set.w;
        let (word, rest) = work.split_at_mut(size);
        let (row, rest) = rest.split_at_mut(size);
        let (places, rest) = rest.split_at_mut(size);
        let (elements, _) = rest.split_at_mut(set.k + set.t);
        SealRooms {
            parameters,
            word,
            row,
            places,
            elements,
        }
    }
}
