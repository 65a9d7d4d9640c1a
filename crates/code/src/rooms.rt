//! The work area of decoding, cut into a part for each list that decoding keeps.
ghost use Rattle.std.specs.Prelude.{◌≡◌, ◌+◌, ◌*◌, ◌≤◌, length};
ghost use Rattle.code.specs.Area.{decoding_room};

/// For a word of n places, of which t may be wrong.
pub struct Rooms<'w> {
    /// the equations
    pub matrix: &'w mut [u16],
    /// the 2t power sums of the word, and as many powers of α
    pub sums: &'w mut [u16],
    pub powers: &'w mut [u16],
    /// the locator's t + 1 coefficients, its values at the n points, and the points
    pub locator: &'w mut [u16],
    pub values: &'w mut [u16],
    pub points: &'w mut [u16],
    /// the places that may be wrong
    pub places: &'w mut [u16],
}

impl<'w> Rooms<'w> {
    pub fn cut(n: usize, t: usize, work: &'w mut [u16]) -> Rooms<'w>
        requires room { decoding_room n t ≤ length work.old }
        ensures matrix { length result.matrix.now ≡ t * (t + 1) }
        ensures sums { length result.sums.now ≡ t + t }
        ensures powers { length result.powers.now ≡ t + t }
        ensures locator { length result.locator.now ≡ t + 1 }
        ensures values { length result.values.now ≡ n }
        ensures points { length result.points.now ≡ n }
        ensures places { length result.places.now ≡ t }
    {
        let (matrix, rest) = work.split_at_mut(t * (t + 1));
        let (sums, rest) = rest.split_at_mut(t + t);
        let (powers, rest) = rest.split_at_mut(t + t);
        let (locator, rest) = rest.split_at_mut(t + 1);
        let (values, rest) = rest.split_at_mut(n);
        let (points, rest) = rest.split_at_mut(n);
        Rooms {
            matrix,
            sums,
            powers,
            locator,
            values,
            points,
            places: &mut rest[..t],
        }
    }
}
