//! The calls for users: any slices, and an answer.
ghost use Rattle.hash.specs.Answers.{Digested, Masked};

use crate::hasher::digest;
use crate::mask::fill_mask_of;
use lists::Refused;

/// The digest of `message` into `out`. Refused, with nothing written: `out` is not 64 bytes long.
pub fn sha512(message: &[u8], out: &mut [u8]) -> Result<(), Refused>
    ensures { Digested message.now out.old result out.new }
{
    if out.len() != 64 {
        return Err(Refused);
    }
    out.copy_from_slice(&digest(message));
    Ok(())
}

/// The mask of `seed` into `out`. Refused, with nothing written: one of them is above 65536 bytes.
pub fn mask(seed: &[u8], out: &mut [u8]) -> Result<(), Refused>
    ensures { Masked seed.now out.old result out.new }
{
    if seed.len() > 65536 || out.len() > 65536 {
        return Err(Refused);
    }
    fill_mask_of(&[seed], out);
    Ok(())
}
