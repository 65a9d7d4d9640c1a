//! Key setup: from random bytes to a key pair, or to the refusal that ends it. `setup` of the crate `scheme` says what it makes.
#![tactic(auto)]

mod blocks;
mod entries;
mod keys;
mod orders;
mod random;
mod rooms;

ghost use Rattle.std.specs.Prelude.{◌≡◌, ◌+◌, ◌≤◌, ◌<◌, length, OnOk, OnErr, IfErr};
ghost use Rattle.gf.specs.Field.{width};
ghost use Rattle.scheme.specs.Field.{field_of};
ghost use Rattle.scheme.specs.Setup.{usable, multipliers as multipliers_of};
ghost use Rattle.making.specs.Stages.{Makes};

use entries::Entries;
use random::Random;
use rooms::Rooms;
use scheme::Refusal;
use sets::ParameterSet;

/// The multipliers: the first n non-zero of elements 0 to n + 4.
fn draw_multipliers(random: &Random, multipliers: &mut [u16]) -> Result<(), Refusal>
    requires { length multipliers.old ≡ random.now.parameters.set.n }
    ensures drawn { OnOk result (multipliers.new ≡ multipliers_of random.now.parameters.set random.now.bytes.now) }
    ensures enough { OnOk result (random.now.parameters.set.n ≤ length (usable random.now.parameters.set random.now.bytes.now)) }
    ensures few { OnErr result (length (usable random.now.parameters.set random.now.bytes.now) < random.now.parameters.set.n) }
    ensures refusal { IfErr result (λ e. e ≡ Refusal.FewMultipliers) }
{
    let n = random.parameters.set.n;
    if random.keep_non_zero(0, n + 5, multipliers) < n {
        return Err(Refusal::FewMultipliers);
    }
    Ok(())
}

/// Makes a key pair from random bytes, and answers p + 1 where p is the window that was taken. Everything secret on the way stands in the
/// work area or in the private key. After a refusal the lent slices hold anything.
pub fn make(
    parameters: ParameterSet,
    random: &[u8],
    public: &mut [u8],
    private: &mut [u8],
    work: &mut [u16],
) -> Result<usize, Refusal>
    requires field { parameters.set.m ≡ width (field_of parameters.set) }
    requires byte { parameters.set.byte < 256 }
    requires random { length random.now ≡ parameters.set.random }
    requires public { length public.old ≡ parameters.set.public }
    requires private { length private.old ≡ parameters.set.private }
    requires work { length work.old ≡ parameters.set.work }
    ensures { Makes parameters.set random.now result public.new private.new }
{
    let set = parameters.set;
    let random = Random {
        parameters,
        bytes: random,
    };
    let Rooms {
        matrix,
        multipliers,
        blocks,
        first,
        second,
        generator,
        rest,
        ..
    } = Rooms::cut(parameters, work);
    draw_multipliers(&random, multipliers)?;
    blocks::draw_blocks(&random, &mut rest[..4 * set.w + 20], blocks)?;
    orders::draw_first(&random, first);
    let window = orders::draw_second(&random, second)?;
    code::generator(generator);
    let entries = Entries {
        random,
        multipliers,
        blocks,
        first,
        second,
        generator,
    };
    entries.reduce(&mut rest[..set.n - set.k + 1], matrix)?;
    let run = &mut rest[..2 * set.w + set.n + set.k * (set.n + set.w - set.k)];
    keys::put_run(parameters, blocks, multipliers, matrix, run);
    keys::put_public(parameters, &run[2 * set.w + set.n..], public);
    keys::put_private(parameters, first, second, run, matrix, private);
    Ok(window + 1)
}
