//! Capsules and keys.

use anyhow::{Context, Result, ensure};
use ring_encrypt::{
    CoefficientTooLarge, KeySeed, is_key_of, open_seed, public_of, read_capsule, read_key,
    seal_seed,
};

// A first coefficient of 12289.
const TOO_LARGE: CoefficientTooLarge = CoefficientTooLarge {
    place: 0,
    value: 12289,
};

pub fn what_is_sealed_opens_and_a_raised_coefficient_does_not() -> Result<()> {
    let m = [0xa5; 32];
    for seed in [[1; 32], [2; 32]] {
        let key = public_of(&seed);
        ensure!(is_key_of(&seed, &key));
        let capsule = seal_seed(&key, &m);
        ensure!(open_seed(&seed, &capsule) == Some(m));
        // The first coefficient of v stands in the low bits of the first byte after u.
        let mut raised = *capsule.bytes();
        raised[1792] = raised[1792].wrapping_add(1);
        ensure!(open_seed(&seed, &read_capsule(&raised)) == None);
    }
    Ok(())
}

pub fn a_key_is_read_back_and_a_seed_revealed() -> Result<()> {
    let seed = KeySeed::new([4; 32]);
    let key = seed.public();
    let revealed = seed.reveal();
    ensure!(revealed == [4; 32]);
    let mut bytes = *key.bytes();
    let read = read_key(&bytes).ok().context("a key")?;
    ensure!(read.bytes().as_slice() == key.bytes().as_slice());
    bytes[32] = 0x01;
    bytes[33] = 0x30;
    ensure!(read_key(&bytes).err() == Some(TOO_LARGE));
    Ok(())
}
