//! Layers, one and eight on each other.

use anyhow::{Result, bail, ensure};
use layer_cipher::{KeySeed, Peeled, peel, peel_with, seal, wrap};
use ring_encrypt::public_of;
use std::alloc::Global;
use wire_core::{Register, Tag};

pub fn a_layer_opens_to_what_was_sealed(alloc: Global) -> Result<()> {
    let seed = [3; 32];
    let m = [0x5a; 32];
    for body in [b"".as_slice(), b"a body".as_slice()] {
        let layer = seal(alloc, &public_of(&seed), &m, body)?;
        ensure!(layer.len() == body.len() + 2272);
        match peel(alloc, &seed, &layer)? {
            Peeled::Layer {
                m: found,
                body: rest,
            } => {
                ensure!(found == m);
                ensure!(rest.items().as_slice() == body);
            }
            Peeled::NoLayer => bail!("a layer that was sealed"),
        }
    }
    ensure!(matches!(peel(alloc, &seed, &[0; 2271])?, Peeled::NoLayer));
    Ok(())
}

// A seed whose layers another program made, and what they carry sealed.
const SEED: [u8; 32] = [
    34, 118, 51, 173, 229, 236, 148, 216, 32, 208, 25, 163, 133, 134, 187, 68, 174, 93, 27, 168,
    247, 126, 156, 141, 81, 196, 87, 249, 84, 9, 250, 29,
];

const CARRIED: [u8; 32] = [
    172, 11, 137, 44, 189, 251, 37, 228, 69, 172, 70, 114, 254, 62, 157, 155, 243, 82, 232, 210,
    78, 175, 241, 23, 161, 237, 193, 45, 123, 92, 61, 208,
];

// The hash of the other program's layer of 65,536 bytes 0x5a.
const LONG_LAYER: [u8; 32] = [
    54, 159, 205, 0, 115, 226, 74, 0, 140, 228, 67, 101, 248, 14, 162, 200, 84, 64, 98, 117, 70,
    11, 218, 244, 58, 70, 64, 209, 3, 224, 198, 249,
];

pub fn a_long_layer_is_that_of_another_program(alloc: Global) -> Result<()> {
    let layer = seal(alloc, &public_of(&SEED), &CARRIED, &[0x5a; 65_536])?;
    ensure!(layer.len() == 67_808);
    let mut register = Register::new(Tag::View);
    register.piece(&layer);
    ensure!(register.end() == LONG_LAYER);
    match peel(alloc, &SEED, &layer)? {
        Peeled::Layer { m, body } => {
            ensure!(m == CARRIED);
            ensure!(body.items().as_slice() == [0x5a; 65_536].as_slice());
        }
        Peeled::NoLayer => bail!("no layer"),
    }
    Ok(())
}

// A blob of 70,000 bytes under eight keys.
fn wrapped(alloc: Global) -> Result<Vec<u8>> {
    let keys = vec![in alloc;
        public_of(&[1; 32]),
        public_of(&[2; 32]),
        public_of(&[3; 32]),
        public_of(&[4; 32]),
        public_of(&[5; 32]),
        public_of(&[6; 32]),
        public_of(&[7; 32]),
        public_of(&[8; 32]),
    ]?;
    let seeds = vec![in alloc;
        [10; 32], [20; 32], [30; 32], [40; 32], [50; 32], [60; 32], [70; 32], [80; 32],
    ]?;
    Ok(wrap(alloc, &keys, &seeds, &[0x2a; 70_000])?)
}

pub fn eight_layers_come_off_the_first_key_outermost(alloc: Global) -> Result<()> {
    let mut layers = wrapped(alloc)?;
    ensure!(layers.len() == 70_000 + 8 * 2272);
    for k in 1..9 {
        if layers.len() > 100_000 {
            bail!("too many bytes");
        }
        let key = KeySeed::new([k; 32]);
        let found = peel_with(alloc, &key, &layers);
        key.destroy();
        match found? {
            Peeled::Layer { m, body } => {
                ensure!(m == [10 * k; 32]);
                layers = body.into_items();
            }
            Peeled::NoLayer => bail!("no layer"),
        }
    }
    ensure!(layers.as_slice() == [0x2a; 70_000].as_slice());
    Ok(())
}
