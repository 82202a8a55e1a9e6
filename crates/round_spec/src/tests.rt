use pad_stream::{pad, pad_hash};
use shuffle_core::layer_seeds;
use std::alloc::Global;
use std::test::Fail;
use wire_core::{Mem, Register, Tag};

// A secret of a member in round 1, whose fresh bytes are its number.
fn secret(member: u8, label: u8, index: u8) -> [u8; 32] {
    let mut register = Register::new(Tag::Derive);
    register.piece(&[member; 32]);
    register.piece(&1u64.to_be_bytes());
    register.piece(&[label]);
    register.piece(&[index]);
    register.end()
}

// The seeds of all layers of a member of two: the hashes of their strings.
fn push_layers(alloc: Global, hashes: &mut Vec<[u8; 32]>, member: u8) -> Mem<()> {
    for (shuffle, side, label) in [(1, 1, 8), (1, 2, 9), (2, 1, 10), (2, 2, 11)] {
        let opening = secret(member, label, 0);
        for seed in layer_seeds(alloc, &opening, 1, shuffle, side, member, 2)? {
            hashes.push(seed)?;
        }
    }
    Ok(())
}

// The hash of the own pad of whoever says 61, where the other's pad has this seed.
fn own_pad_hash(alloc: Global, seed: &[u8; 32]) -> Mem<[u8; 32]> {
    let mut own = 0x61;
    for byte in pad(alloc, seed, 1)? {
        own ^= byte;
    }
    let mut register = Register::new(Tag::PadHash);
    register.piece(&[own]);
    Ok(register.end())
}

fn is_among(hashes: &[[u8; 32]], hash: &[u8; 32]) -> bool {
    for other in hashes {
        if other == hash {
            return true;
        }
    }
    false
}

// The strings of two members with messages 61 and empty, which have entered a round and have heard nothing: of the first
// view, of the seeds of their layers and of the pads that they ask for. The digest of all hashes was computed elsewhere.
#[test]
fn hashes_of_strings_at_the_beginning(rt: HostRuntime) -> Result<(), Fail> {
    let alloc = rt.alloc();
    let mut hashes: Vec<[u8; 32]> = Vec::new(alloc);
    hashes.push(Register::new(Tag::View).end())?;
    push_layers(alloc, &mut hashes, 1)?;
    let seed = secret(1, 12, 2);
    hashes.push(pad_hash(&seed, 1))?;
    hashes.push(own_pad_hash(alloc, &seed)?)?;
    push_layers(alloc, &mut hashes, 2)?;
    hashes.push(pad_hash(&secret(2, 12, 1), 0))?;
    assert_eq!(rt; hashes.len(), 20);
    let mut all = Register::new(Tag::View);
    for (place, hash) in hashes.iter().enumerate() {
        all.piece(hash);
        assert!(rt; !is_among(&hashes[..place], hash));
    }
    assert_eq!(rt;
        all.end(),
        *b"\xe1\xf4\x3a\x83\xf9\x74\xb7\x62\x66\xbb\xfe\x73\xd9\x6d\x2f\x7c\x32\x11\x7f\xbc\xb9\x2f\x2a\xf2\xd8\xa8\xdc\x8c\xa7\x5a\x5d\x06"
    );
    Ok(())
}
