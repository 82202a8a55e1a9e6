//! Parts of a descriptor as bytes.

ghost use Rattle.std.specs.Prelude.{◌≡◌, ◌++◌, OnOk};
ghost use Rattle.std.specs.List.{concat};

use ring_encrypt::Capsule;
use wire_core::{Mem, put_bytes};

/// Appends hashes, one after the other.
pub(crate) fn put_hashes(out: &mut Vec<u8>, hashes: &Vec<[u8; 32]>) -> Mem<()>
    ensures { OnOk result (out.new.items ≡ out.old.items ++ concat hashes.now.items) }
{
    for hash in hashes {
        put_bytes(out, hash)?;
    }
    Ok(())
}

/// Appends capsules, one after the other.
pub(crate) fn put_capsules(out: &mut Vec<u8>, capsules: &Vec<Capsule>) -> Mem<()>
    ensures { OnOk result (out.new.items ≡ out.old.items ++ concat capsules.now.items) }
{
    for capsule in capsules {
        put_bytes(out, capsule.bytes())?;
    }
    Ok(())
}
