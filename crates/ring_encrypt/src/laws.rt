//! The laws of sealing and opening.

ghost use Rattle.ring_encrypt.specs.Opening.{OpensExactly, SealedIsDecoded, CapsuleDetermines, KeyOpens, KeyIsPublicKey, SealedIsAsLong};
ghost use Rattle.ring_encrypt.specs.Reduced.{SealedIsReduced};

/// A seed opens exactly what is sealed under its key: so what is sealed opens, a capsule has one
/// message, and seeds of one key open alike. The key of a seed has no coefficient that is too large,
/// and a capsule has 2,240 bytes and no such coefficient either. This function does nothing.
pub fn opening_laws()
    ensures exactly { OpensExactly }
    ensures decoded { SealedIsDecoded }
    ensures determines { CapsuleDetermines }
    ensures key_opens { KeyOpens }
    ensures public_key { KeyIsPublicKey }
    ensures as_long { SealedIsAsLong }
    ensures reduced { SealedIsReduced }
{}
