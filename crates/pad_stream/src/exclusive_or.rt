//! The exclusive or of byte strings.

ghost use Rattle.std.specs.Prelude.{◌≡◌, length};
ghost use Rattle.pad_stream.specs.ExclusiveOr.{exclusive_or, ExclusiveOrCommutes, ExclusiveOrAssociates, ExclusiveOrUndoesItself};

/// Turns `into` into its exclusive or with `from`, which is as long, byte by byte.
pub fn xor_into(into: &mut [u8], from: &[u8])
    requires { length into.old ≡ length from.now }
    ensures { into.new ≡ exclusive_or into.old from.now }
{
    for (i, byte) in into.iter_mut().enumerate() {
        *byte ^= from[i];
    }
}

/// The laws of the exclusive or of byte strings: it is commutative and associative, and it undoes
/// itself. This function does nothing.
pub fn exclusive_or_laws()
    ensures commutes { ExclusiveOrCommutes }
    ensures associates { ExclusiveOrAssociates }
    ensures undoes_itself { ExclusiveOrUndoesItself }
{}
