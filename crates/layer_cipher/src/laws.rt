//! The laws of layers.

ghost use Rattle.layer_cipher.specs.Laws.{PeelsExactly, KeyPeels, LayerAdds, WrappingAdds, WrappedOpens, OutermostDetermined};
ghost use Rattle.layer_cipher.specs.Stripping.{StripsExactly, StripsUnlessClosed, StripsAll, StripsInAnyOrder, KeyStrips, StripsThroughExactly, StripsThroughMore, StripsThroughInAnyOrder, StripsThroughKeeps};

/// A seed finds exactly what is sealed under its key, and so the seeds of all keys, in their order,
/// find what was wrapped. This function does nothing.
pub fn layer_laws()
    ensures exactly { PeelsExactly }
    ensures key_peels { KeyPeels }
    ensures layer_adds { LayerAdds }
    ensures wrapping_adds { WrappingAdds }
    ensures wrapped_opens { WrappedOpens }
    ensures outermost { OutermostDetermined }
{}

/// A list is stripped to the bodies of which its entries are the layers, and is not where an entry
/// is no layer. Each entry gives a body, another order of the entries gives another order of the
/// same bodies, and seeds of one key strip alike. This function does nothing.
pub fn stripping_laws()
    ensures exactly { StripsExactly }
    ensures unless_closed { StripsUnlessClosed }
    ensures all { StripsAll }
    ensures in_any_order { StripsInAnyOrder }
    ensures key_strips { KeyStrips }
{}

/// The same of many layers: a list is stripped through to what its entries open to, one layer more
/// strips the bodies once more, another order of the entries gives another order of the same bodies,
/// and what an entry opens to is among them. This function does nothing.
pub fn stripping_through_laws()
    ensures exactly { StripsThroughExactly }
    ensures more { StripsThroughMore }
    ensures in_any_order { StripsThroughInAnyOrder }
    ensures keeps { StripsThroughKeeps }
{}
