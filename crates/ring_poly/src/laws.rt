//! Laws of the definitions, each the contract of a function that does nothing.

ghost use Rattle.ring_poly.specs.Laws.{
  ProductAddsInFirst,
  ProductAddsInSecond,
  FactorsCommute,
  ProductIsSmall,
  MaskCancels,
  PackedIsReadBack,
  ReadIsPackedBack,
  RefusalNamesLeast,
};

/// The product of a sum is the sum of the products, in either factor.
pub fn product_of_sum()
    ensures first { ProductAddsInFirst }
    ensures second { ProductAddsInSecond }
{}

/// A polynomial times two ternary ones is the same in either order.
pub fn factors_commute()
    ensures { FactorsCommute }
{}

/// The coefficients of a product of small polynomials are small.
pub fn product_of_small()
    ensures { ProductIsSmall }
{}

/// What a sealed value is masked with cancels when it is opened, and small products are left.
pub fn mask_cancels()
    ensures { MaskCancels }
{}

/// Packing and reading undo each other, so that each list of coefficients has one spelling. What is refused is refused
/// by the least place that is too large.
pub fn packing_undone()
    ensures read_back { PackedIsReadBack }
    ensures packed_back { ReadIsPackedBack }
    ensures refused { RefusalNamesLeast }
{}
