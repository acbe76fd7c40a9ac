//! Laws of decimal numbers. Each is the contract of a function that does nothing.

ghost use Rattle.std.specs.Prelude.{◌≡◌, ◌*ℤ◌, ◌^◌, ◌↔◌, pos};
ghost use Rattle.std.specs.Cmp.{IsTotalOrder};
ghost use Rattle.std.specs.declared.cmp.Ordering.TheVariants.{Equal};
ghost use Rattle.tabled_decimal.specs.Numbers.{Number, number_cmp};

/// Numbers are in one order: of two one is less than the other or both are equal, what is less than a lesser one is less,
/// and what is equal compares alike.
pub fn numbers_are_in_one_order()
    ensures { IsTotalOrder number_cmp }
{}

/// Two numbers are equal exactly where m / 10 ^ p and n / 10 ^ q are, that is, where m * 10 ^ q is n * 10 ^ p.
pub fn numbers_are_equal_where_their_values_are()
    ensures { (a b : Number) → (number_cmp a b ≡ Equal) ↔ (a.units *ℤ pos (10 ^ b.places) ≡ b.units *ℤ pos (10 ^ a.places)) }
{}
