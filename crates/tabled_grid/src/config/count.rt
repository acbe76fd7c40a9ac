//! Numbers that count anchors.

ghost use Rattle.std.specs.Prelude.{◌≡◌, ◌+◌, ◌-◌, ◌%◌, ◌^◌, ℕ};

/// A number that counts anchors, round a limit.
pub(super) trait Count: Copy + Drop {
    /// What it says.
    ghost value: { Self → ℕ };

    /// One more than the greatest says.
    ghost limit: { ℕ };

    /// The number 1.
    fn one() -> Self
        ensures { value result ≡ 1 };

    /// The greatest number, with which one less is counted.
    fn greatest() -> Self
        ensures { value result ≡ limit - 1 };

    /// The sum, round the limit.
    fn plus(self, other: Self) -> Self
        ensures { value result ≡ (value self + value other) % limit };
}

impl Count for usize {
    ghost value = { λ n. n };

    ghost limit = { 2 ^ 64 };

    fn one() -> Self {
        1
    }

    fn greatest() -> Self {
        usize::MAX
    }

    fn plus(self, other: Self) -> Self {
        self.wrapping_add(other)
    }
}

impl Count for u128 {
    ghost value = { λ n. n };

    ghost limit = { 2 ^ 128 };

    fn one() -> Self {
        1
    }

    fn greatest() -> Self {
        u128::MAX
    }

    fn plus(self, other: Self) -> Self {
        self.wrapping_add(other)
    }
}
