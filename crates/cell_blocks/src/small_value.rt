//! Values of a few bytes, which take no memory of their own.
ghost use Rattle.std.specs.Prelude.{◌≡◌, ◌↔◌, ℕ, Bool, true, List, length, IfSome, IsSome};
ghost use Rattle.cell_blocks.specs.SmallValues.{narrow_bytes, is_narrow, wide_bytes, is_wide};

/// A value whose length is one of a few.
pub trait SmallValue: Copy + Drop {
    /// Its bytes.
    ghost bytes: { Self → List ℕ };

    /// Whether a value of this length is one.
    ghost suits: { ℕ → Bool };

    /// The value of these bytes, if their number suits.
    fn of(value: &[u8]) -> Option<Self>
        ensures bytes { IfSome result (λ v. bytes v ≡ value.now) }
        ensures suits { IsSome result ↔ (suits (length value.now) ≡ true) };

    /// Its bytes.
    fn list(&self) -> &[u8]
        ensures bytes { result.now ≡ bytes self.now }
        ensures suits { suits (length result.now) ≡ true };
}

/// A value of 1 or 2 bytes.
#[derive(Clone, Copy, Drop)]
pub enum Narrow {
    One([u8; 1]),
    Two([u8; 2]),
}

/// A value of 1, 2, 4 or 8 bytes.
#[derive(Clone, Copy, Drop)]
pub enum Wide {
    One([u8; 1]),
    Two([u8; 2]),
    Four([u8; 4]),
    Eight([u8; 8]),
}

impl SmallValue for Narrow {
    ghost bytes = { narrow_bytes };

    ghost suits = { is_narrow };

    #[inline]
    fn of(value: &[u8]) -> Option<Narrow> {
        if let Some(one) = value.as_array::<1>() {
            return Some(Narrow::One(*one));
        }
        if let Some(two) = value.as_array::<2>() {
            return Some(Narrow::Two(*two));
        }
        None
    }

    #[inline]
    fn list(&self) -> &[u8] {
        match self {
            Narrow::One(one) => one,
            Narrow::Two(two) => two,
        }
    }
}

impl SmallValue for Wide {
    ghost bytes = { wide_bytes };

    ghost suits = { is_wide };

    #[inline]
    fn of(value: &[u8]) -> Option<Wide> {
        if let Some(one) = value.as_array::<1>() {
            return Some(Wide::One(*one));
        }
        if let Some(two) = value.as_array::<2>() {
            return Some(Wide::Two(*two));
        }
        if let Some(four) = value.as_array::<4>() {
            return Some(Wide::Four(*four));
        }
        if let Some(eight) = value.as_array::<8>() {
            return Some(Wide::Eight(*eight));
        }
        None
    }

    #[inline]
    fn list(&self) -> &[u8] {
        match self {
            Wide::One(one) => one,
            Wide::Two(two) => two,
            Wide::Four(four) => four,
            Wide::Eight(eight) => eight,
        }
    }
}
