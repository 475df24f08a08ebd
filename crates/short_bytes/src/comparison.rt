//! Equality, order and hashes of byte strings, which are those of the bytes as a whole.
ghost use Rattle.std.specs.Prelude.{nat_eq, Some, refl};
ghost use Rattle.std.specs.Ordering.{nat_cmp};
ghost use Rattle.std.specs.Hash as fed;
ghost use Rattle.std.specs.Cmp as laws;
ghost use Rattle.std.specs.Cmp.Lexicographic.{slice_cmp, pointwise, nat_list_eq_equiv, nat_list_cmp_total, texts_po, texts_ties};
ghost use Rattle.short_bytes.specs.Alike.{same_input};

use crate::short::Bytes;
use std::cmp::Ordering;
use std::hash::{Hash, Hasher};

impl PartialEq for Bytes {
    ghost eq = { λ x y. pointwise nat_eq x y };

    ghost laws = { laws.partial_equiv_from_equiv nat_list_eq_equiv };

    #[inline(always)]
    fn eq(&self, other: &Self) -> bool {
        self.same(other)
    }
}

impl Eq for Bytes {
    ghost laws = { nat_list_eq_equiv };
}

impl PartialOrd for Bytes {
    ghost partial_cmp = { λ x y. Some (slice_cmp nat_cmp x y) };

    ghost laws = { texts_po };

    #[inline]
    fn partial_cmp(&self, other: &Self) -> Option<Ordering> {
        Some(self.cmp(other))
    }
}

impl Ord for Bytes {
    ghost cmp = { slice_cmp nat_cmp };

    ghost total = { nat_list_cmp_total };

    ghost matches_partial_cmp = { λ x y. refl };

    ghost matches_eq = { texts_ties };

    #[inline(always)]
    fn cmp(&self, other: &Self) -> Ordering {
        self.order(other)
    }
}

impl Hash for Bytes {
    ghost hash_input = { λ b. fed.str b };

    ghost respects_eq = { same_input };

    #[inline]
    fn hash<H: Hasher>(&self, state: &mut H) {
        state.write(self.list());
        state.write_u8(0xff);
    }
}
