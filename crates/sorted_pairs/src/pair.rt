//! Two numbers kept as one, which has their order.

ghost use Rattle.std.specs.Prelude.{◌≡◌, ◌+◌, ◌*◌, ◌<◌, ◌^◌, refl};
ghost use Rattle.std.specs.Ordering.{eq_by_cmp, as_partial_cmp};
ghost use Rattle.std.specs.Cmp.{partial_equiv_from_equiv, partial_order_from_agreeing_total};
ghost use Rattle.sorted_pairs.specs.Pairs.{number_cmp, numbers_total, numbers_equiv};

use std::cmp::{Eq, Ord, Ordering, PartialEq, PartialOrd};
use std::marker::Model;

/// A number and one below `LIMIT`, kept as one number.
#[derive(Clone, Copy, Drop)]
pub struct Pair<const LIMIT: u64> {
    number: u64,
}

impl<const LIMIT: u64> Model for Pair<LIMIT> {
    ghost use Rattle.std.specs.Prelude.{ℕ, ◌+◌, ◌*◌, ◌/◌, ◌%◌, ◌<◌};
    ghost use Rattle.std.proofs.Common.{ap};
    ghost use Rattle.sorted_pairs.specs.Pairs.{back};

    ghost Value = { ℕ × ℕ };

    ghost view = { λ a. (a.number / LIMIT, a.number % LIMIT) };

    ghost invariant = { λ a. 0 < LIMIT };

    ghost inverse = { λ p. record { number = p.0 * LIMIT + p.1 } };

    ghost inverse_ok = { λ a h. ap (λ n. record { number = n }) (back a.number LIMIT) };
}

impl<const LIMIT: u64> Pair<LIMIT> {
    /// The pair of these, which must fit one number.
    pub fn new(first: u64, second: u64) -> Self
        requires below { second < LIMIT }
        requires fits { first * LIMIT + second < 2 ^ 64 }
        ensures { result ≡ (first, second) }
    {
        Pair {
            number: first * LIMIT + second,
        }
    }

    /// The first of the two.
    pub fn first(&self) -> u64
        ensures value { result ≡ self.now.0 }
        ensures below { result * LIMIT < 2 ^ 64 }
    {
        self.number / LIMIT
    }

    /// The second of the two.
    pub fn second(&self) -> u64
        ensures value { result ≡ self.now.1 }
        ensures below { result < LIMIT }
    {
        self.number % LIMIT
    }
}

impl<const LIMIT: u64> PartialEq for Pair<LIMIT> {
    ghost eq = { eq_by_cmp number_cmp };

    ghost laws = { partial_equiv_from_equiv numbers_equiv };

    fn eq(&self, other: &Pair<LIMIT>) -> bool {
        self.cmp(other).is_eq()
    }
}

impl<const LIMIT: u64> Eq for Pair<LIMIT> {
    ghost laws = { numbers_equiv };
}

impl<const LIMIT: u64> PartialOrd for Pair<LIMIT> {
    ghost partial_cmp = { as_partial_cmp number_cmp };

    ghost laws = { partial_order_from_agreeing_total number_cmp numbers_total (λ x y. refl) (λ x y. refl) };

    fn partial_cmp(&self, other: &Pair<LIMIT>) -> Option<Ordering> {
        Some(self.cmp(other))
    }
}

impl<const LIMIT: u64> Ord for Pair<LIMIT> {
    ghost cmp = { number_cmp };

    ghost total = { numbers_total };

    ghost matches_partial_cmp = { λ x y. refl };

    ghost matches_eq = { λ x y. refl };

    fn cmp(&self, other: &Pair<LIMIT>) -> Ordering {
        self.number.cmp(&other.number)
    }
}
