//! Moments: whole milliseconds, from 1970 to the end of 2099.
ghost use Rattle.std.specs.Prelude.{◌≡◌, pos};
ghost use Rattle.agv_header.specs.Moment.{moment_at, IsMoment};

use std::marker::Model;

/// 2099-12-31T23:59:59.999Z, in milliseconds since 1970-01-01T00:00:00Z.
const LAST: i64 = 4_102_444_799_999;

/// A moment: milliseconds since 1970-01-01T00:00:00Z, from 0 to 4102444799999, which is
/// 2099-12-31T23:59:59.999Z. In a clause it is that number.
#[derive(Clone, Copy, Debug, PartialEq, Eq, PartialOrd, Ord)]
pub struct Moment {
    ms: u64,
}

impl Model for Moment {
    ghost use Rattle.std.specs.Prelude.{ℕ};
    ghost use Rattle.agv_header.specs.Moment.{IsMoment};

    ghost Value = { ℕ };

    ghost view = { λ moment. moment.ms };

    ghost invariant = { λ moment. IsMoment moment.ms };

    ghost inverse = { λ ms. record { ms = ms } };
}

impl Moment {
    /// Returns the moment at `ms` milliseconds since 1970-01-01T00:00:00Z, or `None` if the number is
    /// below 0 or above 4102444799999.
    pub fn of(ms: i64) -> Option<Moment>
        ensures { result ≡ moment_at ms }
    {
        match u64::try_from(ms) {
            Ok(whole) if ms <= LAST => Some(Moment { ms: whole }),
            _ => None,
        }
    }

    /// Returns its milliseconds since 1970-01-01T00:00:00Z, from 0 to 4102444799999.
    pub fn ms(self) -> i64
        ensures value { result ≡ pos self }
        ensures range { IsMoment self }
    {
        self.ms as i64
    }
}
