//! The ids of actions in messages.
ghost use Rattle.std.specs.Prelude.{◌≡◌, ◌++◌, decimal, nat_eq};
ghost use Rattle.std.specs.Cmp.Lexicographic.{pointwise};
ghost use Rattle.agv_track.specs.ActionId.{id_text};

use agv_header::Name;

/// The id of an action.
#[derive(Clone, Copy)]
pub(crate) enum ActionId {
    /// Act n of an order.
    Act { order: Name, n: usize },
    /// The instant action of the message with this number.
    Instant { number: u32 },
}

impl ActionId {
    /// Returns whether the text is this id.
    pub(crate) fn is(self, text: &str) -> bool
        ensures { result ≡ pointwise nat_eq text.now (id_text self) }
    {
        let text = text.as_bytes();
        match self {
            ActionId::Act { order, n } => match text.strip_prefix(order.as_bytes()) {
                Some(rest) => is_numbered(rest, b".", n),
                None => false,
            },
            ActionId::Instant { number } => is_numbered(text, b"instant-", number as usize),
        }
    }
}

/// Returns whether the text is the prefix followed by the number.
fn is_numbered(text: &[u8], prefix: &[u8], number: usize) -> bool
    ensures { result ≡ pointwise nat_eq text.now (prefix.now ++ decimal number) }
{
    match text.strip_prefix(prefix) {
        Some(digits) => is_decimal(digits, number),
        None => false,
    }
}

/// Returns whether these are the decimal digits of the number.
fn is_decimal(digits: &[u8], number: usize) -> bool
    ensures { result ≡ pointwise nat_eq digits.now (decimal number) }
{
    let Some((last, front)) = digits.split_last() else {
        return false;
    };
    if usize::from(*last) != 48 + number % 10 {
        return false;
    }
    if number < 10 {
        front.is_empty()
    } else {
        is_decimal(front, number / 10)
    }
}
