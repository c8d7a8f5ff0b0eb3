//! Header numbers: each message of a topic has one more than the message before it.
ghost use Rattle.std.specs.Prelude.{◌≡◌};
ghost use Rattle.agv_header.specs.Count.{is_fresh, next_number};

/// Returns whether a message with header number `n` is newer than the last one: if there is none,
/// or `n` is greater than its number.
pub fn is_fresh(last: Option<u32>, n: u32) -> bool
    ensures { result ≡ is_fresh last n }
{
    match last {
        Some(number) => number < n,
        None => true,
    }
}

/// Returns the header number after `n`, or `None` after 4294967295, the last.
pub fn next_number(n: u32) -> Option<u32>
    ensures { result ≡ next_number n }
{
    n.checked_add(1)
}
