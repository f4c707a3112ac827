//! Hooks found by their numbers, and numbers that stand twice.

ghost use Rattle.std.specs.Prelude.{◌≡◌, ◌==◌, find, map, MatchOption};
ghost use Rattle.std.specs.List.{list_any};
ghost use Rattle.std.specs.Option.{option_copied};
ghost use Rattle.info_hooks.specs.Hooks.{AreOnce, IsLeastTwice, numbers_of};
ghost use Rattle.info_hooks.specs.Twice.{least_of, least_twice};

use crate::hooks::Hook;

/// The least number that two of the hooks have.
pub(crate) fn least_twice(list: &[Hook]) -> Option<u32>
    ensures { let numbers = numbers_of (map (λ h. h.key) list.now) in MatchOption result (AreOnce numbers)
        (λ number. IsLeastTwice number numbers) }
{
    first_least(list)
}

/// The same, from the front.
fn first_least(list: &[Hook]) -> Option<u32>
    ensures { result ≡ least_twice (numbers_of (map (λ h. h.key) list.now)) }
{
    match list {
        [] => None,
        [first, rest @ ..] => {
            let number = first.number();
            least_of(number, stands_in(rest, number), first_least(rest))
        }
    }
}

/// Whether the number stands among the hooks'.
fn stands_in(list: &[Hook], number: u32) -> bool
    ensures { result ≡ list_any (λ n. n == number) (numbers_of (map (λ h. h.key) list.now)) }
{
    match list {
        [] => false,
        [first, rest @ ..] => first.number() == number || stands_in(rest, number),
    }
}

/// The least of a number, where it stands again, and another, where there is one.
fn least_of(number: u32, again: bool, other: Option<u32>) -> Option<u32>
    ensures { result ≡ least_of number again other }
{
    match other {
        None => again.then_some(number),
        Some(other) if again => Some(number.min(other)),
        Some(other) => Some(other),
    }
}

/// The first hook with the number.
pub(crate) fn numbered(list: &[Hook], number: u32) -> Option<&Hook>
    ensures { option_copied result ≡ find (λ h. h.key.number == number) list.now }
{
    for hook in list {
        if hook.number() == number {
            return Some(hook);
        }
    }
    None
}
