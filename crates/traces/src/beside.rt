// Numbers in turn beside what somebody else says of each place.
ghost use Rattle.std.specs.Prelude.{◌≡◌, ◌≢◌, ℕ, ◌+◌, ◌<◌, ◌≤◌, Option, Some, length, slice_index};

// How many of the numbers, from the first on, are what a function says of 1, 2 and so on.
pub fn agreed<F: Fn(usize) -> Option<u64>>(numbers: &[u64], of: F) -> usize
    requires { F.IsAlwaysCallable of }
    ensures few { result ≤ length numbers.now }
    ensures same { (k : ℕ) → k < result → F.post of (k + 1) (Some (slice_index numbers.now k)) }
    ensures other { result < length numbers.now → (said : Option ℕ) × F.post of (result + 1) said × said ≢ Some (slice_index numbers.now result) }
{
    (1..=numbers.len())
        .zip(numbers)
        .take_while(|&(k, number)| of(k) == Some(*number))
        .count()
}
