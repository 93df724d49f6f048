//! Values that are made of several others.
ghost use Rattle.std.specs.Prelude.{◌≡◌, ◌⊎◌, Ok, Err, IsOk, IfOk};
ghost use Rattle.std.specs.Result.{IfErr};

/// Two values that were made, where both were, else the first error. What is made of several such pairs has one exit at which memory
/// may be out, and drops nothing there itself.
pub fn both<A: Drop, B: Drop, E: Drop>(one: Result<A, E>, other: Result<B, E>) -> Result<(A, B), E>
    ensures made { IfOk result (λ made. (one ≡ Ok made.0) × (other ≡ Ok made.1)) }
    ensures first_error { IfErr result
        (λ error. (one ≡ Err error) ⊎ (IsOk one × (other ≡ Err error))) }
{
    let one = one?;
    let other = other?;
    Ok((one, other))
}
