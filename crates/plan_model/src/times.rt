//! The time of a wrapped module's test.
ghost use Rattle.std.specs.Prelude.{◌≡◌, ◌+◌, ◌*◌, ◌^◌, ◌≤◌, length, max, min};
ghost use Rattle.plan_model.specs.Operations.{ops_of};

/// The cycles of a test of `p` patterns over the wires after `setup` cycles at rest,
/// `setup + (1 + max(si, so)) * p + min(si, so)`, where `si` and `so` are the lengths in cells of the longest scan-in and
/// scan-out path (Iyengar, Chakrabarty and Marinissen 2002).
pub fn closed_time(setup: u64, si: u64, so: u64, p: u64) -> u64
    requires patterns { 1 ≤ p }
    requires bounded { setup + (1 + max si so) * p + min si so ≤ 10 ^ 18 }
    ensures small { result ≤ 10 ^ 18 }
    ensures formula { result ≡ setup + (1 + max si so) * p + min si so }
    ensures time { result ≡ length (ops_of setup si so p) }
{
    setup + (1 + si.max(so)) * p + si.min(so)
}
