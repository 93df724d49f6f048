//! The laws over the definitions. Each is the contract of a function that does nothing: a caller learns it by the call.
ghost use Rattle.std.specs.Prelude.{◌≡◌, ℕ, ◌+◌, ◌^◌, ◌<◌, ◌≤◌, ◌++◌, ◌∷◌, [], List, length, Some, true, false, slice_get, IfSome};
ghost use Rattle.std.specs.List.{sum_by};
ghost use Rattle.resource_table.specs.declared.Placement.{Placement};
ghost use Rattle.resource_table.specs.Jobs.{TestValue, JobValue, test_at, cycles_of, Precedes, IsSoundJob};
ghost use Rattle.resource_table.specs.Schedules.{TableValue, at_start, exclude, end_of, last_end, IsActive, power_at, is_placed, IsEarliest, Fits, IsSoundTable, IsListSchedule};

/// The placed tests of a sound table keep the rules together: no test is placed twice, tests that exclude each other are
/// never active at one cycle, the power stays within the limit at each cycle, and a test that precedes another has ended
/// as that starts.
pub fn sound_tables_keep_the_rules()
    ensures differ { (t : TableValue) (i j : ℕ) (p q : Placement) → IsSoundTable t → i < j →
        slice_get t.placed i ≡ Some p → slice_get t.placed j ≡ Some q → p.test ≡ q.test → ⊥ }
    ensures inside { (t : TableValue) (i : ℕ) (p : Placement) → IsSoundTable t →
        slice_get t.placed i ≡ Some p → p.test < length t.job.tests }
    ensures apart { (t : TableValue) (i j c : ℕ) (p q : Placement) → IsSoundTable t → i < j →
        slice_get t.placed i ≡ Some p → slice_get t.placed j ≡ Some q →
        exclude (test_at t.job p.test) (test_at t.job q.test) ≡ true → IsActive t.job p c →
        IsActive t.job q c → ⊥ }
    ensures power { (t : TableValue) (c : ℕ) → IsSoundTable t →
        IfSome t.job.power (λ most. power_at t.job t.placed c ≤ most) }
    ensures order { (t : TableValue) (i j : ℕ) (p q : Placement) → IsSoundTable t →
        slice_get t.placed i ≡ Some p → slice_get t.placed j ≡ Some q →
        Precedes t.job p.test q.test → end_of t.job p ≤ q.start }
{}

/// A list schedule stays one where a test is placed at its least start, and where only its first placements are left.
/// In a sound table it ends by the sum of the lengths of the job's tests, also with one test more, so that no start is too
/// great.
pub fn list_schedules_are_short()
    ensures empty { (job : JobValue) → IsListSchedule job [] }
    ensures next { (job : JobValue) (placed : List Placement) (test start : ℕ) →
        IsListSchedule job placed → IsEarliest job placed test start →
        IsListSchedule job (placed ++ at_start test start ∷ []) }
    ensures front { (job : JobValue) (placed rest : List Placement) →
        IsListSchedule job (placed ++ rest) → IsListSchedule job placed }
    ensures short { (t : TableValue) → IsSoundTable t → IsListSchedule t.job t.placed →
        last_end t.job t.placed ≤ sum_by (λ (x : TestValue). x.cycles) t.job.tests }
    ensures fits { (t : TableValue) (test start : ℕ) → IsSoundTable t →
        IsListSchedule t.job t.placed → test < length t.job.tests →
        is_placed t.placed test ≡ false → IsEarliest t.job t.placed test start →
        start + cycles_of t.job test ≤ 10 ^ 18 }
{}

/// The least start of a test only rises as tests are placed, since what fits beside more tests fits beside fewer; and it is
/// the end of the test that ends last at the latest.
pub fn starts_only_rise()
    ensures fewer { (job : JobValue) (placed more : List Placement) (test start : ℕ) →
        Fits job (placed ++ more) test start → Fits job placed test start }
    ensures at_last { (job : JobValue) (placed : List Placement) (test : ℕ) → IsSoundJob job →
        test < length job.tests → Fits job placed test (last_end job placed) }
{}
