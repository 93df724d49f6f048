//! Laws of orders. Each is the contract of a function that does nothing: a caller learns it by the call.
ghost use Rattle.std.specs.Prelude.{◌≡◌, ℕ, ◌+◌, ◌-◌, ◌*◌, ◌<◌, ◌≤◌, ◌++◌, Bool, true, Some, List, length, slice_get};
ghost use Rattle.std.specs.List.{All, Contains, sum_by};
ghost use Rattle.plan_model.specs.Rules.{Each};
ghost use Rattle.resource_table.specs.Jobs.{TestValue, JobValue, cycles_of, IsSoundJob};
ghost use Rattle.resource_table.specs.Schedules.{TableValue, ready_at, IsEarliest};
ghost use Rattle.schedule_search.specs.Orders.{IsReady, IsTopological};
ghost use Rattle.schedule_search.specs.OrderCycles.{Takes};
ghost use Rattle.schedule_search.specs.Walks.{walk, StandIn, IsOpen};
ghost use Rattle.schedule_search.specs.WalkSizes.{ComesBefore, factorial, lists_of, prefixes};
ghost use Rattle.schedule_search.specs.Found.{IsFound};
ghost use Rattle.schedule_search.specs.Estimates.{IsAtLeastReady, IsAtMostNow};

/// On a sound job each topological order has a list schedule, which takes exactly one number of cycles. These are no more
/// than the tests last one after another.
pub fn orders_take_cycles()
    ensures some { (job : JobValue) (order : List ℕ) → IsSoundJob job → IsTopological job order →
        (cycles : ℕ) × Takes job order cycles }
    ensures once { (job : JobValue) (order : List ℕ) (a b : ℕ) → Takes job order a →
        Takes job order b → a ≡ b }
    ensures short { (job : JobValue) (order : List ℕ) (cycles : ℕ) → IsSoundJob job →
        IsTopological job order → Takes job order cycles →
        cycles ≤ sum_by (λ (t : TestValue). t.cycles) job.tests }
{}

/// The walk over the orders of a job has exactly the lists of tests in which each test is ready after those before it; so
/// it has each topological order.
pub fn walks_have_all_orders()
    ensures ready { (job : JobValue) (entry : List ℕ) → Contains (walk job) entry →
        Each (IsReady job) entry }
    ensures has { (job : JobValue) (entry : List ℕ) → Each (IsReady job) entry →
        Contains (walk job) entry }
    ensures orders { (job : JobValue) (order : List ℕ) → IsTopological job order →
        Contains (walk job) order }
{}

/// Where a test ends that is placed now is no earlier than where it ends if it starts as soon as it is ready, so that both
/// are estimates.
pub fn both_ends_are_estimates()
    ensures now_least { (t : TableValue) (test start : ℕ) → IsEarliest t.job t.placed test start →
        IsAtLeastReady t test (start + cycles_of t.job test) }
    ensures now_most { (t : TableValue) (test start : ℕ) → IsEarliest t.job t.placed test start →
        IsAtMostNow t test (start + cycles_of t.job test) }
    ensures ready_most { (t : TableValue) (test : ℕ) →
        IsAtMostNow t test (ready_at t.job t.placed test + cycles_of t.job test) }
{}

/// The entries of the walk over the orders of a job stand in their order: of two entries the earlier is a beginning of the
/// later, or stands before it in the comparison of orders. So each stands there once. On a sound job they are exactly the
/// beginnings of topological orders.
pub fn walks_are_in_order()
    ensures order { (job : JobValue) (i j : ℕ) (a b : List ℕ) → i < j →
        slice_get (walk job) i ≡ Some a → slice_get (walk job) j ≡ Some b → ComesBefore job a b }
    ensures once { (job : JobValue) (i j : ℕ) (entry : List ℕ) →
        slice_get (walk job) i ≡ Some entry → slice_get (walk job) j ≡ Some entry → i ≡ j }
    ensures begin_orders { (job : JobValue) (entry : List ℕ) → IsSoundJob job →
        Contains (walk job) entry → (rest : List ℕ) × IsTopological job (entry ++ rest) }
    ensures beginnings { (job : JobValue) (entry rest : List ℕ) →
        IsTopological job (entry ++ rest) → Contains (walk job) entry }
{}

/// The walk over the orders of n tests has at most as many entries as the sum of n! / (n - k)! for k from 0 to n, and so at
/// most as many are open. A search that may enter this number of prefixes is complete. Seven tests have at most 13,700 entries.
pub fn walks_are_short()
    ensures lists { (n count : ℕ) → count ≤ n →
        lists_of n count * factorial (n - count) ≡ factorial n }
    ensures few { (job : JobValue) → length (walk job) ≤ prefixes (length job.tests) }
    ensures few_open { (job : JobValue) (entries : List (List ℕ)) → StandIn entries (walk job) →
        All (IsOpen job) entries → length entries ≤ prefixes (length job.tests) }
    ensures complete { (job : JobValue) (budget : ℕ) (order starts : List ℕ) (cycles : ℕ)
        (complete : Bool) → IsFound job budget order starts cycles complete →
        prefixes (length job.tests) ≤ budget → complete ≡ true }
    ensures seven { prefixes 7 ≡ 13700 }
{}

/// Complete searches of a job find the same, whatever their budgets and estimates are: the order, its starts and its cycles.
pub fn complete_searches_agree()
    ensures order { (job : JobValue) (budget other_budget : ℕ)
        (order starts other_order other_starts : List ℕ) (cycles other_cycles : ℕ) →
        IsFound job budget order starts cycles true →
        IsFound job other_budget other_order other_starts other_cycles true → order ≡ other_order }
    ensures starts { (job : JobValue) (budget other_budget : ℕ)
        (order starts other_order other_starts : List ℕ) (cycles other_cycles : ℕ) →
        IsFound job budget order starts cycles true →
        IsFound job other_budget other_order other_starts other_cycles true →
        starts ≡ other_starts }
    ensures cycles { (job : JobValue) (budget other_budget : ℕ)
        (order starts other_order other_starts : List ℕ) (cycles other_cycles : ℕ) →
        IsFound job budget order starts cycles true →
        IsFound job other_budget other_order other_starts other_cycles true →
        cycles ≡ other_cycles }
{}
