//! How great the limits are. It is the contract of a function that does nothing: a caller learns it by the call.
ghost use Rattle.std.specs.Prelude.{◌≡◌};
ghost use Rattle.soc_model.specs.declared.TheConstants.{MODULES_MOST, TESTS_MOST, CHAINS_MOST, POWER_MOST, WORK_MOST, NUMBER_WORD_MOST};
ghost use Rattle.plan_model.specs.declared.TheConstants.{WIRES_MOST, BUDGET_MOST, STEPS_MOST, START_MOST, PLAN_NUMBER_MOST};
ghost use Rattle.plan_model.specs.declared.proof.TheConstants.{LISTS_MOST, WEIGHT_MOST, PRICE_MOST};
ghost use Rattle.limits_text.specs.declared.TheConstants.{BUDGET};
ghost use Rattle.sample_maker.specs.declared.TheConstants.{SAMPLE_MODULES_MOST};
ghost use Rattle.tester_vectors.specs.declared.TheConstants.{RUN_MOST};
ghost use Rattle.tester_commands.specs.declared.TheConstants.{LONG_RUN_MOST};
ghost use Rattle.commands.specs.declared.TheConstants.{FILE_MOST, PLAN_FILE_MOST, DATA_FILE_MOST, TRIES_MOST, NODES_MOST};

/// Each limit is the number that the formats and the help of the commands say. Clauses cite limits by their names.
pub fn limits_are_as_written()
    // of a chip: modules, tests, scan chains of a module, power of a test, work, and a number of its text
    ensures modules { MODULES_MOST ≡ 1000 }
    ensures tests { TESTS_MOST ≡ 4096 }
    ensures chains { CHAINS_MOST ≡ 1000 }
    ensures power { POWER_MOST ≡ 1000000000 }
    ensures work { WORK_MOST ≡ 1000000000000000000 }
    ensures number { NUMBER_WORD_MOST ≡ 999999999999 }

    // of limits: wires, budget, and that where none is given, and steps of a profile
    ensures wires { WIRES_MOST ≡ 256 }
    ensures budget { BUDGET_MOST ≡ 1000000 }
    ensures usual_budget { BUDGET ≡ 20000 }
    ensures steps { STEPS_MOST ≡ 16 }

    // of a plan: starts in cycles, and all its numbers
    ensures start { START_MOST ≡ 1000000000000000000 }
    ensures plan_number { PLAN_NUMBER_MOST ≡ 2000000000000000000 }

    // of a proof: lists, weights and prices
    ensures lists { LISTS_MOST ≡ 256 }
    ensures weight { WEIGHT_MOST ≡ 999999999 }
    ensures price { PRICE_MOST ≡ 999999999999999 }

    // of a file, in bytes
    ensures file { FILE_MOST ≡ 1048576 }
    ensures plan_file { PLAN_FILE_MOST ≡ 33554432 }
    ensures data_file { DATA_FILE_MOST ≡ 268435456 }

    // of a command: modules of a made chip, tries, nodes, and a run's cycles times its wires, with made contents and with test data
    ensures sample { SAMPLE_MODULES_MOST ≡ 200 }
    ensures tries { TRIES_MOST ≡ 10000000 }
    ensures nodes { NODES_MOST ≡ 1000000 }
    ensures run { RUN_MOST ≡ 20000000 }
    ensures long_run { LONG_RUN_MOST ≡ 100000000 }
{}
