// Rows of runs.
//
// Each clause is computed from the definitions.
ghost use Rattle.run_rows.specs.Arithmetic.{ArithmeticRows};
ghost use Rattle.run_rows.specs.ArrayReceivers.{ArrayReceiversRows};
ghost use Rattle.run_rows.specs.Arrays.{ArraysRows};
ghost use Rattle.run_rows.specs.Branches.{BranchesRows};
ghost use Rattle.run_rows.specs.Builders.{BuildersRows};
ghost use Rattle.run_rows.specs.Calls.{CallsRows};
ghost use Rattle.run_rows.specs.FailedInitialisation.{FailedInitialisationRows};
ghost use Rattle.run_rows.specs.Handlers.{HandlersRows};
ghost use Rattle.run_rows.specs.Initialisation.{InitialisationRows};
ghost use Rattle.run_rows.specs.NestedArrays.{NestedArraysRows};
ghost use Rattle.run_rows.specs.NullReceivers.{NullReceiversRows};
ghost use Rattle.run_rows.specs.Printing.{PrintingRows};
ghost use Rattle.run_rows.specs.Stack.{StackRows};
ghost use Rattle.run_rows.specs.Strings.{StringsRows};
ghost use Rattle.run_rows.specs.Switches.{SwitchesRows};
ghost use Rattle.run_rows.specs.Uncaught.{UncaughtRows};

/// Carries what runs have come to by the definitions, row by row: what HotSpot does. It does nothing.
pub fn computed_rows()
    ensures arithmetic { ArithmeticRows }
    ensures branches { BranchesRows }
    ensures switches { SwitchesRows }
    ensures stack { StackRows }
    ensures arrays { ArraysRows }
    ensures nested_arrays { NestedArraysRows }
    ensures null_receivers { NullReceiversRows }
    ensures array_receivers { ArrayReceiversRows }
    ensures handlers { HandlersRows }
    ensures uncaught { UncaughtRows }
    ensures initialisation { InitialisationRows }
    ensures failed_initialisation { FailedInitialisationRows }
    ensures calls { CallsRows }
    ensures strings { StringsRows }
    ensures builders { BuildersRows }
    ensures printing { PrintingRows }
{}
