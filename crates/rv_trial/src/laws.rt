//! The law of trials. It computes nothing: its contract is the law.

ghost use Rattle.rv_trial.specs.Trials.{TrialsAreTold};

/// The trial of each number and each size from 42 to 84,000 is told: the run of its program exits with code 0 after the steps that are
/// told, at most 326,025.
pub fn trials_are_told()
    ensures { TrialsAreTold }
{}
