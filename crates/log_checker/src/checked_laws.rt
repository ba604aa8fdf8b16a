//! What is proved of checkers. The functions do nothing: what each says is its contract.

ghost use Rattle.log_checker.specs.Checked.{CheckersMeetNoStop};

/// Where a checker stands for lines, they meet no stop.
pub fn checkers_meet_no_stop()
    ensures { CheckersMeetNoStop }
{}
