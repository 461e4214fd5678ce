// Why a run or a job is refused; the definitions `run_refusal` and `job_refusal` give each case its number and values.

#[derive(Clone, Copy, PartialEq, Eq, Debug)]
pub enum RunRefusal {
    ScriptLength,
    ListingLength,
}

// A malformed job has a listing of one line, and its length is told.
#[derive(Clone, Copy, PartialEq, Eq, Debug)]
pub enum JobRefusal {
    Run(RunRefusal),
    Malformed { listed: usize },
}
