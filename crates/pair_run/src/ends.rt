ghost use Rattle.std.specs.Prelude.{◌≡◌};
ghost use Rattle.pair_run.specs.Running.{end_name};

/// How a run of a pair ended in this stage.
#[derive(Clone, Copy, Debug, PartialEq, Eq)]
pub enum RunEnd {
    /// Both sides finished.
    Done,
    /// A wire failed.
    Wire,
}

/// What a run of a pair came to.
#[derive(Drop)]
pub struct PairEnd {
    pub end: RunEnd,
    /// What A printed.
    pub out_a: String,
    /// What B printed.
    pub out_b: String,
    /// The units that were spent, or none where the run was cut short.
    pub units: Option<u128>,
    /// The numbers of entries in A's and in B's table at the end, or none where the run was cut short.
    pub tables: Option<(u64, u64)>,
}

impl RunEnd {
    /// The printed name.
    pub fn text(&self) -> &str
        ensures { result.now ≡ end_name self.now }
    {
        match self {
            RunEnd::Done => "done",
            RunEnd::Wire => "wire",
        }
    }
}
