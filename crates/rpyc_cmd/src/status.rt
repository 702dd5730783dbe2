ghost use Rattle.std.specs.Prelude.{◌≡◌};
ghost use Rattle.rpyc_cmd.specs.Statuses.{code_of};

/// How a run of the program ended.
#[derive(Clone, Copy, Debug, PartialEq, Eq)]
pub enum Status {
    /// The run is done and the report was written.
    Done,
    /// A script that was run alone raised, and the report was written.
    Raised,
    /// The words are no command line.
    Words,
    /// A script is refused.
    Script,
    /// A file is not there or could not be read.
    File,
    /// A script that was run alone spent all its units, and the report was written.
    OutOfFuel,
    /// A script that was run alone left what is built, and the report was written.
    Beyond,
    /// A wire failed.
    Device,
    /// The file of frames has a fault, and its text was written.
    Peer,
    /// The output failed: what it took is a front of the text.
    Output,
    /// There was no memory: nothing more was written.
    NoMemory,
}

impl Status {
    /// The exit status of the process.
    pub fn code(self) -> u8
        ensures { result ≡ code_of self }
    {
        match self {
            Status::Done => 0,
            Status::Raised => 1,
            Status::Words => 2,
            Status::Script => 3,
            Status::File => 4,
            Status::OutOfFuel => 6,
            Status::Beyond => 7,
            Status::Device => 8,
            Status::Peer => 9,
            Status::Output => 10,
            Status::NoMemory => 11,
        }
    }
}
