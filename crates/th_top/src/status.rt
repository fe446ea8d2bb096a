// How the program ends.
ghost use Rattle.std.specs.Prelude.{◌≡◌};
ghost use Rattle.th_top.specs.Status.{code_of};

/// How the program ends. The exit codes are 0 to 6, in this order.
#[derive(Clone, Copy, Debug, PartialEq, Eq)]
pub enum Status {
    /// The program was accepted, and no alarm survives, or nothing is joined in the last state of its run.
    NoneSurvive,
    /// The program was accepted, and some alarm survives, or a static field and an Activity class are
    /// joined in the last state of its run.
    SomeSurvive,
    /// The words are no command, or the script has a fault.
    Usage,
    /// All was read, and the program is not accepted.
    Refused,
    /// A file is missing, or a read failed.
    ReadFault,
    /// A write of the output failed.
    WriteFault,
    /// Want of memory.
    NoMemory,
}

impl Status {
    /// The exit code, from 0 to 6.
    pub fn code(self) -> u8
        ensures { result ≡ code_of self }
    {
        self as u8
    }
}
