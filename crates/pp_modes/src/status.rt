//! How the program ends.

ghost use Rattle.std.specs.Prelude.{◌≡◌};
ghost use Rattle.pp_modes.specs.Codes.{code_of};

/// How the program ends.
#[derive(Clone, Copy, Debug, PartialEq, Eq)]
pub enum Status {
    /// Every function is valid; a run ended with a value; checks were listed.
    AllValid,
    /// Some function is invalid; a run failed a check.
    SomeInvalid,
    /// No function is invalid, and some is open or depends on another; a run was outside its precondition or too deep.
    SomeOpen,
    /// The sources are refused.
    Refused,
    /// The words are refused.
    Words,
    /// A source can't be read.
    ReadFault,
    /// An output doesn't take what is put.
    WriteFault,
    /// There is no memory.
    Memory,
}

impl Status {
    /// The exit status, 0 to 7.
    pub fn code(self) -> u8
        ensures { result ≡ code_of self }
    {
        match self {
            Status::AllValid => 0,
            Status::SomeInvalid => 1,
            Status::SomeOpen => 2,
            Status::Refused => 3,
            Status::Words => 4,
            Status::ReadFault => 5,
            Status::WriteFault => 6,
            Status::Memory => 7,
        }
    }
}
