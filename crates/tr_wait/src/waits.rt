ghost use Rattle.std.specs.Prelude.{◌≡◌};
ghost use Rattle.tr_wait.specs.Words.{asks_for};

/// Which thread or group a wait asks for. `One(0)` is as `Any`.
#[derive(Clone, Copy, Debug, PartialEq, Eq)]
pub enum Which {
    /// Any, as -1 for waitpid(2).
    Any,
    /// The one with this id.
    One(u32),
}

impl Which {
    /// Whether the wait asks for this id.
    pub fn asks_for(self, id: u32) -> bool
        ensures { result ≡ asks_for self id }
    {
        match self {
            Which::Any => true,
            Which::One(asked) => asked == 0 || asked == id,
        }
    }
}

/// What beside deaths a wait of the starter asks for: WUNTRACED and WCONTINUED of waitpid(2).
#[derive(Clone, Copy, Debug, PartialEq, Eq)]
pub struct WaitFlags {
    /// Groups that stopped, too.
    pub untraced: bool,
    /// Groups that continued, too.
    pub continued: bool,
}
