ghost use Rattle.std.specs.Prelude.{◌≡◌, codes};
ghost use Rattle.pool_base.specs.Which.{file_name};

/// One of the program's input files.
#[derive(Clone, Copy)]
pub enum Which {
    Network,
    Fleet,
    Script,
    Report,
}

impl Which {
    /// The file's word in commands and messages.
    pub fn name(self) -> &'static str
        ensures { result.now ≡ file_name self }
    {
        match self {
            Which::Network => "network",
            Which::Fleet => "fleet",
            Which::Script => "script",
            Which::Report => "report",
        }
    }
}
