ghost use Rattle.std.specs.Prelude.{◌≡◌, ◌==◌, length};
ghost use Rattle.std.specs.List.{slice_split};

/// Which header a script has.
#[derive(Clone, Copy)]
pub enum ScriptVersion {
    /// `round,lane,command,a,b,c,d`: every request is for one person.
    One,
    /// `round,lane,command,a,b,c,d,e`: a submit's `e` is its party.
    Two,
}

impl ScriptVersion {
    ghost use Rattle.input_rows.specs.script.Word.{header_of, columns_of};

    /// The header line, without its end.
    pub fn header(self) -> &'static [u8]
        ensures header { result.now ≡ header_of self }
        ensures columns { length (slice_split (λ byte. byte == 44) result.now) ≡ columns_of self }
    {
        match self {
            ScriptVersion::One => b"round,lane,command,a,b,c,d",
            ScriptVersion::Two => b"round,lane,command,a,b,c,d,e",
        }
    }

    /// How many columns a script has.
    pub fn columns(self) -> usize
        ensures { result ≡ columns_of self }
    {
        match self {
            ScriptVersion::One => 7,
            ScriptVersion::Two => 8,
        }
    }
}
