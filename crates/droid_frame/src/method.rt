//! Methods of identification: how the formats of a file were found.

ghost use Rattle.std.specs.Prelude.{◌≡◌};
ghost use Rattle.droid_frame.specs.Fields.{method_number};

/// How the formats of a file were found.
#[derive(Clone, Copy, PartialEq, Eq)]
pub enum Method {
    /// No format was found.
    Unidentified,
    /// By the byte sequences of a signature.
    Signature,
    /// By the extension of the file's name.
    Extension,
}

impl Method {
    /// Returns the number of the method in a body, 0 to 2. `method_at` of `reading/fields` reads it back.
    pub fn number(self) -> u8
        ensures { result ≡ method_number self }
    {
        match self {
            Method::Unidentified => 0,
            Method::Signature => 1,
            Method::Extension => 2,
        }
    }
}
