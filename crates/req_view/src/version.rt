ghost use Rattle.std.specs.Prelude.{◌≡◌};

/// The version of a head.
#[derive(Clone, Copy, Debug, PartialEq, Eq)]
pub enum Version {
    /// HTTP/1.0.
    Http10,
    /// HTTP/1.1.
    Http11,
}

impl Version {
    ghost use Rattle.req_view.specs.Request.{version_of};

    /// Returns the version by the digit after the dot.
    pub(crate) fn of_minor(minor: u8) -> Version
        ensures { result ≡ version_of minor }
    {
        if minor == 0 {
            Version::Http10
        } else {
            Version::Http11
        }
    }
}
