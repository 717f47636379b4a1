ghost use Rattle.std.specs.Prelude.{◌≡◌};
ghost use Rattle.run_admin.specs.Paths.{wanted_at};

/// The page that a path names.
#[derive(Clone, Copy, Debug, PartialEq, Eq)]
pub enum AdminWanted {
    /// The numbers in Prometheus's text format.
    Metrics,
    /// The numbers as JSON.
    State,
    /// The health of the proxy.
    Health,
    /// The HTML page.
    Page,
}

/// Returns the page that a path names; `None` where it names none.
pub fn wanted_at(path: &[u8]) -> Option<AdminWanted>
    ensures { result ≡ wanted_at path.now }
{
    if path == b"/metrics".as_slice() {
        Some(AdminWanted::Metrics)
    } else if path == b"/state.json".as_slice() {
        Some(AdminWanted::State)
    } else if path == b"/health".as_slice() {
        Some(AdminWanted::Health)
    } else if path == b"/".as_slice() {
        Some(AdminWanted::Page)
    } else {
        None
    }
}
