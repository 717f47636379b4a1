ghost use Rattle.std.specs.Prelude.{◌≡◌};
ghost use Rattle.run_admin.specs.Paths.{health_text, status_of};

use crate::page::{AdminPage, Answers, Status};
use crate::pages::PAGE;
use crate::paths::{AdminWanted, wanted_at};
use crate::question::Question;
use std::alloc::{AllocError, Global};

/// The least time between two makings of a text, in milliseconds. An operator who asks often
/// doesn't hold up the threads that count.
const SELDOM: u64 = 100;

const PLAIN: &str = "text/plain; charset=utf-8";

/// The health of a proxy.
#[derive(Clone, Copy, Debug, PartialEq, Eq)]
pub enum Readiness {
    /// Some server is up and takes requests.
    Serves,
    /// No server is up and takes requests.
    Unserved,
    /// The proxy accepts no more clients.
    Stops,
}

impl Readiness {
    /// Returns the status that a load balancer before the proxy is told.
    pub fn status(self) -> Status
        ensures { result ≡ status_of self }
    {
        match self {
            Readiness::Serves => Status::Good,
            Readiness::Unserved | Readiness::Stops => Status::Unavailable,
        }
    }

    /// Returns the health in words.
    pub fn text(self) -> &'static str
        ensures { result.now ≡ health_text self }
    {
        match self {
            Readiness::Serves => "ok\n",
            Readiness::Unserved => "no server\n",
            Readiness::Stops => "stopping\n",
        }
    }
}

/// The source of a proxy's numbers.
pub trait NumberSource {
    /// Milliseconds since the proxy began.
    fn now(&self) -> u64;

    fn health(&self) -> Readiness;

    /// Returns the numbers in Prometheus's text format.
    fn metrics(&self) -> Result<String, AllocError>;

    /// Returns the numbers as one JSON value.
    fn state(&self) -> Result<String, AllocError>;
}

// A text and the moment when it was made.
#[derive(Drop)]
struct Kept {
    text: String,
    made: u64,
}

/// The answers of an admin address.
#[derive(Drop)]
pub struct Pages<T: NumberSource + Drop> {
    alloc: Global,
    told: T,
    metrics: Option<Kept>,
    state: Option<Kept>,
}

impl<T: NumberSource + Drop> Pages<T> {
    /// Makes the answers from this source of numbers.
    pub fn new(alloc: Global, told: T) -> Pages<T> {
        Pages {
            alloc,
            told,
            metrics: None,
            state: None,
        }
    }

    fn metrics(&mut self) -> Result<String, AllocError> {
        let now = self.told.now();
        if let Some(kept) = &self.metrics {
            if now.saturating_sub(kept.made) < SELDOM {
                return String::from_str(self.alloc, kept.text.as_str());
            }
        }
        let text = self.told.metrics()?;
        let answer = String::from_str(self.alloc, text.as_str())?;
        self.metrics = Some(Kept { text, made: now });
        Ok(answer)
    }

    fn state(&mut self) -> Result<String, AllocError> {
        let now = self.told.now();
        if let Some(kept) = &self.state {
            if now.saturating_sub(kept.made) < SELDOM {
                return String::from_str(self.alloc, kept.text.as_str());
            }
        }
        let text = self.told.state()?;
        let answer = String::from_str(self.alloc, text.as_str())?;
        self.state = Some(Kept { text, made: now });
        Ok(answer)
    }

    fn health(&self) -> Result<AdminPage, AllocError> {
        let health = self.told.health();
        Ok(AdminPage {
            status: health.status(),
            kind: PLAIN,
            body: String::from_str(self.alloc, health.text())?,
        })
    }
}

impl<T: NumberSource + Drop> Answers for Pages<T> {
    fn answer(&mut self, question: &Question) -> Result<AdminPage, AllocError> {
        let (kind, body) = match wanted_at(question.path) {
            Some(AdminWanted::Metrics) => (
                "text/plain; version=0.0.4; charset=utf-8",
                self.metrics()?,
            ),
            Some(AdminWanted::State) => ("application/json", self.state()?),
            Some(AdminWanted::Health) => return self.health(),
            Some(AdminWanted::Page) => (
                "text/html; charset=utf-8",
                String::from_str(self.alloc, PAGE)?,
            ),
            None => return self.nothing(),
        };
        Ok(AdminPage {
            status: Status::Good,
            kind,
            body,
        })
    }
}

impl<T: NumberSource + Drop> Pages<T> {
    // The answer to a path that names no page.
    fn nothing(&self) -> Result<AdminPage, AllocError> {
        let text = "there are /, /metrics, /state.json and /health\n";
        Ok(AdminPage {
            status: Status::NotFound,
            kind: PLAIN,
            body: String::from_str(self.alloc, text)?,
        })
    }
}
